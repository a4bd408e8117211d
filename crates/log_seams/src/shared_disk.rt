//! A disk that lends parts of itself, each of which one thread reads.
ghost use Rattle.std.specs.Prelude.{◌≡◌, ◌<◌, ◌≤◌, IfSome};
ghost use Rattle.log_seams.specs.Outside.{Rose};
ghost use Rattle.log_seams.specs.Parts.{Lends, IsPart, TakesBack};

use crate::Disk;

/// A disk that lends parts. A part reads what the disk holds; what it read and how often it failed the
/// disk tells once it took the part back.
pub trait SharedDisk: Disk {
    /// A part, which can go to another thread.
    type Part: Disk + Send + Drop;

    /// A part of what the disk holds now, which has read nothing yet. None where it could not be had,
    /// as for want of memory. Reads nothing, and is no fault.
    fn part(&mut self) -> Option<Self::Part>
        ensures lends { Lends (Self.Disk.state self.old) (Self.Disk.state self.new) }
        ensures part { IfSome result (λ p. IsPart (Self.Disk.state self.old) (Self.Part.state p)) };

    /// Takes a part back, with the ranges that it read and its faults. Cannot fail.
    fn take_back(&mut self, part: Self::Part)
        ensures { TakesBack (Self.Part.state part) (Self.Disk.state self.old)
            (Self.Disk.state self.new) };
}

impl<D: SharedDisk> SharedDisk for &mut D {
    type Part = D::Part;

    fn part(&mut self) -> Option<D::Part> {
        (**self).part()
    }

    fn take_back(&mut self, part: D::Part) {
        (**self).take_back(part)
    }
}

/// The count of faults of a disk with those of a part that came back.
pub fn add_faults(faults: u64, more: u64) -> u64
    ensures later { faults ≤ result }
    ensures steady { more ≡ 0 → result ≡ faults }
    ensures rose { 0 < more → Rose faults result }
{
    faults.saturating_add(more)
}
