//! The logs that can be opened by name.
ghost use Rattle.std.specs.Prelude.{◌≡◌, ◌≢◌, ◌≤◌, List, ℕ, Option, Some, IfOk, IfSome, OnOk, IsErrOf};
ghost use Rattle.log_seams.specs.Outside.{Adds, Rose};
ghost use Rattle.log_seams.specs.declared.refusals.OpenRefused.{OpenRefused};

use crate::{OpenRefused, Source};

/// Opens logs by their names, and counts the faults of each name.
pub trait Shelf {
    /// What an opened log is read from.
    type Src: Source;

    /// The bytes of each name, where the shelf tells them.
    ghost content: { Self → List ℕ → Option (List ℕ) };

    /// The bytes that were left of a log of each name when one was last closed, where the shelf
    /// tells them. All before these were read.
    ghost unread: { Self → List ℕ → Option (List ℕ) };

    /// How often opening a name has failed.
    ghost open_faults: { Self → List ℕ → ℕ };

    /// How often reading a log of a name has failed, as far as its sources were closed.
    ghost read_faults: { Self → List ℕ → ℕ };

    /// Opens the log of a name at its first byte.
    ///
    /// `OpenRefused::Failed` comes only where that name's count of faults in opening rose.
    fn open_log(&mut self, name: &str) -> Result<Self::Src, OpenRefused>
        // What stays.
        ensures content { (n : List ℕ) → content self.new n ≡ content self.old n }
        ensures unread { (n : List ℕ) → unread self.new n ≡ unread self.old n }
        ensures reads { (n : List ℕ) → read_faults self.new n ≡ read_faults self.old n }

        // The opened log.
        ensures left { IfOk result (λ s. Self.Src.left s ≡ content self.old name.now) }
        ensures named { IfOk result (λ s. IfSome (Self.Src.name s) (λ m. m ≡ name.now)) }
        ensures fresh { IfOk result (λ s. Self.Src.faults s ≡ 0) }

        // The counts in opening.
        ensures opens { (n : List ℕ) → open_faults self.old n ≤ open_faults self.new n }
        ensures steady { OnOk result
            ((n : List ℕ) → open_faults self.new n ≡ open_faults self.old n) }
        ensures cause { IsErrOf result OpenRefused.Failed
            → Rose (open_faults self.old name.now) (open_faults self.new name.now) };

    /// Ends the reading of a log. Its count of faults is added to the count of faults in reading
    /// its name, or to that of every name where the source tells none; and so is told what is left
    /// of it.
    fn close_log(&mut self, src: Self::Src)
        // What stays.
        ensures content { (n : List ℕ) → content self.new n ≡ content self.old n }
        ensures opens { (n : List ℕ) → open_faults self.new n ≡ open_faults self.old n }

        // What is told of the log.
        ensures unread { (n : List ℕ) → IfSome (Self.Src.name src) (λ m. m ≡ n)
            → unread self.new n ≡ Self.Src.left src }
        ensures others { (m n : List ℕ) → Self.Src.name src ≡ Some m → m ≢ n
            → unread self.new n ≡ unread self.old n }
        ensures reads { (n : List ℕ) → read_faults self.old n ≤ read_faults self.new n }
        ensures adds { (n : List ℕ) → IfSome (Self.Src.name src) (λ m. m ≡ n)
            → Adds (Self.Src.faults src) (read_faults self.old n) (read_faults self.new n) };
}
