//! A journal over a disk that is lent to it: opening it, walking along its records, and appending.
ghost use Rattle.std.specs.Prelude.{◌≡◌, ◌≤◌, ◌<◌, ◌+◌, ◌-◌, ◌^◌, ℕ, IsTrue, IsFalse, [], ◌∷◌, length, IfOk, OnOk, OnErr, IfSome, IfNone, IsErrOf};
ghost use Rattle.log_seams.specs.Disk.{KeepsBytes, ReadsOnly};
ghost use Rattle.log_seams.specs.Outside.{CountsOf};
ghost use Rattle.record_format.specs.Header.{IsHeader};
ghost use Rattle.disk_journal.specs.Record.{IsFrame, saved_of};
ghost use Rattle.disk_journal.specs.Place.{HasRange};
ghost use Rattle.disk_journal.specs.State.{IsAtFirst, IsAtEnd, BeginsWith};
ghost use Rattle.disk_journal.specs.Calls.{OnlyReads, StaysAt, HasPassed, HasEnded, HasDamage, HasLoaded, GaveFewer, GoesOn, HasAdded, LeavesBeforeOrAfter, IsPast, IsFull, HasOpened, HasNoHeader};

use crate::synced::write_synced;
use crate::walk::look;
use crate::{
    AppendRefusal, FRONT_LEN, LoadRefusal, OPEN_GATE, RecordPlace, StartRefusal, WalkRefusal,
};
use log_seams::Disk;
use plain_list::Text;
use record_format::{HEADER_LEN, Header, read_header};
use std::alloc::Global;

/// A journal over a disk, at one place of a walk along its records.
///
/// Its disk has a header of [`HEADER_LEN`] bytes, then for each record an open gate (the byte
/// [`OPEN_GATE`]) and the record, then a closed gate (any other byte), and then anything. A record is its kind in one byte, the
/// length of its payload in eight bytes with the lowest first, and its payload.
#[derive(Drop)]
pub struct Journal<'d, D: Disk> {
    /// The disk.
    pub disk: &'d mut D,
    /// The header that the disk begins with.
    pub header: Header,
    /// The place of the gate that the walk has come to.
    pub place: u64,
    /// How many records were walked past and appended.
    pub count: u64,
    /// Whether the gate at `place` is closed.
    pub closed: bool,
    ghost limit: { header.length_limit ≤ 2 ^ 40 },
    ghost below: { IsTrue closed → place < 2 ^ 64 - 1 },
    ghost counted: { count ≤ place },
}

/// Syncs the disk and reads the header: what [`Journal::open_journal`] decides over the disk. After
/// `Ok` a crash leaves what is read. `Damaged`, with `at` as 0, exactly where the first 32 bytes are no
/// header. Reads these bytes alone. Takes no memory.
pub fn start<D: Disk>(disk: &mut D) -> Result<Header, StartRefusal>
    // what stays
    ensures keeps { KeepsBytes (D.state disk.old) (D.state disk.new) }
    ensures ranges { ReadsOnly 0 HEADER_LEN (D.state disk.old) (D.state disk.new) }

    // by the answer
    ensures begins { IfOk result (λ h. BeginsWith h (D.state disk.new)) }

    // causes
    ensures damaged { (at : ℕ) → IsErrOf result (StartRefusal.Damaged at)
        → HasNoHeader at (D.state disk.old) }
    ensures counts { CountsOf StartRefusal.DiskFault
        (D.state disk.old).faults (D.state disk.new).faults result }
{
    disk.sync()?;
    let mut bytes = [0; HEADER_LEN];
    let count = disk.read(0, &mut bytes)?;
    if count < HEADER_LEN {
        return Err(StartRefusal::Damaged { at: 0 });
    }
    match read_header(&bytes) {
        Some(header) => Ok(header),
        None => Err(StartRefusal::Damaged { at: 0 }),
    }
}

impl<'d, D: Disk> Journal<'d, D> {
    ghost use Rattle.disk_journal.specs.Journal.{state_of};

    /// The journal over a disk that [`start`] has decided over, before its first record. Takes no
    /// memory and cannot fail.
    pub fn begin(disk: &'d mut D, header: Header) -> Journal<'d, D>
        requires { IsHeader header }
        ensures name { result.disk.ghost_name ≡ disk.entry.ghost_name }
        ensures disk { result.disk.now ≡ disk.old }
        ensures header { result.header ≡ header }
        ensures first { IsAtFirst (state_of result) }
    {
        Journal {
            disk,
            header,
            place: HEADER_LEN as u64,
            count: 0,
            closed: false,
        }
    }

    /// Opens the journal of a disk: [`start`], and then [`Journal::begin`]. Takes no memory.
    pub fn open_journal(disk: &'d mut D) -> Result<Journal<'d, D>, StartRefusal>
        // by the answer
        ensures name { IfOk result (λ j. j.disk.ghost_name ≡ disk.entry.ghost_name) }
        ensures opened { IfOk result (λ j. HasOpened (D.state disk.old) (state_of j)) }

        // causes
        ensures damaged { (at : ℕ) → IsErrOf result (StartRefusal.Damaged at)
            → HasNoHeader at (D.state disk.old) }
    {
        let header = start(disk)?;
        Ok(Journal::begin(disk, header))
    }

    /// The header that the disk begins with.
    pub fn header(&self) -> &Header
        ensures { result.now ≡ self.now.header }
    {
        &self.header
    }

    /// How many records were walked past and appended.
    pub fn count(&self) -> u64
        ensures { result ≡ self.now.count }
    {
        self.count
    }

    /// Whether the walk has come to the closed gate.
    pub fn at_end(&self) -> bool
        ensures { result ≡ self.now.closed }
    {
        self.closed
    }

    /// The count of bytes up to and with the closed gate.
    pub fn end(&self) -> u64
        requires { IsTrue self.now.closed }
        ensures { result ≡ self.now.place + 1 }
    {
        self.place + 1
    }

    /// The disk's count of faults now.
    pub fn faults(&self) -> u64
        ensures { result ≡ (D.state self.now.disk.now).faults }
    {
        self.disk.faults()
    }

    /// Walks past the next record and tells where it stands; `None` exactly at a closed gate.
    /// `Damaged` exactly where there is no gate, or an open one without a whole record behind it; the
    /// walk then stays where it was. Reads no byte of a payload. Takes no memory.
    pub fn next_place(&mut self) -> Result<Option<RecordPlace>, WalkRefusal>
        // what stays
        ensures reads { OnlyReads self.old.place FRONT_LEN
            (state_of self.old) (state_of self.new) }

        // by the answer
        ensures passed { IfOk result (λ next. IfSome next (λ p.
            HasPassed p (state_of self.old) (state_of self.new))) }
        ensures ended { IfOk result (λ next. IfNone next
            (HasEnded (state_of self.old) (state_of self.new))) }
        ensures stays { OnErr result
            (StaysAt (state_of self.old) (state_of self.new)) }

        // causes
        ensures damaged { (at : ℕ) → IsErrOf result (WalkRefusal.Damaged at)
            → HasDamage at (state_of self.old) }
        ensures counts { CountsOf WalkRefusal.DiskFault
            (D.state self.old.disk.now).faults (D.state self.new.disk.now).faults result }
    {
        match look(self.disk, self.place)? {
            None => {
                self.closed = true;
                Ok(None)
            }
            Some(next) => {
                self.closed = false;
                self.place = next.payload + next.length;
                self.count += 1;
                Ok(Some(next))
            }
        }
    }

    /// Loads `length` bytes from the place `at`: a range within a payload that was walked past, or
    /// found by [`Journal::place_at`]. `Damaged` where the disk gave fewer bytes, which one that tells
    /// its bytes does not. Reads no byte outside the range.
    pub fn load(&mut self, alloc: Global, at: u64, length: u64) -> Result<Text, LoadRefusal>
        requires { IfSome (D.state self.old.disk.now).seen (HasRange at length) }

        // what stays
        ensures reads { OnlyReads at length
            (state_of self.old) (state_of self.new) }
        ensures stays { StaysAt (state_of self.old) (state_of self.new) }

        // by the answer
        ensures loaded { IfOk result (λ text.
            HasLoaded at length text (state_of self.old) (state_of self.new)) }

        // causes
        ensures damaged { (place : ℕ) → IsErrOf result (LoadRefusal.Damaged place)
            → GaveFewer at length place (state_of self.old) (state_of self.new) }
        ensures counts { CountsOf LoadRefusal.DiskFault
            (D.state self.old.disk.now).faults (D.state self.new.disk.now).faults result }
    {
        let mut bytes = vec![in alloc; 0; length as usize]?;
        let count = self.disk.read(at, bytes.as_mut_slice())?;
        if count < bytes.len() {
            return Err(LoadRefusal::Damaged { at });
        }
        Ok(Text::new(bytes))
    }

    /// Appends a record, which [`frame`](crate::frame) framed: after `Ok` every crash leaves the journal
    /// with it, and at any moment a crash leaves the journal as it was, or with it. `ArchiveFull` exactly
    /// where its bytes behind the journal's end go past the limit of length; it is tested first, and
    /// nothing is called. After `DiskFault` nothing more may be appended: open the journal again. Makes
    /// four calls on the disk: a write of the record and a closed gate, a sync, a write of the open gate
    /// before it, and a sync. Takes no memory.
    pub fn append(&mut self, framed: &[u8]) -> Result<(), AppendRefusal>
        requires at_end { IsAtEnd (state_of self.old) }
        requires framed { IsFrame framed.now }

        // what stays
        ensures goes_on { GoesOn (state_of self.old) (state_of self.new) }
        ensures moments { LeavesBeforeOrAfter (saved_of framed.now)
            (state_of self.old) (state_of self.new) }

        // by the answer
        ensures added { OnOk result (HasAdded (saved_of framed.now ∷ []) (length framed.now)
            (state_of self.old) (state_of self.new)) }
        ensures stays { OnErr result
            (StaysAt (state_of self.old) (state_of self.new)) }

        // causes
        ensures full { (end need : ℕ) → IsErrOf result (AppendRefusal.ArchiveFull end need)
            → IsFull end need (length framed.now) (state_of self.old)
            × (self.new.disk ≡ self.old.disk) }
        ensures exactly { IsPast (length framed.now) (state_of self.old) → IsErrOf result
            (AppendRefusal.ArchiveFull (self.old.place + 1) (length framed.now)) }
        ensures counts { CountsOf AppendRefusal.DiskFault
            (D.state self.old.disk.now).faults (D.state self.new.disk.now).faults result }
    {
        let end = self.place + 1;
        let need = framed.len() as u64;
        if is_past(self.header.length_limit, end, need) {
            return Err(AppendRefusal::ArchiveFull { end, need });
        }
        write_synced(self.disk, end, framed)?;
        write_synced(self.disk, self.place, &[OPEN_GATE])?;
        self.place += need;
        self.count += 1;
        Ok(())
    }
}

// Whether so many bytes behind an end go past a limit.
fn is_past(limit: u64, end: u64, need: u64) -> bool
    ensures yes { IsTrue result → limit < end + need }
    ensures no { IsFalse result → end + need ≤ limit }
{
    need > limit || end > limit - need
}
