//! A disk in memory, for tests and for whole runs without a file. It records its calls with the bytes
//! of each write, fails at the calls that its list names, and tells what a crash may leave.
ghost use Rattle.std.specs.Prelude.{◌≡◌, ◌≤◌, ◌∷◌, ℕ, List, length, Some, max, IfOk, ◌+◌, OnOk, IsOk, vec_capacity, ◌<◌, ◌^◌};
ghost use Rattle.log_seams.specs.Disk.{laid, Gave};
ghost use Rattle.log_seams.specs.Outside.{Rose};
ghost use Rattle.log_seams.specs.Replay.{wrote, logged, events, event_of, content, IsImage, Event, torn_by, after_event, left_by};
ghost use Rattle.log_seams.specs.Returned.{came_after};
ghost use Rattle.log_seams.specs.StepsReplay.{total, with_read, reads_now, counts_now, only_now, wider};

use crate::returned::Returned;
use crate::{Disk, Failed};
use plain_list::Text;
use std::alloc::{AllocError, Global};

/// What the ranges hold, after a crash, that were written since the last sync that succeeded.
#[derive(Clone, Copy, Debug, PartialEq, Eq)]
pub enum Pending {
    /// The bytes that were written.
    All,
    /// What was there before; past the old end nothing.
    Nothing,
    /// The first half of the bytes that were written, rounded down, and then what was there before.
    FirstHalf,
    /// The byte 1 in each place.
    Ones,
}

/// A recorded call. The bytes of a write stand in the log, behind those of the writes before it.
#[derive(Clone, Copy, Debug, PartialEq, Eq)]
pub enum Call {
    /// A write of `count` bytes at a place, which was done or failed.
    Wrote { at: u64, count: usize, done: bool },
    /// A read that gave `count` bytes.
    Read { at: u64, count: usize },
    /// A sync that succeeded.
    Synced,
    /// A call that changed nothing.
    Other,
}

/// A disk in memory. Its calls take no memory: the room for them is taken when it is made.
#[derive(Drop)]
pub struct MemDisk {
    pub(crate) alloc: Global,
    first: Text,
    pub(crate) bytes: Vec<u8>,
    pub(crate) calls: Vec<Call>,
    log: Vec<u8>,
    fails: Vec<u64>,
    room: usize,
    pub(crate) call_limit: usize,
    pub(crate) faults: u64,
    pub(crate) part_fails: Vec<u64>,
    pub(crate) returned: Returned,
    ghost whole: { total calls.items ≡ length log.items },
    ghost same: { bytes.items ≡ content first (events calls.items log.items) },
    ghost room_bytes: { room ≤ vec_capacity bytes },
    ghost room_log: { room ≤ vec_capacity log },
    ghost room_calls: { call_limit ≤ vec_capacity calls },
    ghost recorded: { length calls.items ≤ call_limit },
    ghost behind: { came_after returned ≤ length calls.items },
}

// Writes over what stands at a place, and past the end.
fn overwrite(file: &mut Vec<u8>, at: usize, bytes: &[u8]) -> Result<(), AllocError>
    ensures written { OnOk result (file.new.items ≡ laid at bytes.now file.old.items) }
    ensures room { max (length file.old.items) (at + length bytes.now) ≤ vec_capacity file.old
        → IsOk result }
    ensures capacity { vec_capacity file.old ≤ vec_capacity file.new }
{
    let at = at.min(file.len());
    let over = bytes.len().min(file.len() - at);
    file[at..at + over].copy_from_slice(&bytes[..over]);
    file.extend_from_slice(&bytes[over..])
}

// What a write leaves, done or failed.
fn apply(file: &mut Vec<u8>, at: usize, bytes: &[u8], done: bool) -> Result<(), AllocError>
    ensures written { OnOk result
        (file.new.items ≡ after_event (wrote done at bytes.now) file.old.items) }
    ensures room { max (length file.old.items) (at + length bytes.now) ≤ vec_capacity file.old
        → IsOk result }
    ensures capacity { vec_capacity file.old ≤ vec_capacity file.new }
{
    if !done {
        return Ok(());
    }
    overwrite(file, at, bytes)
}

// Copies what stands at a place into the front of the buffer.
pub(crate) fn copy_from(bytes: &[u8], at: u64, buf: &mut [u8]) -> usize
    ensures told { Gave (Some bytes.now) at result buf.old buf.new }
    ensures within { result ≤ length buf.old }
{
    let start = bytes.len().min(at as usize);
    let count = buf.len().min(bytes.len() - start);
    buf[..count].copy_from_slice(&bytes[start..start + count]);
    count
}

// Leaves in a range what a crash leaves there of a write that was not synced.
fn tear(
    alloc: Global,
    torn: &mut Vec<u8>,
    at: usize,
    bytes: &[u8],
    pending: Pending,
) -> Result<(), AllocError>
    ensures { OnOk result (torn.new.items ≡ torn_by pending at bytes.now torn.old.items) }
{
    if at > torn.len() {
        return Ok(());
    }
    match pending {
        Pending::All => overwrite(torn, at, bytes),
        Pending::Nothing => Ok(()),
        Pending::FirstHalf => overwrite(torn, at, &bytes[..bytes.len() / 2]),
        Pending::Ones => overwrite(torn, at, &vec![in alloc; 1; bytes.len()]?),
    }
}

// Does one call more, whose bytes stand at the front of the log: on what is read, and on what a
// crash leaves.
fn redo(
    alloc: Global,
    kept: &mut Vec<u8>,
    torn: &mut Vec<u8>,
    call: Call,
    log: &[u8],
    pending: Pending,
) -> Result<(), AllocError>
    requires { logged call ≤ length log.now }
    ensures kept { OnOk result
        (kept.new.items ≡ after_event (event_of call log.now) kept.old.items) }
    ensures torn { OnOk result
        ((first : List ℕ) (older : List Event) → kept.old.items ≡ content first older
        → torn.old.items ≡ left_by pending first older
        → torn.new.items ≡ left_by pending first (event_of call log.now ∷ older)) }
{
    match call {
        Call::Wrote { at, count, done } => {
            tear(alloc, torn, at as usize, &log[..count], pending)?;
            apply(kept, at as usize, &log[..count], done)
        }
        Call::Synced => {
            torn.clear();
            torn.extend_from_slice(kept)
        }
        Call::Read { .. } | Call::Other => Ok(()),
    }
}

// How many bytes of the log a call has.
fn logged(call: Call) -> usize
    ensures { result ≡ logged call }
{
    match call {
        Call::Wrote { count, .. } => count,
        Call::Read { .. } | Call::Synced | Call::Other => 0,
    }
}

// What a crash after the calls leaves.
fn left_by(
    alloc: Global,
    first: &[u8],
    calls: &[Call],
    log: &[u8],
    pending: Pending,
) -> Result<Vec<u8>, AllocError>
    requires { total calls.now ≤ length log.now }
    ensures { IfOk result
        (λ torn. torn.items ≡ left_by pending first.now (events calls.now log.now)) }
{
    let mut kept = first.to_vec(alloc)?;
    let mut torn = first.to_vec(alloc)?;
    let mut from = 0;
    for call in calls {
        redo(alloc, &mut kept, &mut torn, *call, &log[from..], pending)?;
        from += logged(*call);
    }
    Ok(torn)
}

impl MemDisk {
    ghost use Rattle.std.specs.Prelude.{[], ◌∷◌, false, min, ◌-◌};
    ghost use Rattle.log_seams.specs.StepsReplay.{IsQuiet};
    ghost use Rattle.log_seams.specs.Disk.{Rests};
    ghost use Rattle.log_seams.specs.MemDisk.{first_of, bytes_of, calls_of, events_of, events_until, ranges_of, disk_state, fails_next, lacks_room, Recorded, IsNewDisk};

    /// A disk that begins with these bytes, which may be more than `room`. It fails at each write that
    /// would begin behind its end, would end past `room`, or would take the sum of the bytes that it
    /// records past it; at the calls whose numbers, from 0, stand in `fails`; and at each call from the
    /// number `call_limit` on, which it does not record. All its room is taken here.
    pub fn new(
        alloc: Global,
        bytes: Text,
        room: usize,
        call_limit: usize,
        fails: Vec<u64>,
    ) -> Result<MemDisk, AllocError>
        ensures { IfOk result (IsNewDisk bytes room call_limit fails.items) }
    {
        let mut content = Vec::with_capacity(alloc, room.max(bytes.as_slice().len()))?;
        content.extend_from_slice(bytes.as_slice())?;
        let recorded = Vec::with_capacity(alloc, call_limit)?;
        let log = Vec::with_capacity(alloc, room)?;
        Ok(MemDisk {
            alloc,
            first: bytes,
            bytes: content,
            calls: recorded,
            log,
            fails,
            room,
            call_limit,
            faults: 0,
            part_fails: Vec::new(alloc),
            returned: Returned::Nothing,
        })
    }

    /// The bytes that a read gives.
    pub fn bytes(&self) -> &[u8]
        ensures { result.now ≡ bytes_of self.now }
    {
        &self.bytes
    }

    /// How many calls were recorded.
    pub fn calls(&self) -> usize
        ensures { result ≡ calls_of self.now }
    {
        self.calls.len()
    }

    /// The disk as a crash after the first `after` of its recorded calls may leave it: what was written
    /// up to the last of their syncs that succeeded stands, and each range written since then, also by
    /// a write that failed, holds what `pending` says, in the order of the writes. A write that begins
    /// past the end that the crash left is lost. The new disk has the same room and limit of calls,
    /// and no call of it fails by a list.
    pub fn stopped(&self, after: usize, pending: Pending) -> Result<MemDisk, AllocError>
        requires { after ≤ calls_of self.now }
        ensures left { IfOk result
            (IsNewDisk (left_by pending (first_of self.now) (events_until after self.now))
            self.now.room self.now.call_limit []) }
        ensures image { IfOk result
            (λ m. IsImage (first_of self.now) (events_until after self.now) (bytes_of m)) }
    {
        let left = left_by(
            self.alloc,
            self.first.as_slice(),
            &self.calls[..after],
            &self.log,
            pending,
        )?;
        MemDisk::new(
            self.alloc,
            Text::new(left),
            self.room,
            self.call_limit,
            Vec::new(self.alloc),
        )
    }

    /// The parts that the disk lends from now on fail at their calls whose numbers, from 0, stand in
    /// the list. Those of a new disk fail at none.
    pub fn fail_parts(&mut self, fails: Vec<u64>)
        ensures listed { self.new.part_fails.items ≡ fails.items }
        ensures events { events_of self.new ≡ events_of self.old }
        ensures bytes { bytes_of self.new ≡ bytes_of self.old }
        ensures ranges { ranges_of self.new ≡ ranges_of self.old }
        ensures faults { self.new.faults ≡ self.old.faults }
    {
        self.part_fails = fails;
    }

    // Whether the next call fails by its number.
    fn fails_next(&self) -> bool
        ensures { result ≡ fails_next self.now }
    {
        self.calls.len() >= self.call_limit || self.fails.contains(&(self.calls.len() as u64))
    }

    // Whether a write there would begin behind the end, or go past the room.
    fn lacks_room(&self, at: u64, count: usize) -> bool
        requires { at + count < 2 ^ 63 }
        ensures { result ≡ lacks_room self.now at count }
    {
        at as usize > self.bytes.len()
            || at as usize + count > self.room
            || count > self.room
            || self.log.len() > self.room - count
    }

    // Records a call that changed no byte.
    fn note(&mut self, call: Call)
        requires quiet { IsQuiet call }
        requires room { calls_of self.old < self.old.call_limit }
        ensures events { events_of self.new ≡ event_of call [] ∷ events_of self.old }
        ensures ranges { ranges_of self.new ≡ with_read (event_of call []) (ranges_of self.old) }
        ensures bytes { bytes_of self.new ≡ bytes_of self.old }
        ensures recorded { Recorded self.old self.new }
        ensures faults { self.new.faults ≡ self.old.faults }
    {
        self.calls.push_reserved(call);
    }

    // Records a write, which is done or has failed.
    fn put(&mut self, at: u64, bytes: &[u8], done: bool)
        requires within { lacks_room self.old at (length bytes.now) ≡ false }
        requires room { calls_of self.old < self.old.call_limit }
        ensures events { events_of self.new ≡ wrote done at bytes.now ∷ events_of self.old }
        ensures ranges { ranges_of self.new ≡ ranges_of self.old }
        ensures bytes { bytes_of self.new ≡ after_event (wrote done at bytes.now)
            (bytes_of self.old) }
        ensures recorded { Recorded self.old self.new }
        ensures faults { self.new.faults ≡ self.old.faults }
    {
        let count = bytes.len();
        apply(&mut self.bytes, at as usize, bytes, done).unwrap();
        self.log.extend_from_slice(bytes).unwrap();
        self.calls.push_reserved(Call::Wrote { at, count, done });
    }

    // Counts a fault, and records the call where it is not past the last.
    fn fail(&mut self) -> Failed
        ensures rests { Rests (disk_state self.old) (disk_state self.new) }
        ensures ranges { (disk_state self.new).ranges ≡ (disk_state self.old).ranges }
        ensures recorded { Recorded self.old self.new }
        ensures faults { self.new.faults ≡ min (self.old.faults + 1) (2 ^ 64 - 1) }
        ensures rose { (self.old.faults ≤ self.new.faults) × Rose self.old.faults self.new.faults }
    {
        self.faults = self.faults.saturating_add(1);
        if self.calls.len() < self.call_limit {
            self.note(Call::Other);
            return Failed;
        }
        Failed
    }
}

impl Disk for MemDisk {
    ghost use Rattle.std.specs.Prelude.{not, ◌||◌, is_ok, OnErr};
    ghost use Rattle.log_seams.specs.Disk.{HasLength, HasRead, HasWritten, HasSynced};
    ghost use Rattle.log_seams.specs.MemDisk.{disk_state, bytes_of, events_of, Recorded, fails_next, lacks_room};

    ghost state = { disk_state };

    fn len(&mut self) -> Result<u64, Failed>
        ensures call { HasLength result (disk_state self.old) (disk_state self.new) }
        ensures succeeds { is_ok result ≡ not (fails_next self.old) }
        ensures recorded { Recorded self.old self.new }
    {
        if self.fails_next() {
            return Err(self.fail());
        }
        self.note(Call::Other);
        Ok(self.bytes.len() as u64)
    }

    fn read(&mut self, at: u64, buf: &mut [u8]) -> Result<usize, Failed>
        ensures call { HasRead at buf.old buf.new result (disk_state self.old)
            (disk_state self.new) }
        ensures succeeds { is_ok result ≡ not (fails_next self.old) }
        ensures recorded { Recorded self.old self.new }
    {
        if self.fails_next() {
            return Err(self.fail());
        }
        let count = copy_from(&self.bytes, at, buf);
        self.note(Call::Read { at, count });
        Ok(count)
    }

    fn write(&mut self, at: u64, bytes: &[u8]) -> Result<(), Failed>
        requires end { at + length bytes.now ≤ 2 ^ 62 }
        ensures call { HasWritten at bytes.now result (disk_state self.old) (disk_state self.new) }
        ensures kept { OnErr result (bytes_of self.new ≡ bytes_of self.old) }
        ensures succeeds { is_ok result
            ≡ not (lacks_room self.old at (length bytes.now) || fails_next self.old) }
        ensures recorded { Recorded self.old self.new }
    {
        if self.lacks_room(at, bytes.len()) || self.calls.len() >= self.call_limit {
            return Err(self.fail());
        }
        if self.fails_next() {
            self.put(at, bytes, false);
            self.faults = self.faults.saturating_add(1);
            return Err(Failed);
        }
        self.put(at, bytes, true);
        Ok(())
    }

    fn sync(&mut self) -> Result<(), Failed>
        ensures call { HasSynced result (disk_state self.old) (disk_state self.new) }
        ensures succeeds { is_ok result ≡ not (fails_next self.old) }
        ensures recorded { Recorded self.old self.new }
    {
        if self.fails_next() {
            return Err(self.fail());
        }
        self.note(Call::Synced);
        Ok(())
    }

    fn faults(&self) -> u64 {
        self.faults
    }

    ghost lawful = { λ m. record {
      reads_as = reads_now m.first (events_of m) (bytes_of m) m.same;
      counts_now = λ t c le now. counts_now m.first (events_of m) t c now;
      only_now = λ c left. only_now m.first (events_of m) c left;
      wider = λ s t c le left. wider m.first (events_of m) s t c le left;
    } };
}
