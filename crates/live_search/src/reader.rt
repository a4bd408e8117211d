//! The reader.

use crate::fixed::LiveFixed;
use crate::looking::find_next;
use crate::progress::{Progress, handle};
use crate::refusal::LiveRefusal;
use archive_open::{Archive, KeepsTexts};
use disk_seal::{Beside, Found, Looks, Opened};
use log_seams::{Disk, Sink};
use pair_sieve::PairSieve;
use std::alloc::Global;
use std::marker::Model;
use std::sync::Wait;
use std::sync::atomic::{AtomicBool, AtomicU64, Ordering};
use std::time::Duration;
use wild_match::Pattern;

/// What follows a journal beside those that append to it, and prints the messages of each sealed
/// segment that a pattern matches, as lines of a search, in the order of the journal. It keeps the
/// texts and the files of an archive that it was opened as, and adds what each further record has.
#[derive(Drop)]
pub struct LiveReader<'o, B: KeepsTexts, K: Sink> {
    progress: Progress<B>,
    out: &'o mut K,
    // The output as it was, for contracts alone.
    begun: Opened<K>,
    refusal: Option<LiveRefusal>,
}

impl<'o, B: KeepsTexts, K: Sink> Model for LiveReader<'o, B, K> {
    ghost use Rattle.live_search.specs.Reader.{LiveView, KeepsCount};
    ghost use Rattle.live_search.specs.Handled.{reached_of};

    ghost Value = { LiveView K };

    ghost view = { λ r. record {
      reached = reached_of B.kept r.progress;
      out = r.out.now;
      name = r.out.ghost_name;
      begun = r.begun.value;
      refusal = r.refusal;
    } };

    ghost invariant = { λ r. KeepsCount K.faults r.begun.value r.out.now r.refusal };
}

impl<'o, B: KeepsTexts + Drop, K: Sink> LiveReader<'o, B, K> {
    ghost use Rattle.std.specs.Prelude.{◌≡◌, ◌≢◌, ◌<◌, ◌≤◌, ◌+◌, ◌^◌, ℕ, List, [], Some, None, IsTrue, IsFalse, IfOk, IfSome, IfNone, IsErrOf};
    ghost use Rattle.log_seams.specs.Outside.{Rose};
    ghost use Rattle.archive_meaning.specs.declared.entry.JournalEntry.{JournalEntry};
    ghost use Rattle.archive_meaning.specs.Stands.{StandsFor};
    ghost use Rattle.archive_open.specs.Archive.{shown};
    ghost use Rattle.archive_open.specs.Shown.{Opens};
    ghost use Rattle.record_format.specs.declared.header.Header.{Header};
    ghost use Rattle.turn_lock.specs.Words.{seen};
    ghost use Rattle.disk_seal.specs.Beside.{HasFollowed, IsThrough, MayFollowOn};
    ghost use Rattle.disk_seal.specs.Looked.{HasTurned, IsMarked, journal_length};
    ghost use Rattle.live_search.specs.Looking.{FindsMore, NothingTold};
    ghost use Rattle.live_search.specs.Reader.{LiveStands, live_follower};
    ghost use Rattle.live_search.specs.Taken.{Takes};

    /// A reader that goes on behind the entries of an opened archive, and prints into `out` what this
    /// pattern matches. Takes no memory.
    pub fn new(
        alloc: Global,
        archive: Archive<B>,
        pattern: Pattern,
        out: &'o mut K,
    ) -> LiveReader<'o, B, K>
        // its output
        ensures name { result.name ≡ out.entry.ghost_name }
        ensures out { result.out ≡ out.old }
        ensures begun { result.begun ≡ out.old }

        // where it begins
        ensures first { result.reached.first ≡ (shown B.kept archive).entries }
        ensures handled { result.reached.handled ≡ 0 }
        ensures pattern { result.reached.pattern ≡ pattern }
        ensures runs { result.refusal ≡ None }
        ensures stands { (bytes : List ℕ) → Opens (Some bytes) (shown B.kept archive)
            → (h : Header) (es : List JournalEntry) → StandsFor bytes h es
            → LiveStands K.written result h es [] }
    {
        let first = archive.entries();
        let at = archive.last_gate();
        let sieve = PairSieve::new(alloc, &pattern);
        LiveReader {
            progress: Progress {
                alloc,
                grown: archive.into_grown(),
                pattern,
                sieve,
                first,
                handled: 0,
                at,
            },
            begun: Opened::of(&*out),
            out,
            refusal: None,
        }
    }

    /// Why it reads no further; `None` where it does.
    pub fn refusal(&self) -> Option<LiveRefusal>
        ensures is { result ≡ self.now.refusal }

        // the count of faults of its output
        ensures later { K.faults self.now.begun ≤ K.faults self.now.out }
        ensures sink { result ≡ Some LiveRefusal.SinkFault
            → Rose (K.faults self.now.begun) (K.faults self.now.out) }
        ensures steady { result ≢ Some LiveRefusal.SinkFault
            → K.faults self.now.out ≡ K.faults self.now.begun }
    {
        self.refusal
    }

    /// The output that was lent.
    pub fn into_out(self) -> &'o mut K
        ensures name { result.ghost_name ≡ self.entry.name }
        ensures out { result.now ≡ self.entry.out }
    {
        self.out
    }

    // Whether it reads on.
    fn is_running(&self) -> bool
        ensures yes { IsTrue result → self.now.refusal ≡ None }
        ensures no { IsFalse result → self.now.refusal ≢ None }
    {
        self.refusal.is_none()
    }

    // Reads no further.
    fn stop(&mut self, refusal: LiveRefusal)
        requires sink { refusal ≢ LiveRefusal.SinkFault }
        requires runs { self.old.refusal ≡ None }
        ensures { self.new ≡ record self.old { refusal = Some refusal } }
    {
        self.refusal = Some(refusal);
    }

    // The record behind the gate at which it goes on.
    fn find<D: Disk, P: Looks<D>, R: Wait>(
        &self,
        pass: &mut P,
        rt: &R,
    ) -> Result<Option<Found>, LiveRefusal>
        requires may { MayFollowOn D.state (live_follower K.written self.now) (P.pass pass.old) }
        requires runs { self.now.refusal ≡ None }
        ensures turned { HasTurned (P.pass pass.old) (P.pass pass.new) }

        // by the answer
        ensures next { IfOk result (λ next. IfSome next (λ f.
            FindsMore D.state self.now.reached.at
            (self.now.reached.first + self.now.reached.handled) f (P.pass pass.new))) }
        ensures none { IfOk result (λ next. IfNone next
            (self.now.reached.first + self.now.reached.handled
            ≡ journal_length (seen (P.pass pass.new)))) }

        // causes
        ensures fault { IsErrOf result LiveRefusal.DiskFault → IsMarked (seen (P.pass pass.new)) }
        ensures damaged { (place : ℕ) → IsErrOf result (LiveRefusal.Damaged place)
            → NothingTold D.state (P.pass pass.new) }
        ensures sink { ¬ IsErrOf result LiveRefusal.SinkFault }
    {
        let progress = &self.progress;
        find_next(
            pass,
            rt,
            progress.alloc,
            progress.at,
            progress.first,
            progress.handled,
        )
    }

    // Handles a record, and tells whether it reads on.
    fn take(&mut self, found: &Found) -> bool
        requires runs { self.old.refusal ≡ None }
        requires small { self.old.reached.handled + 1 < 2 ^ 64 }
        requires fits { found.now.place.payload + found.now.place.length < 2 ^ 64 }
        ensures takes { Takes K.written found.now self.old self.new }
        ensures runs { IsTrue result → self.new.refusal ≡ None }
        ensures refuses { IsFalse result → self.new.refusal ≢ None }
    {
        match handle(&mut self.progress, self.out, found) {
            Ok(()) => true,
            Err(refusal) => {
                self.refusal = Some(refusal);
                false
            }
        }
    }

    // Handles the next record, where there is one, and tells whether it did and reads on.
    fn step<D: Disk, P: Looks<D>, R: Wait>(&mut self, pass: &mut P, rt: &R) -> bool
        requires may { MayFollowOn D.state (live_follower K.written self.old) (P.pass pass.old) }
        requires runs { self.old.refusal ≡ None }
        ensures followed { HasFollowed D.state
            (live_follower K.written self.old) (live_follower K.written self.new)
            (P.pass pass.old) (P.pass pass.new) }
        ensures through { IsFalse result
            → IsThrough (live_follower K.written self.new) (P.pass pass.new) }
    {
        match self.find(pass, rt) {
            Ok(Some(found)) => self.take(&found),
            Ok(None) => false,
            Err(refusal) => {
                self.stop(refusal);
                false
            }
        }
    }
}

impl<'o, D: Disk, B: KeepsTexts + Drop, K: Sink> Beside<D> for LiveReader<'o, B, K> {
    ghost use Rattle.live_search.specs.Reader.{live_follower};

    type Fixed = LiveFixed<K>;

    ghost known = { live_follower K.written };

    fn follow<P: Looks<D>, R: Wait>(&mut self, pass: &mut P, rt: &R, stop: &AtomicBool) {
        let bell = AtomicU64::new(0);
        let pause = Duration::from_millis(1);
        for _ in rt.forever() {
            if !self.is_running() || stop.load(Ordering::SeqCst) {
                return;
            }
            if !self.step(pass, rt) {
                bell.park_timeout(rt, 0, pause);
            }
        }
        unreachable!()
    }

    fn drain<P: Looks<D>, R: Wait>(&mut self, pass: &mut P, rt: &R) {
        // Each round handles one of the entries that are there, or is the last.
        for _ in rt.forever() {
            if !self.is_running() || !self.step(pass, rt) {
                return;
            }
        }
        unreachable!()
    }
}
