//! Preparing a segment in a turn, and committing it.
ghost use Rattle.std.specs.Prelude.{◌≡◌, ◌+◌, ℕ, length, IfOk, IfErr, None, OnErr, OnOk, IsErrOf};
ghost use mathlib.Core.List.{IsPrefix};
ghost use Rattle.turn_lock.specs.Words.{number_of, noted, seen, IsReady};
ghost use Rattle.disk_seal.specs.View.{state_by, Kept};
ghost use Rattle.disk_seal.specs.Pieces.{added_by, size_of};
ghost use Rattle.disk_seal.specs.Planned.{HasNumbers};
ghost use Rattle.disk_seal.specs.declared.plan.PrepareRefusal.TheVariants.{ArchiveFull};
ghost use Rattle.disk_seal.specs.Sealing.{told_as, HasGrown, HasGrownSome};
ghost use Rattle.disk_seal.specs.Sealing.{MayPut, HasPutBack, IsDurable, IsFaultIn};
ghost use Rattle.disk_seal.specs.Prepare.{AreNotesOf, BookNote, HasSeenOpening, MayBeNext};
ghost use Rattle.disk_seal.specs.Prepare.{HasGivenBack, IsFaultOf, IsFullAt, IsPrepared, SavesAll};

use crate::draft::Draft;
use crate::faults::DiskFault;
use crate::pieces::{Piece, put_pieces};
use crate::plan::PrepareRefusal;
use crate::store::Store;
use crate::turns::Turns;
use dict_core::Book;
use log_seams::Disk;
use std::alloc::Global;
use std::sync::Wait;
use std::sync::ledger::Ledger;
use turn_lock::{Note, Pass, Turn};

/// A segment that the disk has, durably.
#[derive(Clone, Copy, Debug, PartialEq, Eq)]
pub struct Receipt {
    /// The number of its file.
    pub file: u32,
    /// How many messages of the file stand before it.
    pub first: u64,
    /// How many rows it has.
    pub rows: u32,
    /// The archive's end behind it.
    pub end: u64,
}

/// The records of a segment and of the texts before it, in the turn of the pass that prepared them.
/// [`Prepared::commit`] ends the turn; it is not dropped silently.
pub struct Prepared<'d, 'b, D: Disk> {
    pub(crate) turn: Turn<Store<'d, 'b, D>>,
    pub(crate) pieces: Vec<Piece>,
    pub(crate) file: u32,
    pub(crate) first: u64,
    pub(crate) rows: u32,
}

impl<'d, 'b, D: Disk> Prepared<'d, 'b, D> {
    /// Appends the records, and ends the turn of the pass that prepared them. At any moment a crash leaves
    /// the journal of before with none, the first, .. or all of them, and after a receipt with all. After a
    /// fault the store is stopped: each later commit answers the same and makes no call. Takes no memory.
    pub fn commit(self, pass: &mut Pass<'_, Store<'d, 'b, D>>) -> Result<Receipt, DiskFault>
        requires { MayPut D.state self.turn.value self.pieces.items pass.old }

        // by the answer
        ensures receipt { IfOk result (λ r. r ≡ record {
          file = self.entry.file;
          first = self.entry.first;
          rows = self.entry.rows;
          end = self.entry.turn.value.place + size_of self.entry.pieces.items + 1;
        }) }
        ensures added { OnOk result (HasGrown (told_as (state_by D.state self.entry.turn.value)
            (added_by self.entry.pieces.items)) pass.old pass.new) }
        ensures runs { OnOk result (self.entry.turn.value.stopped ≡ None) }
        ensures halted { IfErr result (λ f. HasGrownSome f.now (added_by self.entry.pieces.items)
            (state_by D.state self.entry.turn.value) pass.old pass.new) }
        ensures fault { IfErr result (λ f. IsFaultOf D.state f pass.old) }

        // the store that was put back, and what may be in the lock then
        ensures moments { HasPutBack D.state self.entry.turn.value
            (added_by self.entry.pieces.items) pass.new }
        ensures durable { OnOk result (IsDurable D.state self.entry.turn.value
            (added_by self.entry.pieces.items) pass.new) }
        ensures counted { IfErr result (λ f. IsFaultIn D.state f pass.new) }
    {
        let Prepared {
            turn,
            pieces,
            file,
            first,
            rows,
        } = self;
        match put_pieces(turn, pass, pieces.as_slice()) {
            Ok(end) => Ok(Receipt {
                file,
                first,
                rows,
                end,
            }),
            Err(fault) => Err(fault),
        }
    }
}

/// Takes a turn with the store and prepares a draft: learns the notes, takes a turn with each book, and
/// frames the draft and all texts of both books that are not saved, also those that other threads named.
///
/// # Errors
///
/// [`PrepareRefusal::ArchiveFull`] where the records do not fit the limit of length, or
/// [`PrepareRefusal::OutOfMemory`]. The turn is then given back, and nothing was appended.
pub fn prepare<'d, 'b, D: Disk, R: Wait, A: Ledger, B: Ledger, C: Ledger>(
    pass: &mut Pass<'_, Store<'d, 'b, D>>,
    rt: &R,
    alloc: Global,
    draft: &Draft,
    types: Note<'_, Book>,
    words: Note<'_, Book>,
    turns: &mut Turns<A, B, C>,
) -> Result<Prepared<'d, 'b, D>, PrepareRefusal<'b>>
    // the pass and the notes
    requires pass { IsReady pass.old × HasSeenOpening pass.old }
    requires notes { AreNotesOf pass.old types words }

    // the draft
    requires draft { (draft.now.file ≡ number_of pass.old) × HasNumbers draft.now }
    requires next { MayBeNext D.state draft.now pass.old (noted types) (noted words) }

    // what is prepared
    ensures prepared { IfOk result (λ r. IsPrepared D.state draft.now pass.old pass.new
        r.turn.value r.pieces.items) }
    ensures saves { IfOk result (λ r. SavesAll draft.now r.pieces.items
        (state_by D.state r.turn.value)) }
    ensures receipt { IfOk result (λ r. (r.file ≡ draft.now.file) × (r.first ≡ draft.now.first)
        × (r.rows ≡ length draft.now.columns.rows)) }
    ensures kept { IfOk result (λ r. Kept (state_by D.state r.turn.value)) }
    ensures noted { IfOk result (λ r. IsPrefix (noted types.entry) (seen r.turn.value.types)
        × IsPrefix (noted words.entry) (seen r.turn.value.words)) }

    // refusals
    ensures refused { OnErr result (HasGivenBack pass.old pass.new) }
    ensures full { (end need : ℕ) (of_types of_words : BookNote)
        → IsErrOf result (ArchiveFull end need of_types of_words)
        → IsFullAt D.state draft.now end need of_types of_words
        (noted types.entry) (noted words.entry) pass.old pass.new }

    // turns
    ensures turns { (turns.new.types ≡ turns.old.types + 1)
        × (turns.new.words ≡ turns.old.words + 1) × (turns.new.store ≡ turns.old.store + 1) }
{
    let mut turn = pass.take(rt, &mut turns.store);
    turn.value.facts();
    match turn.value.plan(rt, alloc, draft, types, words, turns) {
        Ok(pieces) => {
            turn.value.facts();
            Ok(Prepared {
                turn,
                pieces,
                file: draft.file,
                first: draft.first,
                rows: draft.columns.rows(),
            })
        }
        Err(refusal) => {
            turn.put(pass);
            Err(refusal)
        }
    }
}
