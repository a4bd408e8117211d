//! Which records a turn is to append.
ghost use Rattle.std.specs.Prelude.{◌≡◌, ◌+◌, ℕ, None, drop, IfOk, IsErrOf, min};
ghost use Rattle.turn_lock.specs.Words.{seen, lock_of, lock_noted, noted, StaysAs};
ghost use Rattle.dict_lock.specs.Shared.{HasSeenBook};
ghost use Rattle.disk_seal.specs.View.{state_by};
ghost use Rattle.disk_seal.specs.Pieces.{size_of};
ghost use Rattle.disk_seal.specs.Collected.{IsSameButBooks, HasSeenMore};
ghost use Rattle.disk_seal.specs.Planned.{HasNumbers, IsNextOf, ArePlanned, HasRoom, needed};
ghost use Rattle.disk_seal.specs.Prepare.{BookNote, MayFollowNow, IsPlanned, IsTooLong};
ghost use Rattle.disk_seal.specs.declared.plan.PrepareRefusal.TheVariants.{OutOfMemory, ArchiveFull};

use crate::collect::Unsaved;
use crate::draft::Draft;
use crate::framing::{gathered, segment_piece, types_piece, words_piece};
use crate::pieces::Piece;
use crate::store::Store;
use crate::turns::Turns;
use dict_core::Book;
use log_seams::Disk;
use std::alloc::{AllocError, Global};
use std::sync::Wait;
use std::sync::ledger::Ledger;
use turn_lock::Note;

/// Why a segment was not prepared. Nothing was appended.
#[derive(Drop)]
pub enum PrepareRefusal<'b> {
    /// There was no memory.
    OutOfMemory,
    /// The records do not fit the archive's limit of length: its end is `end`, and they need `need` bytes.
    ArchiveFull {
        end: u64,
        need: u64,
        /// What was seen of the log types, with all texts that `need` counts.
        types: Note<'b, Book>,
        /// What was seen of the words.
        words: Note<'b, Book>,
    },
}

impl<'b> From<AllocError> for PrepareRefusal<'b> {
    ghost from_gives = { λ _ e. e ≡ OutOfMemory };

    fn from(_: AllocError) -> Self {
        PrepareRefusal::OutOfMemory
    }
}

// How many bytes the records need, or the greatest number where they are more.
fn need_of(pieces: &[Piece]) -> u64
    ensures { result ≡ min (size_of pieces.now) u64.MAX }
{
    let mut need: u64 = 0;
    for piece in pieces {
        need = need.saturating_add(piece.text.as_slice().len() as u64);
    }
    need
}

impl<'d, 'b, D: Disk> Store<'d, 'b, D> {
    /// The records of a segment and of the texts that are not saved, framed, in the order in which they are
    /// to be appended.
    pub(crate) fn frame_all(
        &self,
        alloc: Global,
        unsaved: &Unsaved,
        draft: &Draft,
    ) -> Result<Vec<Piece>, AllocError>
        requires runs { self.now.stopped ≡ None }
        requires books { HasSeenBook self.now.types × HasSeenBook self.now.words }
        requires types { unsaved.now.types ≡ drop self.now.types_saved (seen self.now.types) }
        requires words { unsaved.now.words ≡ drop self.now.words_saved (seen self.now.words) }
        requires numbers { HasNumbers draft.now }
        requires next { IsNextOf draft.now (state_by D.state self.now) }
        ensures planned { IfOk result (λ pieces. HasRoom pieces.items (state_by D.state self.now)
            → ArePlanned draft.now pieces.items (state_by D.state self.now)) }
        ensures size { IfOk result (λ pieces.
            size_of pieces.items ≡ needed draft.now (state_by D.state self.now)) }
    {
        self.facts();
        let types = types_piece(alloc, self.types_saved, &unsaved.types)?;
        let words = words_piece(alloc, self.words_saved, &unsaved.words)?;
        let segment = segment_piece(alloc, draft)?;
        gathered(alloc, types, words, segment)
    }
}

impl<'d, 'b, D: Disk> Store<'d, 'b, D> {
    // The records, where they fit the limit of length.
    fn fit(&mut self, pieces: Vec<Piece>, _draft: &Draft) -> Result<Vec<Piece>, PrepareRefusal<'b>>
        requires runs { self.old.stopped ≡ None }
        requires size { size_of pieces.items ≡ needed _draft.now (state_by D.state self.old) }
        ensures same { IsSameButBooks self.old self.new }
        ensures types { StaysAs self.old.types self.new.types }
        ensures words { StaysAs self.old.words self.new.words }
        ensures fits { IfOk result (λ ps. (ps.items ≡ pieces.items)
            × HasRoom ps.items (state_by D.state self.new)) }
        ensures full { (end need : ℕ) (types words : BookNote)
            → IsErrOf result (ArchiveFull end need types words)
            → IsTooLong _draft.now end need types words (state_by D.state self.new) }
    {
        let limit = self.journal.header.length_limit;
        let end = self.journal.end();
        let need = need_of(pieces.as_slice());
        if need > limit || end > limit - need {
            let types = self.types.note();
            let words = self.words.note();
            return Err(PrepareRefusal::ArchiveFull {
                end,
                need,
                types,
                words,
            });
        }
        Ok(pieces)
    }

    /// The records of a segment and of all texts that are not saved, also those that other threads named,
    /// where they fit. None for a store that is stopped.
    pub(crate) fn plan<R: Wait, A: Ledger, B: Ledger, C: Ledger>(
        &mut self,
        rt: &R,
        alloc: Global,
        draft: &Draft,
        types: Note<'_, Book>,
        words: Note<'_, Book>,
        turns: &mut Turns<A, B, C>,
    ) -> Result<Vec<Piece>, PrepareRefusal<'b>>
        requires types { lock_noted types ≡ lock_of self.old.types }
        requires words { lock_noted words ≡ lock_of self.old.words }
        requires numbers { HasNumbers draft.now }
        requires next { MayFollowNow draft.now (noted types) (noted words)
            (state_by D.state self.old) }

        // what stays, and what is seen
        ensures same { IsSameButBooks self.old self.new }
        ensures types { HasSeenMore self.old.types self.new.types (noted types.entry) }
        ensures words { HasSeenMore self.old.words self.new.words (noted words.entry) }

        // by the answer
        ensures planned { IfOk result (λ pieces.
            IsPlanned draft.now pieces.items (state_by D.state self.new)) }
        ensures full { (end need : ℕ) (types words : BookNote)
            → IsErrOf result (ArchiveFull end need types words)
            → IsTooLong draft.now end need types words (state_by D.state self.new) }

        // turns
        ensures turns { (turns.new.types ≡ turns.old.types + 1)
            × (turns.new.words ≡ turns.old.words + 1) × (turns.new.store ≡ turns.old.store) }
    {
        let unsaved = self.collect(rt, types, words, &mut turns.types, &mut turns.words)?;
        if self.stopped.is_some() {
            return Ok(Vec::new(alloc));
        }
        let pieces = self.frame_all(alloc, &unsaved, draft)?;
        self.fit(pieces, draft)
    }
}
