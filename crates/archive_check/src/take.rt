//! A record as an entry, which a judge admits.
ghost use Rattle.std.specs.Prelude.{◌≡◌, ◌↔◌, IsErrOf, IsTrue, OnOk};
ghost use Rattle.archive_core.specs.declared.refusal.JudgeRefusal.TheVariants.{Illegal};
ghost use Rattle.archive_check.specs.Taken.{Takes, TakesNone};

use crate::segment::read_segment;
use archive_core::{Judge, JudgeRefusal, Part};
use record_format::{FILES_KIND, SEGMENT_KIND, TYPES_KIND, WORDS_KIND, read_files, read_texts};
use segment_format::{FormatRefusal, write_segment};
use std::alloc::Global;
use std::sync::ledger::Ledger;
use step_count::Steps;

// A record that no entry has is not legal.
fn refused(refusal: FormatRefusal) -> JudgeRefusal
    ensures { result ≡ Illegal → refusal ≡ FormatRefusal.Malformed }
{
    match refusal {
        FormatRefusal::Malformed => JudgeRefusal::Illegal,
        FormatRefusal::OutOfMemory => JudgeRefusal::OutOfMemory,
    }
}

fn take_names(judge: &mut Judge, alloc: Global, payload: &[u8]) -> Result<(), JudgeRefusal>
    ensures taken { OnOk result (Takes judge.old 1 payload.now judge.new) }
    ensures illegal { IsErrOf result Illegal → TakesNone judge.old 1 payload.now }
{
    match read_files(alloc, payload) {
        Ok(names) => judge.admit_names(&names),
        Err(refusal) => Err(refused(refusal)),
    }
}

fn take_types(judge: &mut Judge, alloc: Global, payload: &[u8]) -> Result<(), JudgeRefusal>
    ensures taken { OnOk result (Takes judge.old 2 payload.now judge.new) }
    ensures illegal { IsErrOf result Illegal → TakesNone judge.old 2 payload.now }
{
    match read_texts(alloc, payload) {
        Ok(read) => judge.admit_types(read.first, &read.texts),
        Err(refusal) => Err(refused(refusal)),
    }
}

fn take_words(judge: &mut Judge, alloc: Global, payload: &[u8]) -> Result<(), JudgeRefusal>
    ensures taken { OnOk result (Takes judge.old 3 payload.now judge.new) }
    ensures illegal { IsErrOf result Illegal → TakesNone judge.old 3 payload.now }
{
    match read_texts(alloc, payload) {
        Ok(read) => judge.admit_words(read.first, &read.texts),
        Err(refusal) => Err(refused(refusal)),
    }
}

fn are_same(one: &[u8], other: &[u8]) -> bool
    ensures { IsTrue result ↔ (one.now ≡ other.now) }
{
    one == other
}

// The rows are read, and written again with the numbers of words that they have: a payload that is not
// what is written has a head that is not that of its rows.
fn take_segment<L: Ledger>(
    judge: &mut Judge,
    alloc: Global,
    payload: &[u8],
    steps: &mut Steps<L>,
) -> Result<(), JudgeRefusal>
    ensures taken { OnOk result (Takes judge.old 4 payload.now judge.new) }
    ensures illegal { IsErrOf result Illegal → TakesNone judge.old 4 payload.now }
{
    let (head, columns) = match read_segment(alloc, payload, steps) {
        Ok(found) => found,
        Err(refusal) => return Err(refused(refusal)),
    };
    let _variables = columns.variables();
    let Some(words) = judge.words_of(alloc, &columns)? else {
        return Err(JudgeRefusal::Illegal);
    };
    let part = Part {
        file: head.file,
        first: head.first,
        last: head.last,
        ended: head.ended,
    };
    let written = write_segment(
        alloc, part.file, part.first, part.last, part.ended, &columns, &words,
    )?;
    if !are_same(written.as_slice(), payload) {
        return Err(JudgeRefusal::Illegal);
    }
    judge.admit_segment(alloc, part, &columns, payload.len())
}

/// Takes the record of this kind with this payload as the next entry.
///
/// # Errors
///
/// [`JudgeRefusal::Illegal`] exactly where the record is of no entry that may follow, or
/// [`JudgeRefusal::OutOfMemory`].
pub(crate) fn take<L: Ledger>(
    judge: &mut Judge,
    alloc: Global,
    kind: u8,
    payload: &[u8],
    steps: &mut Steps<L>,
) -> Result<(), JudgeRefusal>
    ensures taken { OnOk result (Takes judge.old kind payload.now judge.new) }
    ensures illegal { IsErrOf result Illegal → TakesNone judge.old kind payload.now }
{
    match kind {
        FILES_KIND => take_names(judge, alloc, payload),
        TYPES_KIND => take_types(judge, alloc, payload),
        WORDS_KIND => take_words(judge, alloc, payload),
        SEGMENT_KIND => take_segment(judge, alloc, payload, steps),
        _ => Err(JudgeRefusal::Illegal),
    }
}
