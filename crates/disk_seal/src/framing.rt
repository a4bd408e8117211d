//! The records of texts and of segments, framed.
ghost use Rattle.std.specs.Prelude.{◌≡◌, length, IfOk};
ghost use Rattle.record_format.specs.Lists.{AreTexts};
ghost use Rattle.archive_meaning.specs.declared.entry.JournalEntry.TheVariants.{Types, Words};
ghost use Rattle.disk_seal.specs.Framed.{IsFramedOrNone, in_order};
ghost use Rattle.disk_seal.specs.Planned.{HasNumbers, IsSealed};

use crate::draft::Draft;
use crate::pieces::Piece;
use disk_journal::frame;
use plain_list::TextList;
use record_format::{SEGMENT_KIND, TYPES_KIND, WORDS_KIND, write_texts};
use segment_format::write_segment;
use std::alloc::{AllocError, Global};

/// The record of log types with the numbers from `first` on; none where there are no texts.
pub(crate) fn types_piece(
    alloc: Global,
    first: u32,
    texts: &TextList,
) -> Result<Option<Piece>, AllocError>
    requires { AreTexts texts.now }
    ensures { IfOk result (λ piece.
        IsFramedOrNone (Types first texts.now) (length texts.now) (length texts.now) 0 piece) }
{
    if texts.as_slice().is_empty() {
        return Ok(None);
    }
    let payload = write_texts(alloc, first, texts)?;
    let text = frame(alloc, TYPES_KIND, payload.as_slice())?;
    Ok(Some(Piece {
        text,
        types: texts.len() as u32,
        words: 0,
    }))
}

/// The record of new words, and none where there is no new word.
pub(crate) fn words_piece(
    alloc: Global,
    first: u32,
    texts: &TextList,
) -> Result<Option<Piece>, AllocError>
    requires { AreTexts texts.now }
    ensures { IfOk result (λ piece.
        IsFramedOrNone (Words first texts.now) (length texts.now) 0 (length texts.now) piece) }
{
    if texts.as_slice().is_empty() {
        return Ok(None);
    }
    let payload = write_texts(alloc, first, texts)?;
    let text = frame(alloc, WORDS_KIND, payload.as_slice())?;
    Ok(Some(Piece {
        text,
        types: 0,
        words: texts.len() as u32,
    }))
}

/// The records that are there, in the order in which they are to be appended.
pub(crate) fn gathered(
    alloc: Global,
    types: Option<Piece>,
    words: Option<Piece>,
    segment: Piece,
) -> Result<Vec<Piece>, AllocError>
    ensures { IfOk result (λ pieces. pieces.items ≡ in_order types words segment) }
{
    let mut pieces = Vec::with_capacity(alloc, 3)?;
    if let Some(piece) = types {
        pieces.push_reserved(piece);
    }
    if let Some(piece) = words {
        pieces.push_reserved(piece);
    }
    pieces.push_reserved(segment);
    Ok(pieces)
}

/// The record of a segment.
pub(crate) fn segment_piece(alloc: Global, draft: &Draft) -> Result<Piece, AllocError>
    requires { HasNumbers draft.now }
    ensures { IfOk result (λ piece. IsSealed draft.now piece) }
{
    let payload = write_segment(
        alloc,
        draft.file,
        draft.first,
        draft.last,
        draft.ended,
        &draft.columns,
        &draft.words,
    )?;
    let text = frame(alloc, SEGMENT_KIND, payload.as_slice())?;
    Ok(Piece {
        text,
        types: 0,
        words: 0,
    })
}
