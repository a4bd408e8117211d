//! The texts and the files of an archive, and how they go on with a record.
ghost use Rattle.std.specs.Prelude.{◌≡◌, ◌≢◌, ◌<◌, ◌≤◌, ◌+◌, ◌++◌, ◌^◌, ℕ, List, length, map, IfOk, IsTrue, IsFalse};
ghost use Rattle.record_format.specs.Lists.{AreTexts, files_payload, four_bytes, list_bytes, texts_payload};
ghost use Rattle.archive_meaning.specs.declared.TheConstants.{MAX_MESSAGES};
ghost use Rattle.archive_open.specs.Kept.{MayHold, limit_of, texts_of, with_texts};
ghost use Rattle.archive_open.specs.Grown.{GrowsNext, NoneGrows, grown_of};
ghost use Rattle.archive_open.specs.StepsNext.{HasHead, new_file};

use crate::files::{FileEntry, add_files};
use crate::keeps::KeepsTexts;
use crate::segments::go_on;
use record_format::{
    FILES_KIND, FormatRefusal, SEGMENT_KIND, TYPES_KIND, WORDS_KIND, next_text, read_files,
    texts_front,
};
use row_codec::Which;
use segment_format::Head;
use std::alloc::{AllocError, Global};

/// What is kept of the entries of a journal but the places of segments: an opened archive that goes on
/// with each further record.
#[derive(Drop)]
pub struct Grown<K: KeepsTexts> {
    /// The texts of both dictionaries.
    pub names: K,
    /// The files, each at its number.
    pub files: Vec<FileEntry>,
}

/// Adds files of these names without messages, and tells whether the payload has names of files.
pub fn add_names(
    alloc: Global,
    files: &mut Vec<FileEntry>,
    payload: &[u8],
) -> Result<bool, AllocError>
    ensures added { IfOk result (λ yes. IsTrue yes → (names : List (List ℕ)) × AreTexts names
        × (payload.now ≡ files_payload names)
        × (files.new.items ≡ files.old.items ++ map new_file names)) }
    ensures refused { IfOk result (λ yes. IsFalse yes
        → (names : List (List ℕ)) → AreTexts names → payload.now ≢ files_payload names) }
{
    match read_files(alloc, payload) {
        Ok(names) => {
            add_files(files, names)?;
            Ok(true)
        }
        Err(FormatRefusal::Malformed) => Ok(false),
        Err(FormatRefusal::OutOfMemory) => Err(AllocError),
    }
}

// Adds texts behind those of a dictionary, each straight from the bytes. Tells whether these are so
// many texts and no more, and it may have them. Where not, some may have been added.
fn add_texts<K: KeepsTexts + Drop>(
    names: &mut K,
    kind: Which,
    count: u32,
    bytes: &[u8],
) -> Result<bool, AllocError>
    ensures added { IfOk result (λ yes. IsTrue yes
        → (texts : List (List ℕ)) × AreTexts texts
        × (four_bytes count ++ bytes.now ≡ list_bytes texts)
        × (K.kept names.new ≡ with_texts kind texts (K.kept names.old))) }
    ensures refused { IfOk result (λ yes. IsFalse yes
        → (texts : List (List ℕ)) → AreTexts texts
        → four_bytes count ++ bytes.now ≡ list_bytes texts
        → ¬ MayHold (limit_of kind (K.kept names.old))
        (texts_of kind (K.kept names.old) ++ texts)) }
{
    let mut rest = bytes;
    for _ in 0..count {
        let Some((text, after)) = next_text(rest) else {
            return Ok(false);
        };
        if !names.add(kind, text)? {
            return Ok(false);
        }
        rest = after;
    }
    Ok(rest.is_empty())
}

// Keeps texts of a dictionary, and tells whether the payload has such, and the dictionary may have
// them.
fn keep_texts<K: KeepsTexts + Drop>(
    names: &mut K,
    kind: Which,
    payload: &[u8],
) -> Result<bool, AllocError>
    ensures kept { IfOk result (λ yes. IsTrue yes
        → (first : ℕ) × ((texts : List (List ℕ)) × (first < 2 ^ 32) × AreTexts texts
        × (payload.now ≡ texts_payload first texts)
        × (K.kept names.new ≡ with_texts kind texts (K.kept names.old)))) }
    ensures refused { IfOk result (λ yes. IsFalse yes
        → (first : ℕ) (texts : List (List ℕ)) → first < 2 ^ 32 → AreTexts texts
        → payload.now ≡ texts_payload first texts
        → first ≡ length (texts_of kind (K.kept names.old))
        → ¬ MayHold (limit_of kind (K.kept names.old))
        (texts_of kind (K.kept names.old) ++ texts)) }
{
    let Some(front) = texts_front(payload) else {
        return Ok(false);
    };
    if front.first != names.count(kind) {
        return Ok(false);
    }
    add_texts(names, kind, front.count, front.rest)
}

/// Adds what a record that is no segment has, and tells whether it may follow. Where it may not, and
/// without memory, some of it may have been added.
pub fn add_listed<K: KeepsTexts + Drop>(
    alloc: Global,
    grown: &mut Grown<K>,
    kind: u8,
    payload: &[u8],
) -> Result<bool, AllocError>
    requires { kind ≢ SEGMENT_KIND }
    ensures added { IfOk result (λ yes. IsTrue yes → GrowsNext kind payload.now
        (grown_of K.kept grown.old) (grown_of K.kept grown.new)) }
    ensures refused { IfOk result (λ yes. IsFalse yes
        → NoneGrows kind payload.now (grown_of K.kept grown.old)) }
{
    match kind {
        FILES_KIND => add_names(alloc, &mut grown.files, payload),
        TYPES_KIND => keep_texts(&mut grown.names, Which::Types, payload),
        WORDS_KIND => keep_texts(&mut grown.names, Which::Words, payload),
        _ => Ok(false),
    }
}

/// Adds the messages of a segment, whose payload begins with this head, to those of its file, and tells
/// whether it may follow. Where it may not, nothing changes. Takes no memory.
pub fn add_head<K: KeepsTexts + Drop>(grown: &mut Grown<K>, head: &Head) -> bool
    // what stays
    ensures names { K.kept grown.new.names ≡ K.kept grown.old.names }

    // by the answer
    ensures there { IsTrue result → head.now.file < length grown.new.files.items }
    ensures most { IsTrue result → head.now.first + head.now.rows ≤ MAX_MESSAGES }
    ensures added { IsTrue result → (payload : List ℕ) → HasHead head.now payload
        → GrowsNext SEGMENT_KIND payload (grown_of K.kept grown.old) (grown_of K.kept grown.new) }
    ensures refused { IsFalse result → (payload : List ℕ) → HasHead head.now payload
        → NoneGrows SEGMENT_KIND payload (grown_of K.kept grown.old) }
{
    go_on(&mut grown.files, head)
}
