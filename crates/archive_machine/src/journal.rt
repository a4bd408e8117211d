//! What a journal says of a file.
ghost use Rattle.std.specs.Prelude.{◌≡◌, ◌<◌, ◌^◌, [], ◌∷◌};
ghost use Rattle.archive_machine.specs.Machine.{count_of, is_closed};

use archive_meaning::JournalEntry;

// How many messages of the file the entry has.
fn rows_in(entry: &JournalEntry, file: u32) -> usize
    ensures { result ≡ count_of file (entry.now ∷ []) }
{
    match entry {
        JournalEntry::Segment(segment) if segment.file == file => segment.rows.len(),
        _ => 0,
    }
}

/// How many messages of the file are in the journal.
pub(crate) fn messages_in(journal: &[JournalEntry], file: u32) -> u64
    requires { count_of file journal.now < 2 ^ 64 }
    ensures { result ≡ count_of file journal.now }
{
    let mut count = 0;
    for entry in journal {
        count += rows_in(entry, file) as u64;
    }
    count
}

// Whether the entry is the last segment of the file.
fn ends(entry: &JournalEntry, file: u32) -> bool
    ensures { result ≡ is_closed file (entry.now ∷ []) }
{
    match entry {
        JournalEntry::Segment(segment) => segment.file == file && segment.last,
        _ => false,
    }
}

/// Whether the last segment of the file is in the journal.
pub(crate) fn is_ended(journal: &[JournalEntry], file: u32) -> bool
    ensures { result ≡ is_closed file journal.now }
{
    for entry in journal {
        if ends(entry, file) {
            return true;
        }
    }
    false
}
