//! The logs of a list of names.
ghost use Rattle.std.specs.Prelude.{◌≡◌, ◌≤◌, ℕ, List, [], ◌∷◌, map, All, IfOk};
ghost use Rattle.std.specs.List.{AllZip};
ghost use Rattle.log_sources.specs.Sources.{CameOf, IsCounted, IsUnread, str_bytes};

use crate::source::LogSource;
use log_seams::Shelf;
use std::alloc::{AllocError, Global};

/// Opens the log of a name.
fn open_one<H: Shelf>(shelf: &mut H, name: &str) -> LogSource<H::Src>
    ensures content { (n : List ℕ) → H.content shelf.new n ≡ H.content shelf.old n }
    ensures unread { (n : List ℕ) → H.unread shelf.new n ≡ H.unread shelf.old n }
    ensures reads { (n : List ℕ) → H.read_faults shelf.new n ≡ H.read_faults shelf.old n }
    ensures opens { (n : List ℕ) → H.open_faults shelf.old n ≤ H.open_faults shelf.new n }
    ensures came { CameOf H.Src.left H.Src.name H.Src.faults (H.content shelf.old)
        (H.open_faults shelf.old) (H.open_faults shelf.new) name.now result }
{
    match shelf.open_log(name) {
        Ok(source) => LogSource::Opened(source),
        Err(cause) => LogSource::Unopened { cause, faults: 0 },
    }
}

/// Opens the logs of these names, in their order. A log that cannot be opened has its place too. Where
/// there is no memory for the list, none is opened.
pub fn open_logs<H: Shelf>(
    alloc: Global,
    shelf: &mut H,
    names: &[&str],
) -> Result<Vec<LogSource<H::Src>>, AllocError>
    // what stays
    ensures content { (n : List ℕ) → H.content shelf.new n ≡ H.content shelf.old n }
    ensures unread { (n : List ℕ) → H.unread shelf.new n ≡ H.unread shelf.old n }
    ensures reads { (n : List ℕ) → H.read_faults shelf.new n ≡ H.read_faults shelf.old n }
    ensures opens { (n : List ℕ) → H.open_faults shelf.old n ≤ H.open_faults shelf.new n }

    // each in its place
    ensures came { IfOk result (λ sources.
        AllZip (CameOf H.Src.left H.Src.name H.Src.faults (H.content shelf.old)
        (H.open_faults shelf.old) (H.open_faults shelf.new))
        (map str_bytes names.now) sources.items) }
{
    let mut sources = Vec::with_capacity(alloc, names.len())?;
    for name in names {
        let source = open_one(shelf, name);
        sources.push_reserved(source);
    }
    Ok(sources)
}

/// Ends the reading of one log.
fn close_one<H: Shelf>(shelf: &mut H, source: LogSource<H::Src>)
    ensures content { (n : List ℕ) → H.content shelf.new n ≡ H.content shelf.old n }
    ensures opens { (n : List ℕ) → H.open_faults shelf.new n ≡ H.open_faults shelf.old n }
    ensures reads { (n : List ℕ) → H.read_faults shelf.old n ≤ H.read_faults shelf.new n }
    ensures counted { IsCounted H.Src.name H.Src.faults
        (H.read_faults shelf.old) (H.read_faults shelf.new) source }
    ensures unread { (n : List ℕ) → IsUnread H.Src.left H.Src.name n
        (H.unread shelf.old n) (H.unread shelf.new n) (source ∷ []) }
{
    match source {
        LogSource::Opened(source) => shelf.close_log(source),
        LogSource::Unopened { .. } => {}
    }
}

/// Ends the reading of logs, the last one first. Where reads of one failed since it was opened, the count of
/// faults in reading its name rose.
pub fn close_logs<H: Shelf>(shelf: &mut H, mut sources: Vec<LogSource<H::Src>>)
    // what stays
    ensures content { (n : List ℕ) → H.content shelf.new n ≡ H.content shelf.old n }
    ensures opens { (n : List ℕ) → H.open_faults shelf.new n ≡ H.open_faults shelf.old n }

    // what is counted
    ensures reads { (n : List ℕ) → H.read_faults shelf.old n ≤ H.read_faults shelf.new n }
    ensures counted { All (IsCounted H.Src.name H.Src.faults
        (H.read_faults shelf.old) (H.read_faults shelf.new)) sources.items }

    // what is told as unread
    ensures unread { (n : List ℕ) → IsUnread H.Src.left H.Src.name n
        (H.unread shelf.old n) (H.unread shelf.new n) sources.items }
{
    while let Some(source) = sources.pop() {
        close_one(shelf, source);
    }
    sources.destroy_empty();
}
