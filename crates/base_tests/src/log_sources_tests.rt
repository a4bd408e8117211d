use crate::telling::holds;
use log_seams::{Failed, MemFile, MemShelf, OpenRefused, Source};
use log_sources::{LogSource, close_logs, open_logs};
use plain_list::Text;
use std::alloc::{AllocError, Global};
use std::test::Fail;

/// A log, whose reads of these numbers fail.
fn file_of(alloc: Global, name: &str, bytes: &[u8], fails: &[u64]) -> Result<MemFile, AllocError> {
    Ok(MemFile {
        name: String::from_str(alloc, name)?,
        bytes: Text::new(Vec::from_slice(alloc, bytes)?),
        read_fails: Vec::from_slice(alloc, fails)?,
    })
}

/// A shelf with one log, whose reads of these numbers fail.
fn shelf_of(
    alloc: Global,
    name: &str,
    bytes: &[u8],
    fails: &[u64],
) -> Result<MemShelf, AllocError> {
    let files = vec![in alloc; file_of(alloc, name, bytes, fails)?]?;
    Ok(MemShelf::new(alloc, files, Vec::new(alloc)))
}

/// Whether the log has this refusal, and its next read answers this.
fn answers<S: Source>(
    log: &mut LogSource<S>,
    refusal: Option<OpenRefused>,
    read: Result<usize, Failed>,
) -> bool {
    log.refusal() == refusal && log.read(&mut [0; 4]) == read
}

/// Whether these are two logs, of which the first is not there.
fn answer<S: Source>(sources: &mut [LogSource<S>]) -> bool {
    let [gone, there] = sources else {
        return false;
    };
    answers(there, None, Ok(2)) && answers(gone, Some(OpenRefused::Failed), Err(Failed))
}

/// Whether they are so where they are opened of this shelf, to which they go back.
fn are_opened(alloc: Global, shelf: &mut MemShelf) -> Result<bool, AllocError> {
    let mut sources = open_logs(alloc, shelf, &["gone.log", "a.log"])?;
    let well = answer(&mut sources);
    close_logs(shelf, sources);
    Ok(well)
}

fn are_opened_anew(alloc: Global) -> Result<bool, AllocError> {
    let mut shelf = shelf_of(alloc, "a.log", b"xy", &[])?;
    are_opened(alloc, &mut shelf)
}

#[test]
fn a_log_that_is_not_there_fails_at_each_read(rt: HostRuntime) -> Result<(), Fail> {
    holds(are_opened_anew(rt.alloc()))
}
