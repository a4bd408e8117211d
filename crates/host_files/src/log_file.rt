//! Files as logs. They count one fault for each call that failed.
ghost use Rattle.std.specs.Prelude.{◌≡◌, ◌≢◌, ◌<◌, ◌≤◌, ◌↔◌, ℕ, List, Option, None, Some, IfOk, IsOk, OnErr, length};
ghost use Rattle.log_seams.specs.Outside.{Takes};

use crate::faults::counted;
use crate::file_id::FileId;
use log_seams::{Failed, OpenRefused, Shelf, Source};
use std::fs::File;
use std::io::{self, ErrorKind, Read};
use std::rt::Files;

/// What is read from its start to its end.
pub trait Input: Drop {
    /// The bytes that are left, where they are told.
    ghost left: { Self → Option (List ℕ) };

    /// Reads the next bytes to the front of `buf`, which is not empty, and answers how many; `Ok(0)`
    /// is the end. A read that failed or was interrupted took nothing.
    fn read_some(&mut self, buf: &mut [u8]) -> io::Result<usize>
        requires { 0 < length buf.old }
        ensures within { IfOk result (λ n. n ≤ length buf.old) }
        ensures taken { IfOk result (λ n. Takes n buf.new (left self.old) (left self.new)) }
        ensures untaken { OnErr result (left self.new ≡ left self.old) };
}

impl Input for File {
    ghost left = { λ _. None };

    fn read_some(&mut self, buf: &mut [u8]) -> io::Result<usize> {
        self.read(buf)
    }
}

/// Reads once, and again as long as a signal interrupted the read.
fn read_again<F: Input>(file: &mut F, buf: &mut [u8]) -> io::Result<usize>
    requires { 0 < length buf.old }
    ensures within { IfOk result (λ n. n ≤ length buf.old) }
    ensures taken { IfOk result (λ n. Takes n buf.new (F.left file.old) (F.left file.new)) }
    ensures untaken { OnErr result (F.left file.new ≡ F.left file.old) }
{
    for _ in 0..u64::MAX {
        match file.read_some(buf) {
            Err(error) if error.kind() == ErrorKind::Interrupted => {}
            answer => return answer,
        }
    }
    Err(ErrorKind::TimedOut.into())
}

/// An open log. It tells the bytes that its file tells.
#[derive(Drop)]
pub struct LogFile<F> {
    file: F,
    faults: u64,
}

impl<F> LogFile<F> {
    /// The log of a file that was opened.
    pub fn new(file: F) -> Self
        ensures file { result.file ≡ file }
        ensures faults { result.faults ≡ 0 }
    {
        LogFile { file, faults: 0 }
    }
}

impl<F: Input> Source for LogFile<F> {
    ghost left = { λ s. F.left s.file };

    ghost name = { λ _. None };

    ghost faults = { λ s. s.faults };

    fn read(&mut self, buf: &mut [u8]) -> Result<usize, Failed> {
        counted(&mut self.faults, read_again(&mut self.file, buf))
    }
}

/// Refuses as a log the file that is written.
fn unless_written(written: Option<FileId>, log: FileId) -> io::Result<()>
    ensures { IsOk result ↔ (written ≢ Some log) }
{
    if written == Some(log) {
        return Err(ErrorKind::InvalidInput.into());
    }
    Ok(())
}

/// The files that the runtime can open, but for the one that is written. It tells no content, and has
/// one count of faults in opening and one in reading, each for all names.
#[derive(Drop)]
pub struct LogFiles<'r, R> {
    rt: &'r R,
    written: Option<FileId>,
    open_faults: u64,
    read_faults: u64,
}

impl<'r, R> LogFiles<'r, R> {
    /// No file was opened yet. `written` is the file that a command writes, which is no log of its own.
    pub fn new(rt: &'r R, written: Option<FileId>) -> Self {
        LogFiles {
            rt,
            written,
            open_faults: 0,
            read_faults: 0,
        }
    }
}

impl<R: Files<File = File>> LogFiles<'_, R> {
    /// Opens a file, and refuses the one that is written before anything is read of it.
    fn open_other(&self, name: &str) -> io::Result<File> {
        let file = File::open(self.rt, name)?;
        unless_written(self.written, FileId::of(&file)?)?;
        Ok(file)
    }
}

impl<R: Files<File = File>> Shelf for LogFiles<'_, R> {
    type Src = LogFile<File>;

    ghost content = { λ _ _. None };

    ghost unread = { λ _ _. None };

    ghost open_faults = { λ s _. s.open_faults };

    ghost read_faults = { λ s _. s.read_faults };

    fn open_log(&mut self, name: &str) -> Result<LogFile<File>, OpenRefused> {
        match self.open_other(name) {
            Ok(file) => Ok(LogFile::new(file)),
            Err(_) => {
                self.open_faults = self.open_faults.saturating_add(1);
                Err(OpenRefused::Failed)
            }
        }
    }

    fn close_log(&mut self, src: LogFile<File>) {
        self.read_faults = self.read_faults.saturating_add(src.faults);
    }
}
