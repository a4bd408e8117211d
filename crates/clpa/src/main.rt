//! The program: the words of the command line, the files and streams behind the traits that the
//! commands run over, and the status that the process ends with.
#![tactic(auto)]

mod writing;

use clp_commands::run;
use host_files::{DiskFile, FilePath, LogFiles, Place, Standard, Stream};
use log_seams::{SharedDisk, Shelf, Sink};
use std::alloc::{AllocError, Global};
use std::env;
use std::io::ErrorKind;
use std::process::ExitCode;
use std::sync::Wait;
use std::thread::Threads;
use writing::{Writing, ask_to_write};

/// What the words of the command line behind the program's name give.
#[derive(Drop)]
struct CommandLine {
    /// The path of the archive, which is the first word.
    archive: String,
    /// The path of the second archive: that of the first with `.new` behind it.
    second: String,
    /// The words of the command, which are all others.
    words: Vec<String>,
    /// Which archives the command may write.
    writing: Writing,
}

/// Reads the words of the command line.
///
/// Words that cannot be read, as those that are not UTF-8, give an empty list, which is no command.
fn command_line(rt: &HostRuntime) -> Result<CommandLine, AllocError> {
    let mut archive = String::new(rt.alloc());
    let mut words = Vec::new(rt.alloc());
    match env::args(rt) {
        Ok(mut args) => {
            if let Some(path) = args.nth(1) {
                archive = path;
            }
            for word in args {
                words.push(word)?;
            }
        }
        Err(error) if error.kind() == ErrorKind::OutOfMemory => return Err(AllocError),
        Err(_) => {}
    }
    let second = format!(in rt.alloc(); "{archive}.new")?;
    let writing = ask_to_write(rt.alloc(), words.as_slice())?;
    Ok(CommandLine {
        archive,
        second,
        words,
        writing,
    })
}

/// The file of a place as a disk: one that may be written is opened and locked at once, and made at the
/// first write where nothing stands there.
fn disk_at<P: Place>(place: P, may_write: bool) -> DiskFile<P, P::File> {
    if may_write {
        DiskFile::to_write(place)
    } else {
        DiskFile::to_read(place)
    }
}

/// What `run` answers where nothing is known of what the archive's file holds.
fn answer<R: Threads + Wait + Sync, H: Shelf, D: SharedDisk + Send, K: Sink + Send>(
    rt: &R,
    alloc: Global,
    words: &[String],
    logs: &mut H,
    archive: &mut D,
    second: &mut D,
    out: &mut K,
    err: &mut K,
) -> u8
where
    H::Src: Send,
{
    run(rt, alloc, words, logs, archive, second, out, err)
}

fn main(rt: HostRuntime) -> ExitCode {
    let mut out = Stream::new(Standard::Output(rt.stdout()));
    let mut err = Stream::new(Standard::Errors(rt.stderr()));
    let Ok(line) = command_line(&rt) else {
        let _ = err.write(b"clpa: out of memory\n");
        return ExitCode::from(9);
    };
    let place = FilePath {
        rt: &rt,
        path: line.archive.as_str(),
    };
    let mut archive = disk_at(place, line.writing.archive);
    let mut logs = LogFiles::new(&rt, archive.locked_id());
    let second_place = FilePath {
        rt: &rt,
        path: line.second.as_str(),
    };
    let mut second = disk_at(second_place, line.writing.second);
    let status = answer(
        &rt,
        rt.alloc(),
        line.words.as_slice(),
        &mut logs,
        &mut archive,
        &mut second,
        &mut out,
        &mut err,
    );
    ExitCode::from(status)
}
