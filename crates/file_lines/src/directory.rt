//! The lines of files.
ghost use Rattle.std.specs.Prelude.{◌≡◌, ◌+◌, ◌^◌, ◌≤◌, ◌++◌, length, map, OnOk, OnErr};
ghost use Rattle.log_seams.specs.Outside.{CountsOf};
ghost use Rattle.file_lines.specs.Directory.{FileLine, directory_from, directory_line, line_of_file};
ghost use Rattle.sink_pieces.specs.Output.{Grew, GrewByFront};

use archive_open::FileEntry;
use log_seams::Sink;
use sink_pieces::{PrintRefusal, flush, flush_piece};
use std::alloc::{AllocError, Global};

/// A file as the directory tells it.
pub trait Listed {
    /// What the directory tells of it.
    ghost listed: { Self → FileLine };

    /// Its name.
    fn name(&self) -> &[u8]
        ensures { result.now ≡ (listed self.now).name };

    /// How many messages the archive has of it.
    fn messages(&self) -> u64
        ensures { result ≡ (listed self.now).messages };

    /// Whether these are all.
    fn is_whole(&self) -> bool
        ensures { result ≡ (listed self.now).whole };
}

impl Listed for FileEntry {
    ghost listed = { line_of_file };

    fn name(&self) -> &[u8] {
        self.name.as_slice()
    }

    fn messages(&self) -> u64 {
        self.messages
    }

    fn is_whole(&self) -> bool {
        self.whole
    }
}

/// Appends the line of a file of this number.
fn push_line<F: Listed>(gathered: &mut Vec<u8>, number: u64, file: &F) -> Result<(), AllocError>
    ensures { OnOk result
        (gathered.new.items ≡ gathered.old.items ++ directory_line number (F.listed file.now)) }
{
    let mut digits = itoa::Buffer::new();
    let state: &[u8] = if file.is_whole() {
        b" whole "
    } else {
        b" part "
    };
    gathered.extend_from_slice(digits.format(number).as_bytes())?;
    gathered.push(b' ')?;
    gathered.extend_from_slice(digits.format(file.messages()).as_bytes())?;
    gathered.extend_from_slice(state)?;
    gathered.extend_from_slice(file.name())?;
    gathered.push(b'\n')?;
    Ok(())
}

/// Prints the lines of files, which are numbered on from `first`.
pub fn print_directory<F: Listed, K: Sink>(
    alloc: Global,
    first: u64,
    files: &[F],
    out: &mut K,
) -> Result<(), PrintRefusal>
    requires { first + length files.now ≤ 2 ^ 64 }
    ensures ok { OnOk result (Grew (K.written out.old) (K.written out.new)
        (directory_from first (map F.listed files.now))) }
    ensures err { OnErr result (GrewByFront (K.written out.old) (K.written out.new)
        (directory_from first (map F.listed files.now))) }
    ensures cause { CountsOf PrintRefusal.SinkFault (K.faults out.old) (K.faults out.new) result }
{
    let mut gathered = Vec::new(alloc);
    for (index, file) in files.iter().enumerate() {
        let number = first + index as u64;
        push_line(&mut gathered, number, file)?;
        flush_piece(out, &mut gathered)?;
    }
    flush(out, &mut gathered)?;
    Ok(())
}
