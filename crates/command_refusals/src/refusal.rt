//! Why a command was refused, and what each refusal ends the program with.
ghost use Rattle.std.specs.Prelude.{◌≡◌, ◌≤◌, ◌++◌, [], IsFalse};
ghost use Rattle.std.specs.Fmt.{decimal};
ghost use Rattle.std.specs.List.{flat_map};
ghost use Rattle.log_seams.specs.Outside.{Rose};
ghost use Rattle.command_refusals.specs.Refusal.{Says, file_line_of, file_status_of, full_at, line_of, status_of};

use log_seams::Sink;
use row_codec::Which;
use sink_pieces::write_all;

/// Why a command did not do what it was asked for. Each has one cause.
#[derive(Clone, Copy, Debug, PartialEq, Eq)]
pub enum Refusal {
    /// The words are not of the form of a command.
    Usage,
    /// The pattern ends in a `\` that escapes nothing; `at` is its place from 0.
    BadPattern { at: usize },
    /// The log cannot be opened: the shelf's count of faults in opening its name rose.
    OpenFault,
    /// A read of the log failed: the shelf's count of faults in reading its name rose.
    ReadFault,
    /// The line of that number has more than 1,048,576 bytes without its newline.
    LineTooLong { line: u64 },
    /// A line begins after message 4,294,967,294.
    TooManyLines,
    /// A call on the archive's disk failed: its count of faults rose.
    DiskFault,
    /// The disk's bytes are no archive. `check` tells the first damage: the place of the first gate that
    /// is missing or whose record is bad, or 0 for the header; other commands a place not before it.
    Damaged { at: u64 },
    /// The output cannot be written: its count of faults rose.
    SinkFault,
    /// An archive is to be made, and its disk already has `len` bytes.
    NotEmpty { len: u64 },
    /// The archive has no file of that number, but `count` files, which are numbered from 0.
    NoSuchFile { number: u64, count: u64 },
    /// There was no memory.
    OutOfMemory,
    /// The name at `index`, the first such, has more than 4,096 bytes.
    NameTooLong { index: usize },
    /// `more` names are given, which are more than 512, and `held` is 0; or with the `held` names of the
    /// archive they are more than 1,048,576.
    TooManyFiles { held: u64, more: u64 },
    /// A text is new, and the dictionary has `count` texts, which is its limit.
    Full { book: Which, count: u32 },
    /// Records do not fit the archive's limit of length: it ends at `end`, and they need `need` bytes.
    ArchiveFull { end: u64, need: u64 },
    /// The second archive's bytes are no archive: a place that is not before the first damage.
    SecondDamaged { at: u64 },
    /// The second archive is of another version than the archive, which has `first`.
    VersionDiffers { first: u32, second: u32 },
    /// The archive is of the newest version already.
    AlreadyNewest { version: u32 },
}

/// Writes the pieces one after the other, until one fails, and tells whether all went out. Takes no
/// memory.
fn goes_out<K: Sink>(err: &mut K, pieces: &[&[u8]]) -> bool
    ensures said { Says
        (K.written err.old) (K.written err.new) (K.faults err.old) (K.faults err.new)
        (flat_map (λ p. p.now) pieces.now) }
    ensures stopped { IsFalse result → Rose (K.faults err.old) (K.faults err.new) }
    ensures later { K.faults err.old ≤ K.faults err.new }
{
    for piece in pieces {
        if write_all(err, piece).is_err() {
            return false;
        }
    }
    true
}

/// Writes the pieces of a line, until one fails. Takes no memory.
fn say<K: Sink>(err: &mut K, pieces: &[&[u8]])
    ensures said { Says
        (K.written err.old) (K.written err.new) (K.faults err.old) (K.faults err.new)
        (flat_map (λ p. p.now) pieces.now) }
    ensures later { K.faults err.old ≤ K.faults err.new }
{
    let _all = goes_out(err, pieces);
}

/// Writes a front, a number, and what is behind it. Takes no memory.
fn say_number<K: Sink>(err: &mut K, front: &[&[u8]], number: u64, behind: &[u8])
    ensures said { Says
        (K.written err.old) (K.written err.new) (K.faults err.old) (K.faults err.new)
        (flat_map (λ p. p.now) front.now ++ (decimal number ++ behind.now)) }
    ensures later { K.faults err.old ≤ K.faults err.new }
{
    let mut digits = itoa::Buffer::new();
    let number = digits.format(number).as_bytes();
    if goes_out(err, front) {
        say(err, &[number, behind]);
    }
}

/// Writes a front, two numbers with a text between them, and what is behind. Takes no memory.
fn say_numbers<K: Sink>(
    err: &mut K,
    front: &[&[u8]],
    first: u64,
    between: &[u8],
    second: u64,
    behind: &[u8],
)
    ensures said { Says
        (K.written err.old) (K.written err.new) (K.faults err.old) (K.faults err.new)
        (flat_map (λ p. p.now) front.now
        ++ (decimal first ++ (between.now ++ (decimal second ++ behind.now)))) }
    ensures later { K.faults err.old ≤ K.faults err.new }
{
    let (mut one, mut other) = (itoa::Buffer::new(), itoa::Buffer::new());
    let first = one.format(first).as_bytes();
    let second = other.format(second).as_bytes();
    if goes_out(err, front) {
        say(err, &[first, between, second, behind]);
    }
}

/// Writes which file the archive lacks, and how many it has. Takes no memory.
fn say_no_such_file<K: Sink>(err: &mut K, number: u64, count: u64)
    ensures said { Says
        (K.written err.old) (K.written err.new) (K.faults err.old) (K.faults err.new)
        (line_of [] (Refusal.NoSuchFile number count)) }
    ensures later { K.faults err.old ≤ K.faults err.new }
{
    say_numbers(
        err,
        &[b"clpa: no file "],
        number,
        b", the archive has ",
        count,
        b"\n",
    );
}

/// Writes how many names an archive has, and how many more are too many. Takes no memory.
fn say_too_many<K: Sink>(err: &mut K, held: u64, more: u64)
    ensures said { Says
        (K.written err.old) (K.written err.new) (K.faults err.old) (K.faults err.new)
        (line_of [] (Refusal.TooManyFiles held more)) }
    ensures later { K.faults err.old ≤ K.faults err.new }
{
    say_numbers(
        err,
        &[b"clpa: too many files: "],
        held,
        b" held, ",
        more,
        b" more\n",
    );
}

/// Writes which versions two archives are of. Takes no memory.
fn say_versions<K: Sink>(err: &mut K, first: u32, second: u32)
    ensures said { Says
        (K.written err.old) (K.written err.new) (K.faults err.old) (K.faults err.new)
        (line_of [] (Refusal.VersionDiffers first second)) }
    ensures later { K.faults err.old ≤ K.faults err.new }
{
    say_numbers(
        err,
        &[b"clpa: second archive: version "],
        u64::from(second),
        b", the archive has ",
        u64::from(first),
        b"\n",
    );
}

/// Writes that an archive of this version is of the newest. Takes no memory.
fn say_newest<K: Sink>(err: &mut K, version: u32)
    ensures said { Says
        (K.written err.old) (K.written err.new) (K.faults err.old) (K.faults err.new)
        (line_of [] (Refusal.AlreadyNewest version)) }
    ensures later { K.faults err.old ≤ K.faults err.new }
{
    say_number(
        err,
        &[b"clpa: archive: version "],
        u64::from(version),
        b" is the newest\n",
    );
}

/// Writes which dictionary is full. Takes no memory.
fn say_full<K: Sink>(err: &mut K, name: &[u8], book: Which, count: u32)
    ensures said { Says
        (K.written err.old) (K.written err.new) (K.faults err.old) (K.faults err.new)
        (line_of name.now (Refusal.Full book count)) }
    ensures later { K.faults err.old ≤ K.faults err.new }
{
    let count = u64::from(count);
    match book {
        Which::Types => {
            say_number(
                err,
                &[b"clpa: ", name, b": dictionary of types is full at "],
                count,
                b"\n",
            );
        }
        Which::Words => {
            say_number(
                err,
                &[b"clpa: ", name, b": dictionary of words is full at "],
                count,
                b"\n",
            );
        }
    }
}

/// Writes how far an archive is full, behind a text. Takes no memory.
fn say_archive_full<K: Sink>(err: &mut K, text: &[&[u8]], end: u64, need: u64)
    ensures said { Says
        (K.written err.old) (K.written err.new) (K.faults err.old) (K.faults err.new)
        (flat_map (λ p. p.now) text.now ++ full_at end need) }
    ensures later { K.faults err.old ≤ K.faults err.new }
{
    say_numbers(err, text, end, b", ", need, b" more needed\n");
}

/// Writes the line of a refusal, in which `name` is the log's. Takes no memory.
fn say_line<K: Sink>(err: &mut K, name: &[u8], refusal: Refusal)
    ensures said { Says
        (K.written err.old) (K.written err.new) (K.faults err.old) (K.faults err.new)
        (line_of name.now refusal) }
    ensures later { K.faults err.old ≤ K.faults err.new }
{
    match refusal {
        Refusal::Usage => {
            say(
                err,
                &[b"clpa: usage: clpa ARCHIVE COMMAND [OPTION]... [WORD]...\n"],
            );
        }
        Refusal::BadPattern { at } => {
            say_number(
                err,
                &[b"clpa: pattern: lone backslash at "],
                at as u64,
                b"\n",
            );
        }
        Refusal::OpenFault => say(err, &[b"clpa: ", name, b": cannot open\n"]),
        Refusal::ReadFault => say(err, &[b"clpa: ", name, b": read failed\n"]),
        Refusal::LineTooLong { line } => {
            say_number(err, &[b"clpa: ", name, b": line "], line, b" is too long\n");
        }
        Refusal::TooManyLines => say(err, &[b"clpa: ", name, b": too many lines\n"]),
        Refusal::DiskFault => say(err, &[b"clpa: archive: disk failed\n"]),
        Refusal::Damaged { at } => say_number(err, &[b"clpa: archive: damaged at "], at, b"\n"),
        Refusal::SinkFault => say(err, &[b"clpa: output failed\n"]),
        Refusal::NotEmpty { len } => {
            say_number(err, &[b"clpa: archive: not empty, "], len, b" bytes\n");
        }
        Refusal::NoSuchFile { number, count } => say_no_such_file(err, number, count),
        Refusal::OutOfMemory => say(err, &[b"clpa: out of memory\n"]),
        Refusal::NameTooLong { index } => {
            say_number(err, &[b"clpa: name "], index as u64, b" is too long\n");
        }
        Refusal::TooManyFiles { held, more } => say_too_many(err, held, more),
        Refusal::Full { book, count } => say_full(err, name, book, count),
        Refusal::ArchiveFull { end, need } => {
            say_archive_full(err, &[b"clpa: archive: full at "], end, need);
        }
        Refusal::SecondDamaged { at } => {
            say_number(err, &[b"clpa: second archive: damaged at "], at, b"\n");
        }
        Refusal::VersionDiffers { first, second } => say_versions(err, first, second),
        Refusal::AlreadyNewest { version } => say_newest(err, version),
    }
}

/// The status that a refusal ends the program with.
fn status_code(refusal: Refusal) -> u8
    ensures { result ≡ status_of refusal }
{
    match refusal {
        Refusal::Usage => 2,
        Refusal::BadPattern { .. } => 3,
        Refusal::OpenFault
        | Refusal::ReadFault
        | Refusal::LineTooLong { .. }
        | Refusal::TooManyLines
        | Refusal::Full { .. } => 4,
        Refusal::DiskFault => 5,
        Refusal::Damaged { .. } | Refusal::SecondDamaged { .. } => 6,
        Refusal::SinkFault => 7,
        Refusal::NotEmpty { .. }
        | Refusal::NoSuchFile { .. }
        | Refusal::NameTooLong { .. }
        | Refusal::TooManyFiles { .. }
        | Refusal::ArchiveFull { .. }
        | Refusal::VersionDiffers { .. }
        | Refusal::AlreadyNewest { .. } => 8,
        Refusal::OutOfMemory => 9,
    }
}

/// Writes the line of a refusal, in which `name` is the log's, and answers the status that the
/// program ends with. Takes no memory.
pub fn report<K: Sink>(err: &mut K, name: &str, refusal: Refusal) -> u8
    ensures status { result ≡ status_of refusal }
    ensures said { Says
        (K.written err.old) (K.written err.new) (K.faults err.old) (K.faults err.new)
        (line_of name.now refusal) }
    ensures later { K.faults err.old ≤ K.faults err.new }
{
    say_line(err, name.as_bytes(), refusal);
    status_code(refusal)
}

/// Writes the line of a refusal that came of a file with this name, and answers its status. Takes no
/// memory.
pub fn report_file<K: Sink>(err: &mut K, name: &[u8], refusal: Refusal) -> u8
    ensures status { result ≡ file_status_of refusal }
    ensures said { Says
        (K.written err.old) (K.written err.new) (K.faults err.old) (K.faults err.new)
        (file_line_of name.now refusal) }
    ensures later { K.faults err.old ≤ K.faults err.new }
{
    match refusal {
        Refusal::DiskFault => {
            say(err, &[b"clpa: ", name, b": disk failed\n"]);
            5
        }
        Refusal::OutOfMemory => {
            say(err, &[b"clpa: ", name, b": out of memory\n"]);
            9
        }
        Refusal::ArchiveFull { end, need } => {
            say_archive_full(err, &[b"clpa: ", name, b": archive full at "], end, need);
            4
        }
        _ => {
            say_line(err, name, refusal);
            status_code(refusal)
        }
    }
}
