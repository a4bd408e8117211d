//! A command from what `clap` found for it.
ghost use Rattle.std.specs.Prelude.{◌≡◌, ◌≤◌, ◌<◌, ◌^◌, ◌↔◌, ℕ, ℤ, Bool, List, Option, Some, IfSome, IfOk, IsSomeAnd, IsTrue, codes, map, option_map};
ghost use Rattle.clap.specs.Words.{Text, all_of, first_of};
ghost use Rattle.record_format.specs.declared.header.Header.{Header};
ghost use Rattle.command_words.specs.Asked.{Gives, IsReading, benched, counted, ingested, rows_in, searched, to_bench, to_count, to_create, to_ingest, to_search};
ghost use Rattle.command_words.specs.Values.{IsKeyIn, IsMomentIn, IsNumberIn, IsNumberOr};
ghost use Rattle.command_words.specs.declared.command.CountKey.{CountKey};

use crate::command::{BenchWords, Command, CountKey, CountWords, IngestWords, SearchWords};
use crate::number::{read_moment, read_number};
use clap::ArgMatches;
use record_format::Header;
use std::alloc::{AllocError, Global};

/// The value of a word or an option, where there is one.
fn text<'a>(found: &ArgMatches<'a>, name: &str) -> Option<&'a str>
    ensures { option_map (λ s. s.now) result ≡ first_of name.now (rows_in found.now) }
{
    found.get_str(name)
}

/// The number of an option, from `least` to `most`, and `default` where it is not given.
fn number_or(found: &ArgMatches<'_>, name: &str, least: u64, most: u64, default: u64) -> Option<u64>
    requires { (most < 2 ^ 63) × (least ≤ default) × (default ≤ most) }
    ensures range { IfSome result (λ n. n ≤ most) }
    ensures some { IfSome result
        (IsNumberOr default least most (first_of name.now (rows_in found.now))) }
    ensures all { (n : ℕ) → IsNumberOr default least most (first_of name.now (rows_in found.now)) n
        → result ≡ Some n }
{
    match text(found, name) {
        Some(text) => read_number(text, least, most),
        None => Some(default),
    }
}

/// The number that stands there as a word, from `least` to `most`.
fn number(found: &ArgMatches<'_>, name: &str, least: u64, most: u64) -> Option<u64>
    requires { most < 2 ^ 63 }
    ensures range { IfSome result (λ n. n ≤ most) }
    ensures some { IfSome result (IsNumberIn least most (first_of name.now (rows_in found.now))) }
    ensures all { (n : ℕ) → IsNumberIn least most (first_of name.now (rows_in found.now)) n
        → result ≡ Some n }
{
    match text(found, name) {
        Some(text) => read_number(text, least, most),
        None => None,
    }
}

/// The moment of an option, where it is given.
fn moment(found: &ArgMatches<'_>, name: &str) -> Option<Option<i64>>
    ensures some { IfSome result (IsMomentIn (first_of name.now (rows_in found.now))) }
    ensures all { (m : Option ℤ) → IsMomentIn (first_of name.now (rows_in found.now)) m
        → result ≡ Some m }
{
    match text(found, name) {
        Some(text) => Some(Some(read_moment(text)?)),
        None => Some(None),
    }
}

/// Whether a flag is given.
fn flag(found: &ArgMatches<'_>, name: &str) -> bool
    ensures { IsTrue result ↔ (first_of name.now (rows_in found.now) ≡ Some (codes "true")) }
{
    match text(found, name) {
        Some(text) => text == "true",
        None => false,
    }
}

/// What is counted by, where the option for it names one.
fn key(found: &ArgMatches<'_>) -> Option<CountKey>
    ensures some { IfSome result (IsKeyIn (first_of (codes "by") (rows_in found.now))) }
    ensures all { (k : CountKey) → IsKeyIn (first_of (codes "by") (rows_in found.now)) k
        → result ≡ Some k }
{
    match text(found, "by")? {
        "type" => Some(CountKey::LogType),
        "minute" => Some(CountKey::Minute),
        _ => None,
    }
}

fn read_create(found: &ArgMatches<'_>) -> Option<Header>
    ensures some { IfSome result (λ h. Gives (rows_in found.now) (to_create h)) }
    ensures all { (h : Header) → Gives (rows_in found.now) (to_create h) → result ≡ Some h }
{
    let version = number_or(found, "format", 1, 3, 1)?;
    let types_limit = number_or(found, "types", 1, 2_147_483_648, 16_777_216)?;
    let words_limit = number_or(found, "words", 1, 2_147_483_648, 2_147_483_648)?;
    let length_limit = number_or(found, "bytes", 33, 1_099_511_627_776, 1_099_511_627_776)?;
    Some(Header {
        version: version as u32,
        types_limit: types_limit as u32,
        words_limit: words_limit as u32,
        length_limit,
    })
}

fn read_search<'a>(found: &ArgMatches<'a>) -> Option<SearchWords<'a>>
    ensures some { IfSome result (λ s. Gives (rows_in found.now) (searched s)) }
    ensures all { (from to : Option ℤ) (stats : Bool) (workers : ℕ) (pattern : Text)
        → Gives (rows_in found.now) (to_search from to stats workers pattern)
        → IsSomeAnd result (λ s. searched s ≡ to_search from to stats workers pattern) }
{
    let from = moment(found, "from")?;
    let to = moment(found, "to")?;
    let stats = flag(found, "stats");
    let workers = number_or(found, "workers", 1, 64, 1)?;
    let pattern = text(found, "pattern")?;
    Some(SearchWords {
        from,
        to,
        stats,
        workers: workers as u32,
        pattern,
    })
}

fn read_count<'a>(found: &ArgMatches<'a>) -> Option<CountWords<'a>>
    ensures some { IfSome result (λ c. Gives (rows_in found.now) (counted c)) }
    ensures all { (by : CountKey) (from to : Option ℤ) (stats : Bool) (workers : ℕ) (pattern : Text)
        → Gives (rows_in found.now) (to_count by from to stats workers pattern)
        → IsSomeAnd result (λ c. counted c ≡ to_count by from to stats workers pattern) }
{
    let by = key(found)?;
    let from = moment(found, "from")?;
    let to = moment(found, "to")?;
    let stats = flag(found, "stats");
    let workers = number_or(found, "workers", 1, 64, 1)?;
    let pattern = text(found, "pattern")?;
    Some(CountWords {
        by,
        from,
        to,
        stats,
        workers: workers as u32,
        pattern,
    })
}

fn read_bench(found: &ArgMatches<'_>) -> Option<BenchWords>
    ensures some { IfSome result (λ b. Gives (rows_in found.now) (benched b)) }
    ensures all { (first lines workers : ℕ)
        → Gives (rows_in found.now) (to_bench first lines workers)
        → IsSomeAnd result (λ b. benched b ≡ to_bench first lines workers) }
{
    let first = number(found, "number", 0, 4_294_967_295)?;
    let lines = number(found, "lines", 1, 1_000_000)?;
    let workers = number(found, "workers", 1, 64)?;
    Some(BenchWords {
        number: first as u32,
        lines: lines as u32,
        workers: workers as u32,
    })
}

/// The counts of workers and of rows that the options of `ingest` give.
fn read_counts(found: &ArgMatches<'_>) -> Option<(u32, u32)>
    ensures workers { IfSome result (λ r.
        IsNumberOr 1 1 64 (first_of (codes "workers") (rows_in found.now)) r.0) }
    ensures segment { IfSome result (λ r.
        IsNumberOr 65536 1 65536 (first_of (codes "segment") (rows_in found.now)) r.1) }
    ensures all { (workers segment : ℕ)
        → IsNumberOr 1 1 64 (first_of (codes "workers") (rows_in found.now)) workers
        → IsNumberOr 65536 1 65536 (first_of (codes "segment") (rows_in found.now)) segment
        → result ≡ Some (workers, segment) }
{
    let workers = number_or(found, "workers", 1, 64, 1)?;
    let segment = number_or(found, "segment", 1, 65_536, 65_536)?;
    Some((workers as u32, segment as u32))
}

/// All values of a word, where there are any.
fn texts<'a>(
    alloc: Global,
    found: &ArgMatches<'a>,
    name: &str,
) -> Result<Option<Vec<&'a str>>, AllocError>
    ensures { IfOk result (λ o. option_map (λ v. map (λ s. s.now) v.items) o
        ≡ all_of name.now (rows_in found.now)) }
{
    match found.get_strs(name) {
        Some(texts) => Ok(Some(texts.to_vec(alloc)?)),
        None => Ok(None),
    }
}

fn read_ingest<'a>(
    alloc: Global,
    found: &ArgMatches<'a>,
) -> Result<Option<IngestWords<'a>>, AllocError>
    ensures some { IfOk result (λ o. IfSome o (λ i. Gives (rows_in found.now) (ingested i))) }
    ensures all { (workers segment : ℕ) (watch : Option Text) (files : List Text)
        → Gives (rows_in found.now) (to_ingest workers segment watch files)
        → IfOk result (λ o. IsSomeAnd o (λ i. ingested i ≡ to_ingest workers segment watch files)) }
{
    let Some((workers, segment)) = read_counts(found) else {
        return Ok(None);
    };
    let watch = text(found, "watch");
    let Some(files) = texts(alloc, found, "file")? else {
        return Ok(None);
    };
    Ok(Some(IngestWords {
        workers,
        segment,
        watch,
        files,
    }))
}

fn show<'a>(found: &ArgMatches<'a>) -> Option<Command<'a>>
    ensures { IsReading (codes "show") (rows_in found.now) result }
{
    let file = text(found, "file")?;
    Some(Command::Show { file })
}

fn scan<'a>(found: &ArgMatches<'a>) -> Option<Command<'a>>
    ensures { IsReading (codes "scan") (rows_in found.now) result }
{
    let pattern = text(found, "pattern")?;
    let file = text(found, "file")?;
    Some(Command::Scan { pattern, file })
}

fn create<'a>(found: &ArgMatches<'a>) -> Option<Command<'a>>
    ensures { IsReading (codes "create") (rows_in found.now) result }
{
    let header = read_create(found)?;
    Some(Command::Create { header })
}

fn ingest<'a>(alloc: Global, found: &ArgMatches<'a>) -> Result<Option<Command<'a>>, AllocError>
    ensures { IfOk result (IsReading (codes "ingest") (rows_in found.now)) }
{
    match read_ingest(alloc, found)? {
        Some(asked) => Ok(Some(Command::Ingest { asked })),
        None => Ok(None),
    }
}

fn decode<'a>(found: &ArgMatches<'a>) -> Option<Command<'a>>
    ensures { IsReading (codes "decode") (rows_in found.now) result }
{
    let number = number(found, "number", 0, 4_294_967_295)?;
    Some(Command::Decode {
        number: number as u32,
    })
}

fn search<'a>(found: &ArgMatches<'a>) -> Option<Command<'a>>
    ensures { IsReading (codes "search") (rows_in found.now) result }
{
    let asked = read_search(found)?;
    Some(Command::Search { asked })
}

fn count<'a>(found: &ArgMatches<'a>) -> Option<Command<'a>>
    ensures { IsReading (codes "count") (rows_in found.now) result }
{
    let asked = read_count(found)?;
    Some(Command::Count { asked })
}

fn bench<'a>(found: &ArgMatches<'a>) -> Option<Command<'a>>
    ensures { IsReading (codes "bench") (rows_in found.now) result }
{
    let asked = read_bench(found)?;
    Some(Command::Bench { asked })
}

/// The command of this name, with the values that were found for it, and none exactly where they are
/// those of none.
pub(crate) fn read_command<'a>(
    alloc: Global,
    name: &str,
    found: &ArgMatches<'a>,
) -> Result<Option<Command<'a>>, AllocError>
    ensures { IfOk result (IsReading name.now (rows_in found.now)) }
{
    match name {
        "show" => Ok(show(found)),
        "scan" => Ok(scan(found)),
        "create" => Ok(create(found)),
        "ingest" => ingest(alloc, found),
        "files" => Ok(Some(Command::Files)),
        "check" => Ok(Some(Command::Check)),
        "decode" => Ok(decode(found)),
        "search" => Ok(search(found)),
        "count" => Ok(count(found)),
        "merge" => Ok(Some(Command::Merge)),
        "upgrade" => Ok(Some(Command::Upgrade)),
        "bench" => Ok(bench(found)),
        _ => Ok(None),
    }
}
