//! The reading of the words.
ghost use Rattle.std.specs.Prelude.{◌≡◌, ◌≢◌, [], false, IfErr, IfOk, map, option_map, string_bytes};
ghost use Rattle.clap.specs.Words.{fault_of, kind_of, subcommand_of, subcommand_rows_of, takes};
ghost use Rattle.command_words.specs.Asked.{AreTaken, Asked, Asks, HaveGoodValues, IsAnswer, IsFound, IsInRange, asked_by, refusal_by, rows_in};
ghost use Rattle.command_words.specs.Forms.{clpa};
ghost use Rattle.command_words.specs.declared.command.WordsRefusal.TheVariants.{OutOfMemory, Usage};

use crate::command::{Command, WordsRefusal};
use crate::form::commands;
use crate::found::read_command;
use clap::error::ErrorKind;
use clap::{ArgMatches, Error};
use std::alloc::Global;

/// Why `clap` refused the words.
fn refusal_of(error: &Error) -> WordsRefusal
    ensures { result ≡ refusal_by (kind_of error.now) }
{
    match error.kind() {
        ErrorKind::OutOfMemory => WordsRefusal::OutOfMemory,
        _ => WordsRefusal::Usage,
    }
}

/// What `clap` finds in the words.
fn parse<'a>(alloc: Global, words: &'a [String]) -> Result<ArgMatches<'a>, WordsRefusal>
    ensures good { IfOk result (λ m. fault_of clpa (map string_bytes words.entry.now) ≡ []) }
    ensures found { IfOk result (λ m.
        subcommand_rows_of m ≡ subcommand_of clpa (map string_bytes words.entry.now)) }
    ensures usage { IfErr result (λ r. r ≡ Usage
        → fault_of clpa (map string_bytes words.entry.now) ≢ []) }
    ensures taken { IfErr result (λ r. r ≡ Usage
        → takes clpa (map string_bytes words.entry.now) ≡ false) }
{
    let program = commands(alloc)?;
    match program.try_get_matches_from(words) {
        Ok(matches) => Ok(matches),
        Err(error) => Err(refusal_of(&error)),
    }
}

/// The name of the command, and what was found for it.
fn entered<'m, 'a>(matches: &'m ArgMatches<'a>) -> Option<(&'a str, &'m ArgMatches<'a>)>
    ensures { option_map (λ p. (p.0.now, rows_in p.1.now)) result
        ≡ subcommand_rows_of matches.now }
{
    matches.subcommand()
}

/// The command that was found.
fn read_found<'a>(alloc: Global, matches: &ArgMatches<'a>) -> Result<Command<'a>, WordsRefusal>
    ensures asked { IfOk result (λ c. IsFound (subcommand_rows_of matches.now) (asked_by c)) }
    ensures all { (a : Asked) → IsFound (subcommand_rows_of matches.now) a → IsAnswer a result }
{
    let Some((name, found)) = entered(matches) else {
        return Err(WordsRefusal::Usage);
    };
    match read_command(alloc, name, found)? {
        Some(command) => Ok(command),
        None => Err(WordsRefusal::Usage),
    }
}

/// The command that the words ask for.
///
/// The first word is the command. An option is one word `--name=value` or two words `--name value`,
/// and `--stats` is a flag; each comes once at most, before or after the other words. A value that
/// begins with `-` is written behind `=`. After the word `--` no word is an option. A number is
/// written in decimal, without a needless zero, with a sign only where it is below zero.
///
/// `Usage` comes only where `clap` refuses the words for another cause than memory, or where a
/// number is not written so or is outside its range, or where there is nothing that the word of
/// `--by` names; every other refusal is want of memory.
pub fn read_words<'a>(alloc: Global, words: &'a [String]) -> Result<Command<'a>, WordsRefusal>
    ensures asked { IfOk result (λ c. Asks (map string_bytes words.entry.now) (asked_by c)) }
    ensures range { IfOk result (λ c. IsInRange (asked_by c)) }
    ensures all { (a : Asked) → Asks (map string_bytes words.entry.now) a → IsAnswer a result }
    ensures taken { AreTaken (map string_bytes words.entry.now)
        → HaveGoodValues (map string_bytes words.entry.now)
        → IfErr result (λ r. r ≡ OutOfMemory) }
{
    let matches = parse(alloc, words)?;
    read_found(alloc, &matches)
}
