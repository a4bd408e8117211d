//! The program as `clap` is told it: its commands, with their options and words.
//!
//! No argument has a short name, and there is no help and no version: `--help`, `-h`, `help` and
//! `--version` are words like any others.

ghost use Rattle.std.specs.Prelude.{IfOk};
ghost use Rattle.command_words.specs.Built.{IsApp, IsRule, leaf};
ghost use Rattle.command_words.specs.Forms as forms;
ghost use Rattle.command_words.specs.Forms.{clpa};

use clap::{Arg, ArgAction, Command};
use std::alloc::{AllocError, Global};

/// A word that stands there once.
fn word<'a>(alloc: Global, name: &'a str) -> Arg<'a>
    ensures { IsRule result (forms.word name.entry.now) }
{
    Arg::new(alloc, name).required(true)
}

/// One word or more.
fn several<'a>(alloc: Global, name: &'a str) -> Arg<'a>
    ensures { IsRule result (forms.several name.entry.now) }
{
    Arg::new(alloc, name).required(true).num_args(1..)
}

/// An option with a value: `--name value` or `--name=value`.
fn option<'a>(alloc: Global, name: &'a str) -> Arg<'a>
    ensures { IsRule result (forms.option name.entry.now) }
{
    Arg::new(alloc, name).long(name)
}

/// An option with a value, which has to be there.
fn needed<'a>(alloc: Global, name: &'a str) -> Arg<'a>
    ensures { IsRule result (forms.needed name.entry.now) }
{
    Arg::new(alloc, name).long(name).required(true)
}

/// An option without a value: `--name`.
fn flag<'a>(alloc: Global, name: &'a str) -> Arg<'a>
    ensures { IsRule result (forms.flag name.entry.now) }
{
    Arg::new(alloc, name).long(name).action(ArgAction::SetTrue)
}

fn show<'a>(alloc: Global) -> Result<Command<'a>, AllocError>
    ensures { IfOk result (λ c. IsApp c (leaf forms.show)) }
{
    Command::new(alloc, "show").arg(word(alloc, "file"))
}

fn scan<'a>(alloc: Global) -> Result<Command<'a>, AllocError>
    ensures { IfOk result (λ c. IsApp c (leaf forms.scan)) }
{
    Command::new(alloc, "scan")
        .arg(word(alloc, "pattern"))?
        .arg(word(alloc, "file"))
}

fn create<'a>(alloc: Global) -> Result<Command<'a>, AllocError>
    ensures { IfOk result (λ c. IsApp c (leaf forms.create)) }
{
    Command::new(alloc, "create")
        .arg(option(alloc, "format"))?
        .arg(option(alloc, "types"))?
        .arg(option(alloc, "words"))?
        .arg(option(alloc, "bytes"))
}

fn ingest<'a>(alloc: Global) -> Result<Command<'a>, AllocError>
    ensures { IfOk result (λ c. IsApp c (leaf forms.ingest)) }
{
    Command::new(alloc, "ingest")
        .arg(option(alloc, "workers"))?
        .arg(option(alloc, "segment"))?
        .arg(option(alloc, "watch"))?
        .arg(several(alloc, "file"))
}

fn decode<'a>(alloc: Global) -> Result<Command<'a>, AllocError>
    ensures { IfOk result (λ c. IsApp c (leaf forms.decode)) }
{
    Command::new(alloc, "decode").arg(word(alloc, "number"))
}

fn search<'a>(alloc: Global) -> Result<Command<'a>, AllocError>
    ensures { IfOk result (λ c. IsApp c (leaf forms.search)) }
{
    Command::new(alloc, "search")
        .arg(option(alloc, "from"))?
        .arg(option(alloc, "to"))?
        .arg(flag(alloc, "stats"))?
        .arg(option(alloc, "workers"))?
        .arg(word(alloc, "pattern"))
}

fn count<'a>(alloc: Global) -> Result<Command<'a>, AllocError>
    ensures { IfOk result (λ c. IsApp c (leaf forms.count)) }
{
    Command::new(alloc, "count")
        .arg(needed(alloc, "by"))?
        .arg(option(alloc, "from"))?
        .arg(option(alloc, "to"))?
        .arg(flag(alloc, "stats"))?
        .arg(option(alloc, "workers"))?
        .arg(word(alloc, "pattern"))
}

fn bench<'a>(alloc: Global) -> Result<Command<'a>, AllocError>
    ensures { IfOk result (λ c. IsApp c (leaf forms.bench)) }
{
    Command::new(alloc, "bench")
        .arg(word(alloc, "number"))?
        .arg(word(alloc, "lines"))?
        .arg(word(alloc, "workers"))
}

/// The program without its commands.
fn program<'a>(alloc: Global) -> Command<'a>
    ensures { IsApp result (leaf forms.top) }
{
    Command::new(alloc, "clpa")
        .no_binary_name(true)
        .disable_help_flag(true)
        .disable_help_subcommand(true)
        .subcommand_required(true)
}

/// The program with its commands.
pub(crate) fn commands<'a>(alloc: Global) -> Result<Command<'a>, AllocError>
    ensures { IfOk result (λ c. IsApp c clpa) }
{
    program(alloc)
        .subcommand(show(alloc)?)?
        .subcommand(scan(alloc)?)?
        .subcommand(create(alloc)?)?
        .subcommand(ingest(alloc)?)?
        .subcommand(Command::new(alloc, "files"))?
        .subcommand(Command::new(alloc, "check"))?
        .subcommand(decode(alloc)?)?
        .subcommand(search(alloc)?)?
        .subcommand(count(alloc)?)?
        .subcommand(Command::new(alloc, "merge"))?
        .subcommand(Command::new(alloc, "upgrade"))?
        .subcommand(bench(alloc)?)
}
