//! The commands `show` and `scan`.
ghost use Rattle.std.specs.Prelude.{◌≡◌, ◌<◌, ℕ, List, IfOk, IfErr};
ghost use Rattle.wild_match.specs.Reading.{IsLoneBackslash, IsSearchPattern};
ghost use Rattle.wild_match.specs.declared.pattern.Item.{Item};
ghost use Rattle.command_refusals.specs.Outside.{around};
ghost use Rattle.command_refusals.specs.Ending.{IsPatternRefusal, RefusesPattern};
ghost use Rattle.command_refusals.specs.GoesOn.{OutsideGoesOn};
ghost use Rattle.command_answers.specs.Answers.{AnswersLog};
ghost use Rattle.command_answers.specs.Printing.{OneFailed};
ghost use Rattle.command_answers.specs.Scanned.{Finds};
ghost use Rattle.command_answers.specs.Shown.{Shows};

use crate::found_text::Scan;
use crate::log::print_log;
use crate::message_text::MessageText;
use crate::shown_text::Show;
use command_refusals::{answer, refusal_of_log, refusal_of_pattern, report};
use log_seams::{Shelf, Sink};
use std::alloc::Global;
use wild_match::{Matcher, PatternRefusal, read_pattern};

/// Prints each message of a log with its variables in braces, and answers the status.
pub fn show<H: Shelf, K: Sink>(
    alloc: Global,
    file: &str,
    shelf: &mut H,
    out: &mut K,
    err: &mut K,
) -> u8
    ensures answers { AnswersLog (λ _ message text. Shows message text)
        (around H.content H.unread H.open_faults H.read_faults K.written K.faults
        shelf.old shelf.new out.old out.new err.old err.new)
        file.now result }
    ensures one_failed { H.read_faults shelf.old file.now < H.read_faults shelf.new file.now
        → OneFailed H.Src.left H.Src.faults (H.unread shelf.new file.now)
        (H.read_faults shelf.old file.now) (H.read_faults shelf.new file.now) }
    ensures outside { OutsideGoesOn
        (around H.content H.unread H.open_faults H.read_faults K.written K.faults
        shelf.old shelf.new out.old out.new err.old err.new) }
    ensures logs { (n : List ℕ) → H.content shelf.new n ≡ H.content shelf.old n }
{
    print_and_report(alloc, &Show { alloc }, shelf, file, out, err)
}

/// Prints the messages of a log that the pattern of a text matches.
pub fn scan<H: Shelf, K: Sink>(
    alloc: Global,
    pattern: &str,
    file: &str,
    shelf: &mut H,
    out: &mut K,
    err: &mut K,
) -> u8
    ensures lone { (at : ℕ) → IsLoneBackslash pattern.now at
        → RefusesPattern
        (around H.content H.unread H.open_faults H.read_faults K.written K.faults
        shelf.old shelf.new out.old out.new err.old err.new)
        result at }
    ensures good { (items : List Item) → IsSearchPattern pattern.now items
        → AnswersLog (Finds file.now items)
        (around H.content H.unread H.open_faults H.read_faults K.written K.faults
        shelf.old shelf.new out.old out.new err.old err.new)
        file.now result }
    ensures one_failed { H.read_faults shelf.old file.now < H.read_faults shelf.new file.now
        → OneFailed H.Src.left H.Src.faults (H.unread shelf.new file.now)
        (H.read_faults shelf.old file.now) (H.read_faults shelf.new file.now) }
    ensures outside { OutsideGoesOn
        (around H.content H.unread H.open_faults H.read_faults K.written K.faults
        shelf.old shelf.new out.old out.new err.old err.new) }
    ensures logs { (n : List ℕ) → H.content shelf.new n ≡ H.content shelf.old n }
{
    match read_matcher(alloc, pattern) {
        Ok(matcher) => {
            let scan = Scan {
                name: file,
                matcher: &matcher,
            };
            print_and_report(alloc, &scan, shelf, file, out, err)
        }
        Err(refusal) => report(err, file, refusal_of_pattern(refusal)),
    }
}

/// Prints the messages of a log as `teller` says, and answers the status.
fn print_and_report<H: Shelf, K: Sink, T: MessageText>(
    alloc: Global,
    teller: &T,
    shelf: &mut H,
    name: &str,
    out: &mut K,
    err: &mut K,
) -> u8
    ensures answers { AnswersLog (T.tells teller.now)
        (around H.content H.unread H.open_faults H.read_faults K.written K.faults
        shelf.old shelf.new out.old out.new err.old err.new)
        name.now result }
    ensures one_failed { H.read_faults shelf.old name.now < H.read_faults shelf.new name.now
        → OneFailed H.Src.left H.Src.faults (H.unread shelf.new name.now)
        (H.read_faults shelf.old name.now) (H.read_faults shelf.new name.now) }
    ensures outside { OutsideGoesOn
        (around H.content H.unread H.open_faults H.read_faults K.written K.faults
        shelf.old shelf.new out.old out.new err.old err.new) }
    ensures logs { (n : List ℕ) → H.content shelf.new n ≡ H.content shelf.old n }
{
    let outcome = print_log(alloc, teller, shelf, name, out);
    answer(refusal_of_log(outcome), name, err)
}

/// The pattern of a text, made ready for many messages.
fn read_matcher(alloc: Global, text: &str) -> Result<Matcher, PatternRefusal>
    ensures items { IfOk result (λ m. IsSearchPattern text.now m.items) }
    ensures refused { IfErr result (IsPatternRefusal text.now) }
{
    let pattern = read_pattern(alloc, text.as_bytes())?;
    match Matcher::new(alloc, &pattern) {
        Ok(matcher) => Ok(matcher),
        Err(_) => Err(PatternRefusal::OutOfMemory),
    }
}
