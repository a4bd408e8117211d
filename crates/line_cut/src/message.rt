//! What message comes next in a window.
ghost use Rattle.std.specs.Prelude.{◌≡◌, ◌≢◌, ◌+◌, ◌*◌, ◌<◌, ◌≤◌, IfSome};
ghost use Rattle.log_seams.specs.Outside.{Rose};
ghost use Rattle.line_cut.specs.Length.{bytes_left};
ghost use Rattle.line_cut.specs.Standing.{Stands};
ghost use Rattle.line_cut.specs.StepsJoining.{Finds};
ghost use Rattle.line_cut.specs.declared.cut.Cut.{Cut};
ghost use Rattle.line_cut.specs.declared.cutter.TheConstants.{MAX_LINE_LEN};
ghost use Rattle.line_cut.specs.declared.message.Seen.{Seen};

use crate::cut::Cut;
use crate::cutter::MAX_LINE_LEN;
use crate::heads::Heads;
use crate::join::{Joined, message_from};
use crate::next_line::{NextLine, first_line};
use crate::window::Window;
use log_seams::{Failed, Source};

/// What message comes next in a window.
#[derive(Clone, Copy)]
pub(crate) enum Seen {
    /// A message that can be given.
    Message(Joined),
    /// The end of the input.
    End,
    /// A refusal, and nothing that is given.
    Refused(Cut),
}

/// Looks for the message at the front of the window, whose first line has the number `number`.
/// `behind` says what is known of this line, and `may_give` whether a message may be given.
pub(crate) fn look_for_message<S: Source, T: Heads>(
    source: &mut S,
    window: &mut Window,
    heads: &T,
    behind: Option<NextLine>,
    number: u64,
    max_line: usize,
    may_give: bool,
) -> Seen
    requires room { max_line * 2 + 1 < window.old.size }
    requires limit { max_line ≤ MAX_LINE_LEN }
    requires known { IfSome behind (Stands max_line window.old.held (S.left source.old)) }
    ensures finds { Finds (T.starts heads.now) number max_line may_give behind
        window.new.held (S.left source.new)
        (Rose (S.faults source.old) (S.faults source.new)) result }
    ensures steady { result ≢ Seen.Refused Cut.ReadFault
        → S.faults source.new ≡ S.faults source.old }

    // what stays
    ensures left { bytes_left window.new.held (S.left source.new)
        ≡ bytes_left window.old.held (S.left source.old) }
    ensures size { window.new.size ≡ window.old.size }
    ensures name { S.name source.new ≡ S.name source.old }
    ensures later { S.faults source.old ≤ S.faults source.new }
{
    let (len, ended) = match first_line(source, window, behind, max_line) {
        Ok(NextLine::Whole { len, ended }) => (len, ended),
        Ok(NextLine::Nothing) => return Seen::End,
        Ok(NextLine::TooLong) => return Seen::Refused(Cut::LineTooLong { line: number }),
        Err(Failed) => return Seen::Refused(Cut::ReadFault),
    };
    // only now: a line's length is tested before the number of messages
    if !may_give {
        return Seen::Refused(Cut::TooManyLines);
    }
    match message_from(source, window, heads, len, ended, max_line) {
        Ok(joined) => Seen::Message(joined),
        Err(Failed) => Seen::Refused(Cut::ReadFault),
    }
}
