//! What stands behind some bytes of a window.
ghost use Rattle.std.specs.Prelude.{◌≡◌, ◌+◌, ◌<◌, ◌≤◌, IfOk, IfSome, OnErr, None, length, take, drop};
ghost use Rattle.log_messages.specs.Messages.{IsLine};
ghost use Rattle.log_seams.specs.Outside.{Counts};
ghost use Rattle.line_cut.specs.Length.{bytes_left};
ghost use Rattle.line_cut.specs.Standing.{Stands};

use crate::find_end::{LineEnd, find_end};
use crate::window::Window;
use log_seams::{Failed, Source};

/// What stands behind some bytes of a window.
#[derive(Clone, Copy)]
pub(crate) enum NextLine {
    /// A line of so many bytes, and whether a newline follows it. Only the last can be without.
    Whole { len: usize, ended: bool },
    /// The end of the input.
    Nothing,
    /// A line above the limit.
    TooLong,
}

/// Looks at what stands behind the first `from` bytes of the window, and reads more where the end
/// of its line is not there. The bytes that were held stay in front.
pub(crate) fn next_line<S: Source>(
    source: &mut S,
    window: &mut Window,
    from: usize,
    max_line: usize,
) -> Result<NextLine, Failed>
    requires within { from ≤ length window.old.held }
    requires room { from + max_line < window.old.size }

    // what stays
    ensures front { take (length window.old.held) window.new.held ≡ window.old.held }
    ensures more { length window.old.held ≤ length window.new.held }
    ensures left { bytes_left window.new.held (S.left source.new)
        ≡ bytes_left window.old.held (S.left source.old) }
    ensures size { window.new.size ≡ window.old.size }
    ensures name { S.name source.new ≡ S.name source.old }

    // by the answer
    ensures stands { IfOk result (Stands max_line (drop from window.new.held) (S.left source.new)) }
    ensures open { OnErr result (IsLine (drop from window.new.held)) }
    ensures short { OnErr result (length (drop from window.new.held) ≤ max_line) }
    ensures cause { Counts (S.faults source.old) (S.faults source.new) result }
{
    match find_end(source, window, from, max_line)? {
        LineEnd::Newline { len } => Ok(NextLine::Whole { len, ended: true }),
        LineEnd::EndOfInput => match window.held().len() - from {
            0 => Ok(NextLine::Nothing),
            len => Ok(NextLine::Whole { len, ended: false }),
        },
        LineEnd::TooLong => Ok(NextLine::TooLong),
    }
}

/// The line at the front of the window. Where it was looked at before, `behind` says what was
/// found, and nothing is read.
pub(crate) fn first_line<S: Source>(
    source: &mut S,
    window: &mut Window,
    behind: Option<NextLine>,
    max_line: usize,
) -> Result<NextLine, Failed>
    requires room { max_line < window.old.size }
    requires known { IfSome behind (Stands max_line window.old.held (S.left source.old)) }

    // what stays
    ensures left { bytes_left window.new.held (S.left source.new)
        ≡ bytes_left window.old.held (S.left source.old) }
    ensures size { window.new.size ≡ window.old.size }
    ensures name { S.name source.new ≡ S.name source.old }

    // by the answer
    ensures stands { IfOk result (Stands max_line window.new.held (S.left source.new)) }
    ensures unknown { OnErr result (behind ≡ None) }
    ensures open { OnErr result (IsLine window.new.held) }
    ensures short { OnErr result (length window.new.held ≤ max_line) }
    ensures cause { Counts (S.faults source.old) (S.faults source.new) result }
{
    match behind {
        Some(next) => Ok(next),
        None => next_line(source, window, 0, max_line),
    }
}
