//! Lines in a window that are one message, joined where they stand.
ghost use Rattle.std.specs.Prelude.{◌≡◌, ◌+◌, ◌*◌, ◌<◌, ◌≤◌, IfOk, IfSome, IfNone, OnErr, length, take, drop};
ghost use Rattle.log_messages.specs.Messages.{IsLine};
ghost use Rattle.log_seams.specs.Outside.{Counts};
ghost use Rattle.line_cut.specs.Joining.{IsTornGroup};
ghost use Rattle.line_cut.specs.Length.{bytes_left};
ghost use Rattle.line_cut.specs.Standing.{EndsAt};
ghost use Rattle.line_cut.specs.StepsJoining.{Growing, IsApart, IsFurther, IsInFront, Reaches};
ghost use Rattle.line_cut.specs.declared.cutter.TheConstants.{MAX_LINE_LEN};

use crate::cutter::MAX_LINE_LEN;
use crate::heads::Heads;
use crate::next_line::{NextLine, next_line};
use crate::window::Window;
use log_seams::{Failed, Source};

/// A message at the front of a window.
#[derive(Clone, Copy)]
pub(crate) struct Joined {
    /// How many bytes it has, without its last newline.
    pub(crate) len: usize,
    /// Whether a newline follows it.
    pub(crate) ended: bool,
    /// How many lines it has.
    pub(crate) lines: u64,
    /// What stands behind it, where that was looked at.
    pub(crate) behind: Option<NextLine>,
}

/// A line that goes on in a group.
#[derive(Clone, Copy)]
pub(crate) struct Further {
    /// How many bytes it has.
    pub(crate) len: usize,
    /// Whether a newline follows it.
    pub(crate) ended: bool,
}

/// The line behind the first `from` bytes, where it goes on in the group before it.
fn further_line<T: Heads>(
    window: &Window,
    heads: &T,
    from: usize,
    next: NextLine,
    max_line: usize,
) -> Option<Further>
    requires within { from ≤ length window.now.held }
    requires reaches { Reaches (length (drop from window.now.held)) next }
    requires from_in { from ≤ max_line + 1 }
    requires limit { max_line ≤ MAX_LINE_LEN }
    ensures goes { IfSome result
        (IsFurther (T.starts heads.now) max_line window.now.held from next) }
    ensures apart { IfNone result
        (IsApart (T.starts heads.now) max_line window.now.held from next) }
{
    let NextLine::Whole { len, ended } = next else {
        return None;
    };
    let ahead = &window.held()[from..];
    if from + len > max_line {
        return None;
    }
    if heads.begins(&ahead[..len]) {
        return None;
    }
    Some(Further { len, ended })
}

/// Joins the lines behind a first one that begins a message and has a newline, as long as they go
/// on in it.
fn join_lines<S: Source, T: Heads>(
    source: &mut S,
    window: &mut Window,
    heads: &T,
    first: usize,
    max_line: usize,
) -> Result<Joined, Failed>
    requires first { Growing (T.starts heads.now) max_line window.old.held first 1 }
    requires room { max_line * 2 + 1 < window.old.size }
    requires limit { max_line ≤ MAX_LINE_LEN }

    // what stays
    ensures left { bytes_left window.new.held (S.left source.new)
        ≡ bytes_left window.old.held (S.left source.old) }
    ensures size { window.new.size ≡ window.old.size }
    ensures name { S.name source.new ≡ S.name source.old }

    // by the answer
    ensures joined { IfOk result
        (IsInFront (T.starts heads.now) max_line window.new.held (S.left source.new)) }
    ensures torn { OnErr result (IsTornGroup (T.starts heads.now) max_line window.new.held) }
    ensures cause { Counts (S.faults source.old) (S.faults source.new) result }
{
    let mut len = first;
    let mut lines = 1;
    'lines: loop {
        let next = next_line(source, window, len + 1, max_line)?;
        let Some(more) = further_line(window, heads, len + 1, next, max_line) else {
            return Ok(Joined {
                len,
                ended: true,
                lines,
                behind: Some(next),
            });
        };
        len += 1 + more.len;
        lines += 1;
        if !more.ended {
            return Ok(Joined {
                len,
                ended: false,
                lines,
                behind: None,
            });
        }
    }
}

/// The message that begins with the first `len` bytes of the window, which are a line. Behind one
/// that does not begin a message by itself each line begins another, and nothing is looked at.
pub(crate) fn message_from<S: Source, T: Heads>(
    source: &mut S,
    window: &mut Window,
    heads: &T,
    len: usize,
    ended: bool,
    max_line: usize,
) -> Result<Joined, Failed>
    requires line { IsLine (take len window.old.held) }
    requires fits { len ≤ max_line }
    requires ends { EndsAt ended len window.old.held (S.left source.old) }
    requires room { max_line * 2 + 1 < window.old.size }
    requires limit { max_line ≤ MAX_LINE_LEN }

    // what stays
    ensures left { bytes_left window.new.held (S.left source.new)
        ≡ bytes_left window.old.held (S.left source.old) }
    ensures size { window.new.size ≡ window.old.size }
    ensures name { S.name source.new ≡ S.name source.old }

    // by the answer
    ensures joined { IfOk result
        (IsInFront (T.starts heads.now) max_line window.new.held (S.left source.new)) }
    ensures torn { OnErr result (IsTornGroup (T.starts heads.now) max_line window.new.held) }
    ensures cause { Counts (S.faults source.old) (S.faults source.new) result }
{
    if ended {
        if heads.begins(&window.held()[..len]) {
            return join_lines(source, window, heads, len, max_line);
        }
    }
    Ok(Joined {
        len,
        ended,
        lines: 1,
        behind: None,
    })
}
