//! Where a line in a window ends.
ghost use Rattle.std.specs.Prelude.{◌≡◌, ◌+◌, ◌<◌, ◌≤◌, IfOk, OnErr, length, take, drop};
ghost use Rattle.log_messages.specs.Messages.{IsLine};
ghost use Rattle.log_seams.specs.Outside.{Counts};
ghost use Rattle.line_cut.specs.Length.{bytes_left};
ghost use Rattle.line_cut.specs.StepsLooking.{Found};

use crate::window::Window;
use log_seams::{Failed, Source};
use memchr::memchr;

/// What a line in a window ends with.
#[derive(Clone, Copy)]
pub(crate) enum LineEnd {
    /// A newline behind so many bytes.
    Newline { len: usize },
    /// The end of the input, behind all the bytes that are held.
    EndOfInput,
    /// Nothing within the limit.
    TooLong,
}

/// Finds the end of the line that begins behind the first `from` bytes of the window, and reads
/// more where it is not there. The bytes that were held stay in front.
pub(crate) fn find_end<S: Source>(
    source: &mut S,
    window: &mut Window,
    from: usize,
    max_line: usize,
) -> Result<LineEnd, Failed>
    requires within { from ≤ length window.old.held }
    requires room { from + max_line < window.old.size }

    // what stays
    ensures front { take (length window.old.held) window.new.held ≡ window.old.held }
    ensures more { length window.old.held ≤ length window.new.held }
    ensures left { bytes_left window.new.held (S.left source.new)
        ≡ bytes_left window.old.held (S.left source.old) }
    ensures size { window.new.size ≡ window.old.size }
    ensures name { S.name source.new ≡ S.name source.old }

    // by the answer
    ensures found { IfOk result (Found max_line (drop from window.new.held) (S.left source.new)) }
    ensures open { OnErr result (IsLine (drop from window.new.held)) }
    ensures short { OnErr result (length (drop from window.new.held) ≤ max_line) }
    ensures cause { Counts (S.faults source.old) (S.faults source.new) result }
{
    let mut searched = 0;
    'reads: loop {
        let ahead = &window.held()[from..];
        if let Some(more) = memchr(b'\n', &ahead[searched..]) {
            let len = searched + more;
            return Ok(if len <= max_line {
                LineEnd::Newline { len }
            } else {
                LineEnd::TooLong
            });
        }
        searched = ahead.len();
        if searched > max_line {
            return Ok(LineEnd::TooLong);
        }
        if window.fill_buf(source)? == 0 {
            return Ok(LineEnd::EndOfInput);
        }
    }
}
