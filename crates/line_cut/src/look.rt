//! What comes next in a window.
ghost use Rattle.std.specs.Prelude.{◌≡◌, ◌≢◌, ◌<◌, ◌≤◌, [], length, IfOk, IfSome, IsTrue, IsFalse, OnErr};
ghost use Rattle.log_seams.specs.Outside.{Counts, Rose};
ghost use Rattle.line_cut.specs.Length.{bytes_left};
ghost use Rattle.line_cut.specs.StepsLooking.{Sees};
ghost use Rattle.line_cut.specs.declared.cut.Cut.{Cut};
ghost use Rattle.line_cut.specs.declared.look.Looked.{Looked};

use crate::cut::Cut;
use crate::find_end::{LineEnd, find_end};
use crate::window::Window;
use log_seams::{Failed, Source};

/// What comes next in a window.
#[derive(Clone, Copy)]
pub(crate) enum Looked {
    /// What can be given next, of so many bytes, and whether a newline follows. Only the last can
    /// be without.
    Line { len: usize, ended: bool },
    /// The end of the input.
    End,
    /// A refusal, and nothing that is given.
    Refused(Cut),
}

/// Whether the window holds a byte, after a read where it holds none.
fn any_left<S: Source>(source: &mut S, window: &mut Window) -> Result<bool, Failed>
    requires { 0 < window.old.size }

    // what stays
    ensures left { bytes_left window.new.held (S.left source.new)
        ≡ bytes_left window.old.held (S.left source.old) }
    ensures size { window.new.size ≡ window.old.size }
    ensures name { S.name source.new ≡ S.name source.old }

    // by the answer
    ensures some { IfOk result (λ any. IsTrue any → 0 < length window.new.held) }
    ensures none { IfOk result
        (λ any. IsFalse any → (window.new.held ≡ [])
        × IfSome (S.left source.new) (λ rest. rest ≡ [])) }
    ensures failed { OnErr result (window.new.held ≡ []) }
    ensures cause { Counts (S.faults source.old) (S.faults source.new) result }
{
    if !window.held().is_empty() {
        return Ok(true);
    }
    Ok(window.fill_buf(source)? > 0)
}

/// Looks for the line at the front of the window, behind `given` lines.
pub(crate) fn look<S: Source>(
    source: &mut S,
    window: &mut Window,
    given: u64,
    max_line: usize,
    max_lines: u64,
) -> Looked
    requires size { max_line < window.old.size }
    requires count { given ≤ max_lines }
    ensures sees { Sees
        (record { given = given; max_line = max_line; max_lines = max_lines }) window.new.held
        (S.left source.new) (Rose (S.faults source.old) (S.faults source.new)) result }
    ensures steady { result ≢ Looked.Refused Cut.ReadFault
        → S.faults source.new ≡ S.faults source.old }

    // what stays
    ensures left { bytes_left window.new.held (S.left source.new)
        ≡ bytes_left window.old.held (S.left source.old) }
    ensures size { window.new.size ≡ window.old.size }
    ensures name { S.name source.new ≡ S.name source.old }
    ensures later { S.faults source.old ≤ S.faults source.new }
{
    // behind the last line that may be given one byte decides, before the length of its line
    if given == max_lines {
        return match any_left(source, window) {
            Ok(true) => Looked::Refused(Cut::TooManyLines),
            Ok(false) => Looked::End,
            Err(Failed) => Looked::Refused(Cut::ReadFault),
        };
    }
    match find_end(source, window, 0, max_line) {
        Ok(LineEnd::Newline { len }) => Looked::Line { len, ended: true },
        Ok(LineEnd::EndOfInput) => match window.held().len() {
            0 => Looked::End,
            len => Looked::Line { len, ended: false },
        },
        Ok(LineEnd::TooLong) => Looked::Refused(Cut::LineTooLong { line: given + 1 }),
        Err(Failed) => Looked::Refused(Cut::ReadFault),
    }
}
