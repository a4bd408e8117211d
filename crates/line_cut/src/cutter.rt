//! The lines of a source, one at a time.
ghost use Rattle.std.specs.Prelude.{◌≡◌, ◌≢◌, ◌+◌, ◌<◌, ◌≤◌, [], length, take, drop, IfOk, IfErr, IfSome, IfNone, IsErrOf};
ghost use Rattle.log_seams.specs.Outside.{CountsOf, Rose};
ghost use Rattle.line_cut.specs.Cutting.{CameToEnd, Gave, IsNew, RefusedBy, Repeats, Stays, left_of, without_line};
ghost use Rattle.line_cut.specs.StepsLooking.{Sees, at_line, newline_len};
ghost use Rattle.line_cut.specs.declared.look.Looked.{Looked};
ghost use Rattle.line_cut.specs.declared.cut.Cut.{Cut};
ghost use Rattle.line_cut.specs.declared.cut.Progress.{Progress};

use crate::cut::{Cut, CutterRefused, Mark, Piece, Progress};
use crate::look::{Looked, look};
use crate::window::{READ_SIZE, Window, let_go};
use log_seams::Source;
use plain_list::Text;
use std::alloc::{AllocError, Global};
use std::marker::Model;

/// The most bytes that a line may have without its newline.
pub const MAX_LINE_LEN: usize = 1_048_576;

/// Gives the lines of a source in order, and after them the end or a refusal.
#[derive(Drop)]
pub struct Cutter<S> {
    alloc: Global,
    source: S,
    window: Window,
    /// How many bytes at the front of the window are the line that was given last.
    line: usize,
    /// How many bytes they are with its newline.
    step: usize,
    given: u64,
    max_line: usize,
    max_lines: u64,
    progress: Progress,
}

impl<S> Model for Cutter<S> {
    ghost use Rattle.std.specs.Prelude.{◌<◌, ◌≤◌, drop, length, take};
    ghost use Rattle.line_cut.specs.Cutting.{CutterState};
    ghost use Rattle.line_cut.specs.declared.cutter.TheConstants.{MAX_LINE_LEN};

    ghost Value = { CutterState S };

    ghost view = { λ c. record {
      source = c.source;
      pending = drop c.step c.window.held;
      line = take c.line c.window.held;
      given = c.given;
      max_line = c.max_line;
      max_lines = c.max_lines;
      room = c.window.size;
      progress = c.progress;
    } };

    ghost invariant = { λ c. (c.line ≤ c.step) × (c.step ≤ length c.window.held)
        × (c.max_line < c.window.size)
        × (c.max_line ≤ MAX_LINE_LEN) × (c.given ≤ c.max_lines) };
}

impl<S: Source> Cutter<S> {
    /// A cutter that gives the lines of a source, at most `max_lines` of them, each of at most
    /// `max_line` bytes without its newline. `max_line` is from 1 to `MAX_LINE_LEN`.
    ///
    /// It takes all the memory that `advance` needs. Where there is none the source is handed
    /// back.
    pub fn new(
        alloc: Global,
        source: S,
        max_line: usize,
        max_lines: u64,
    ) -> Result<Cutter<S>, CutterRefused<S>>
        requires least { 1 ≤ max_line }
        requires most { max_line ≤ MAX_LINE_LEN }
        ensures fresh { IfOk result (IsNew source max_line max_lines) }
        ensures refused { IfErr result (λ r. r.source ≡ source) }
    {
        // room for the longest line, and behind its front for one read
        let Ok(window) = Window::new(alloc, max_line + READ_SIZE) else {
            return Err(CutterRefused { source });
        };
        Ok(Cutter {
            alloc,
            source,
            window,
            line: 0,
            step: 0,
            given: 0,
            max_line,
            max_lines,
            progress: Progress::Open,
        })
    }

    /// Looks for the next line, and leaves it where it is. Lets go of the line before.
    fn look_ahead(&mut self) -> Looked
        ensures line { self.new.line ≡ [] }
        ensures after_end { self.old.progress ≡ Progress.Ended → (result ≡ Looked.End)
            × (self.new ≡ without_line self.old) }
        ensures after_refusal { (e : Cut) → self.old.progress ≡ Progress.Refused e
            → (result ≡ Looked.Refused e) × (self.new ≡ without_line self.old) }
        ensures sees { self.old.progress ≡ Progress.Open
            → Sees (record {
              given = self.old.given;
              max_line = self.old.max_line;
              max_lines = self.old.max_lines;
            })
            self.new.pending (S.left self.new.source)
            (Rose (S.faults self.old.source) (S.faults self.new.source)) result }
        ensures steady { result ≢ Looked.Refused Cut.ReadFault
            → S.faults self.new.source ≡ S.faults self.old.source }

        // what stays
        ensures left { left_of S.left self.new ≡ left_of S.left self.old }
        ensures given { self.new.given ≡ self.old.given }
        ensures progress { self.new.progress ≡ self.old.progress }
        ensures stays { Stays S.name S.faults self.old self.new }
    {
        let_go(&mut self.window, &mut self.line, &mut self.step);
        match self.progress {
            Progress::Open => look(
                &mut self.source,
                &mut self.window,
                self.given,
                self.max_line,
                self.max_lines,
            ),
            Progress::Ended => Looked::End,
            Progress::Refused(cut) => Looked::Refused(cut),
        }
    }

    /// Comes to the line of the next `len` bytes, and whether a newline follows it.
    fn come_to(&mut self, len: usize, ended: bool)
        requires within { len + newline_len ended ≤ length self.old.pending }
        requires fits { len ≤ self.old.max_line }
        requires room { self.old.given < self.old.max_lines }
        ensures { self.new ≡ at_line len ended self.old }
    {
        // behind `look_ahead` this skips nothing; here it is what puts the line at the window's front
        self.window.consume(self.step);
        self.line = len;
        self.step = len + usize::from(ended);
        self.given += 1;
        self.progress = if ended {
            Progress::Open
        } else {
            Progress::Ended
        };
    }

    /// Goes on to the next line, whose bytes `line` then lends.
    ///
    /// `Ok(None)` is the end of the input; it comes after the last line, and from then on. A line
    /// that is too long is refused once more bytes of it were taken than the limit, and a line
    /// after `max_lines` of them at its first byte. Where a read failed the bytes that were
    /// taken and not given hold no newline, and behind `max_lines` lines there are none. After an
    /// error the same error comes from then on, and nothing is read.
    pub fn advance(&mut self) -> Result<Option<Mark>, Cut>
        // by the answer
        ensures line { IfOk result
            (λ o. IfSome o (λ m. Gave S.left m.ended self.new.line self.old self.new)) }
        ensures at_end { IfOk result (λ o. IfNone o (CameToEnd S.left self.old self.new)) }
        ensures again { Repeats self.old.progress self.old self.new result }

        // causes
        ensures refused { IfErr result (RefusedBy S.left S.faults self.old self.new) }
        ensures memory { IsErrOf result Cut.OutOfMemory → self.old.progress ≢ Progress.Open }
        ensures counts { self.old.progress ≡ Progress.Open
            → CountsOf Cut.ReadFault (S.faults self.old.source) (S.faults self.new.source) result }

        // what stays
        ensures stays { Stays S.name S.faults self.old self.new }
    {
        match self.look_ahead() {
            Looked::Line { len, ended } => {
                self.come_to(len, ended);
                Ok(Some(Mark { ended }))
            }
            Looked::End => {
                self.progress = Progress::Ended;
                Ok(None)
            }
            Looked::Refused(cut) => {
                self.progress = Progress::Refused(cut);
                Err(cut)
            }
        }
    }

    /// A copy of the next `len` bytes, which are not yet given.
    fn copy_ahead(&self, len: usize) -> Result<Text, AllocError>
        requires { len ≤ length self.now.pending }
        ensures { IfOk result (λ text. text ≡ take len self.now.pending) }
    {
        let ahead = &self.window.held()[self.step..];
        Ok(Text::new(ahead[..len].to_vec(self.alloc)?))
    }

    /// Goes on to the next line, and gives a copy of it; the answers are those of `advance`.
    ///
    /// It takes memory for the copy alone. Where there is none the line is not given, and the
    /// same error comes from then on.
    pub fn next(&mut self) -> Result<Option<Piece>, Cut>
        // by the answer
        ensures piece { IfOk result
            (λ o. IfSome o (λ p. Gave S.left p.ended p.line self.old self.new)) }
        ensures line { IfOk result (λ o. IfSome o (λ p. self.new.line ≡ p.line)) }
        ensures at_end { IfOk result (λ o. IfNone o (CameToEnd S.left self.old self.new)) }
        ensures again { Repeats self.old.progress self.old self.new result }

        // causes
        ensures refused { IfErr result (RefusedBy S.left S.faults self.old self.new) }
        ensures counts { self.old.progress ≡ Progress.Open
            → CountsOf Cut.ReadFault (S.faults self.old.source) (S.faults self.new.source) result }

        // what stays
        ensures stays { Stays S.name S.faults self.old self.new }
    {
        match self.look_ahead() {
            Looked::Line { len, ended } => {
                let Ok(line) = self.copy_ahead(len) else {
                    self.progress = Progress::Refused(Cut::OutOfMemory);
                    return Err(Cut::OutOfMemory);
                };
                self.come_to(len, ended);
                Ok(Some(Piece { line, ended }))
            }
            Looked::End => {
                self.progress = Progress::Ended;
                Ok(None)
            }
            Looked::Refused(cut) => {
                self.progress = Progress::Refused(cut);
                Err(cut)
            }
        }
    }

    /// The bytes of the line that `advance` came to, without its newline. They stay until the
    /// next call of `advance` or `next`. Where there is no line they are empty.
    pub fn line(&self) -> &[u8]
        ensures { result.now ≡ self.now.line }
    {
        &self.window.held()[..self.line]
    }

    /// The source, with the bytes that it was not asked for.
    pub fn into_source(self) -> S
        ensures { result ≡ self.source }
    {
        let Cutter {
            alloc: _,
            source,
            window: _,
            line: _,
            step: _,
            given: _,
            max_line: _,
            max_lines: _,
            progress: _,
        } = self;
        source
    }
}
