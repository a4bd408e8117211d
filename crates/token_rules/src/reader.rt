//! The tokens of a text in order, by windows.
ghost use Rattle.token_rules.specs.StepsOfWindows.{Shows};

use crate::run::{read_run, skip};
use crate::tokens::Token;
use crate::window::{Window, over};

/// A text whose tokens are read in order, 64 bytes at a time.
#[derive(Clone, Copy)]
pub struct TokenReader<'b> {
    body: &'b [u8],
    window: Window,
    ghost shows: { Shows body.now window },
}

impl<'b> TokenReader<'b> {
    ghost use Rattle.std.specs.Prelude.{◌≡◌, ◌≤◌, ◌↔◌, length, IsTrue, IfSome, IsNone};
    ghost use Rattle.token_rules.specs.Reading.{body_of};
    ghost use Rattle.token_rules.specs.Tokens.{IsOutside, IsToken, IsVariableAt, OnlyDelimiters};

    /// A reader of this text.
    pub fn new(body: &'b [u8]) -> TokenReader<'b>
        ensures { body_of result ≡ body.now }
    {
        TokenReader {
            body,
            window: over(body, 0),
        }
    }

    /// The first token from the place `from` on, which must not stand inside a token; `None` exactly
    /// where only delimiters are left. It is that of [`next_token`](crate::next_token).
    #[inline]
    pub fn next_from(&mut self, from: usize) -> Option<Token>
        requires in_range { from ≤ length (body_of self.old) }
        requires outside { IsOutside (body_of self.old) from }
        ensures body { body_of self.new ≡ body_of self.old }
        ensures first { IfSome result
            (λ t. (from ≤ t.start) × OnlyDelimiters (body_of self.old) from t.start) }
        ensures token { IfSome result (λ t. IsToken (body_of self.old) t.start t.end) }
        ensures variable { IfSome result
            (λ t. IsTrue t.variable ↔ IsVariableAt (body_of self.old) t.start t.end) }
        ensures none { IsNone result
            ↔ OnlyDelimiters (body_of self.old) from (length (body_of self.old)) }
    {
        let body = self.body;
        let start = skip(body, &mut self.window, from);
        if start == body.len() {
            return None;
        }
        let run = read_run(body, &mut self.window, start);
        let after_equals = start > 0 && body[start - 1] == b'=';
        Some(Token {
            start,
            end: run.end,
            variable: run.is_variable(run.end - start, after_equals),
        })
    }
}
