//! A line in the making, in memory of its own.
ghost use Rattle.std.specs.Prelude.{◌≡◌, ◌+◌, ◌<◌, ◌≤◌, ◌++◌, [], length};
ghost use Rattle.generated_logs.specs.Logs.{three_digits, two_digits};

use std::marker::Model;

/// How many bytes a line may have; 59 are the most.
const ROOM: usize = 64;

/// The bytes of a line.
#[derive(Debug, Drop)]
pub(crate) struct Line {
    room: [u8; ROOM],
    len: usize,
}

impl Model for Line {
    ghost use Rattle.std.specs.Prelude.{◌≤◌, List, ℕ, take};

    ghost Value = { List ℕ };

    ghost view = { λ l. take l.len l.room };

    ghost invariant = { λ l. l.len ≤ 64 };
}

impl Line {
    /// A line without bytes.
    pub(crate) fn new() -> Line
        ensures { result ≡ [] }
    {
        Line {
            room: [0; ROOM],
            len: 0,
        }
    }

    /// Its bytes.
    pub(crate) fn as_slice(&self) -> &[u8]
        ensures { result.now ≡ self.now }
    {
        &self.room[..self.len]
    }

    /// Adds a text.
    pub(crate) fn push(&mut self, text: &[u8])
        requires { length self.old + length text.now ≤ 64 }
        ensures { self.new ≡ self.old ++ text.now }
    {
        let end = self.len + text.len();
        self.room[self.len..end].copy_from_slice(text);
        self.len = end;
    }

    /// Adds two digits.
    pub(crate) fn push_two(&mut self, number: u32)
        requires small { number < 100 }
        requires room { length self.old + 2 ≤ 64 }
        ensures { self.new ≡ self.old ++ two_digits number }
    {
        self.push(&[b'0' + (number / 10) as u8, b'0' + (number % 10) as u8]);
    }

    /// Adds three digits.
    pub(crate) fn push_three(&mut self, number: u32)
        requires small { number < 1000 }
        requires room { length self.old + 3 ≤ 64 }
        ensures { self.new ≡ self.old ++ three_digits number }
    {
        self.push(&[b'0' + (number / 100) as u8]);
        self.push_two(number % 100);
    }
}
