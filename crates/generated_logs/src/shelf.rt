//! The shelf of the generated logs.
ghost use Rattle.std.specs.Prelude.{◌≡◌, ◌≤◌, IfSome};
ghost use Rattle.generated_logs.specs.Logs.{content_of, log_named, name_of};

use crate::GeneratedSource;
use log_seams::{OpenRefused, Shelf};
use std::marker::Model;

/// Four logs, `gen0` to `gen3`, which are made from a number. It tells their bytes.
#[derive(Debug, Drop)]
pub struct GeneratedShelf {
    number: u32,
    lines: u32,
    others: u64,
    closed: [Option<GeneratedSource>; 4],
}

impl Model for GeneratedShelf {
    ghost use Rattle.std.specs.Prelude.{◌≤◌};
    ghost use Rattle.generated_logs.specs.States.{GeneratedState};

    ghost Value = { GeneratedState };

    ghost view = { λ s. record {
      number = s.number;
      lines = s.lines;
      others = s.others;
      closed = s.closed;
    } };

    ghost invariant = { λ s. s.lines ≤ 1000000 };
}

impl GeneratedShelf {
    /// The four logs that are made from this number, with so many lines each.
    pub fn new(number: u32, lines: u32) -> GeneratedShelf
        requires { lines ≤ 1000000 }
        ensures number { result.number ≡ number }
        ensures lines { result.lines ≡ lines }
    {
        GeneratedShelf {
            number,
            lines,
            others: 0,
            closed: [None, None, None, None],
        }
    }
}

/// Which of the four logs has this name.
fn log_named(name: &str) -> Option<u32>
    ensures log { result ≡ log_named name.now }
    ensures four { IfSome result (λ f. f ≤ 3) }
    ensures named { IfSome result (λ f. name_of f ≡ name.now) }
{
    match name {
        "gen0" => Some(0),
        "gen1" => Some(1),
        "gen2" => Some(2),
        "gen3" => Some(3),
        _ => None,
    }
}

impl Shelf for GeneratedShelf {
    ghost use Rattle.generated_logs.specs.States.{open_faults_of, unread_of};

    type Src = GeneratedSource;

    ghost content = { λ s. content_of s.number s.lines };

    ghost unread = { unread_of };

    ghost open_faults = { open_faults_of };

    ghost read_faults = { λ _ _. 0 };

    fn open_log(&mut self, name: &str) -> Result<GeneratedSource, OpenRefused> {
        let Some(log) = log_named(name) else {
            self.others = self.others.saturating_add(1);
            return Err(OpenRefused::Failed);
        };
        Ok(GeneratedSource::new(self.number, log, self.lines))
    }

    fn close_log(&mut self, src: GeneratedSource) {
        let log = src.log() as usize;
        self.closed[log] = Some(src);
    }
}
