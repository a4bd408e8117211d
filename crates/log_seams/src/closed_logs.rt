//! The logs that a shelf has closed, a list that grows in place.
ghost use Rattle.std.specs.Prelude.{◌≡◌, ◌∷◌, []};

use crate::MemSource;
use plain_list::Text;
use std::marker::Model;

/// The logs that were closed with their names, the newest first. Contracts see the list.
#[cycle(closed_logs)]
#[derive(Drop)]
pub(crate) struct ClosedLogs {
    newest: Closed,
}

#[cycle(closed_logs)]
#[derive(Drop)]
enum Closed {
    Nothing,
    Log {
        name: Text,
        bytes: Text,
        at: usize,
        faults: u64,
        older: Box<ClosedLogs>,
    },
}

impl Model for ClosedLogs {
    ghost use Rattle.std.specs.Prelude.{List, length};
    ghost use Rattle.log_seams.specs.Memory.{ClosedState};

    ghost Value = { List ClosedState };

    ghost use Rattle.log_seams.specs.StepsClosed.{logs_of};

    ghost view = { λ c. logs_of c.newest };

    ghost size = { length };

    ghost use Rattle.std.proofs.Common.{arith, length-append};

    ghost size_decreases = { λ a h. Prim.grind (arith, length-append) };
}

impl ClosedLogs {
    /// No log was closed.
    pub(crate) fn new() -> ClosedLogs
        ensures { result ≡ [] }
    {
        ClosedLogs {
            newest: Closed::Nothing,
        }
    }

    /// These with one log more. Its place was taken before, so that this takes no memory.
    pub(crate) fn with(self, mut place: Box<ClosedLogs>, name: Text, log: MemSource) -> ClosedLogs
        ensures { result ≡ (record { name = name; left = log.left; faults = log.faults }) ∷ self }
    {
        let (bytes, at, faults) = log.into_parts();
        *place = self;
        ClosedLogs {
            newest: Closed::Log {
                name,
                bytes,
                at,
                faults,
                older: place,
            },
        }
    }
}
