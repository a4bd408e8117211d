//! Whether rows of an archive that is there are encodings of messages.
ghost use Rattle.std.specs.Prelude.{◌≡◌, ℕ, List, IfNone, IfOk, IfSome};
ghost use Rattle.archive_meaning.specs.Sums.{open_after};
ghost use Rattle.archive_core.specs.Rows.{AreMessages};

use crate::log_types::{LogType, known_of};
use crate::rows::{Rows, rows_say};
use row_codec::{Layouts, Names};
use std::alloc::{AllocError, Global};
use std::marker::Model;

/// What decides over rows of an archive whose log types are all there: each log type is cut once, and
/// of its rows the first is tested whole. Contracts see the list of the log types.
#[derive(Drop)]
pub struct RowJudge {
    known: Vec<LogType>,
    layouts: Layouts,
}

impl Model for RowJudge {
    ghost use Rattle.std.specs.Prelude.{List, ℕ};
    ghost use Rattle.archive_core.specs.LogTypes.{AreKnown};

    ghost Value = { List (List ℕ) };

    ghost view = { λ j. j.layouts };

    ghost invariant = { λ j. AreKnown j.layouts j.known.items };
}

impl RowJudge {
    /// A judge of rows of these log types.
    pub fn of<N: Names>(alloc: Global, names: &N) -> Result<RowJudge, AllocError>
        ensures { IfOk result (λ judge. judge ≡ N.types names.now) }
    {
        let layouts = Layouts::of(alloc, names)?;
        let known = known_of(alloc, names)?;
        Ok(RowJudge { known, layouts })
    }

    /// Whether the last of the rows' messages may be a last line without newline, where `before` tells
    /// it of the messages before them; nothing where some row is the encoding of no message.
    pub fn rows_say<N: Names, R: Rows>(
        &mut self,
        alloc: Global,
        version: u32,
        names: &N,
        before: bool,
        rows: &R,
    ) -> Result<Option<bool>, AllocError>
        requires types { self.old ≡ N.types names.now }
        requires version { version ≡ N.version names.now }

        // what stays
        ensures types { self.new ≡ self.old }

        // by the answer
        ensures some { IfOk result (λ says. IfSome says (λ open_end. (messages : List (List ℕ))
            × AreMessages (N.version names.now) (N.types names.now) (N.words names.now)
            (R.rows rows.now) messages
            × (open_end ≡ open_after before messages))) }
        ensures none { IfOk result (λ says. IfNone says ((messages : List (List ℕ))
            → ¬ AreMessages (N.version names.now) (N.types names.now) (N.words names.now)
            (R.rows rows.now) messages)) }
    {
        rows_say(
            alloc,
            version,
            names,
            &mut self.known,
            &self.layouts,
            before,
            rows,
        )
    }
}
