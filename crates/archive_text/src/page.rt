//! The rows of a page, written out.
ghost use Rattle.std.specs.Prelude.{◌≡◌, ◌<◌, ◌≤◌, ◌⊎◌, ℕ, List, drop, length, IfOk, IsErrOf};
ghost use Rattle.row_codec.specs.Laid.{AreCut};
ghost use Rattle.archive_text.specs.Ahead.{WritesRows};
ghost use Rattle.archive_text.specs.Told.{AreWritten};

use crate::lines::Lines;
use column_store::Columns;
use row_codec::{Layouts, Names, RowWriter};
use segment_pages::PageRefusal;
use sink_pieces::PIECE;

/// Writes the rows of a page out from a place on, until there is enough for a piece. Answers the
/// place of the next row.
pub(crate) fn write_page<N: Names>(
    columns: &Columns,
    from: u32,
    names: &N,
    layouts: &Layouts,
    lines: &mut Lines,
) -> Result<u32, PageRefusal>
    requires types { AreCut layouts.now (N.types names.now) }

    // what stays
    ensures sent { lines.new.sent ≡ lines.old.sent }
    ensures given { lines.new.given ≡ lines.old.given }

    // by the answer
    ensures written { IfOk result (λ next. WritesRows (N.types names.now) (N.words names.now)
        (drop from columns.now.rows) (drop next columns.now.rows) lines.old lines.new) }
    ensures enough { IfOk result (λ next. (length columns.now.rows ≤ next)
        ⊎ (PIECE ≤ length lines.new.gathered.items)) }
    ensures further { IfOk result (λ next. from < length columns.now.rows → from < next) }

    // causes
    ensures damaged { IsErrOf result PageRefusal.Damaged → (messages : List (List ℕ))
        → ¬ AreWritten (N.types names.now) (N.words names.now)
        (drop from columns.now.rows) messages }
    ensures disk { ¬ IsErrOf result PageRefusal.DiskFault }
{
    let mut writer = RowWriter::new(layouts);
    for place in from..columns.rows() {
        writer.look_ahead(columns, place, names);
        let row = columns.row(place);
        if !lines.push(row, names, &mut writer)? {
            return Err(PageRefusal::Damaged);
        }
        if lines.gathered.len() >= PIECE {
            return Ok(place + 1);
        }
    }
    Ok(columns.rows())
}
