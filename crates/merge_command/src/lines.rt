//! The lines of the new files.
ghost use Rattle.std.specs.Prelude.{◌≡◌, ◌≤◌, length, map, IfOk};
ghost use Rattle.file_outcomes.specs.Taken.{line_of_taken};
ghost use Rattle.merge_command.specs.Came.{lines_by};

use archive_merge::Merged;
use archive_open::FileEntry;
use file_outcomes::FileReport;
use std::alloc::{AllocError, Global};

/// What is told of new files, which are the first ones of the second archive's.
pub(crate) fn lines_of<'a>(
    alloc: Global,
    files: &'a [FileEntry],
    merged: &[Merged],
) -> Result<Vec<FileReport<'a>>, AllocError>
    requires { length merged.now ≤ length files.now }
    ensures { IfOk result (λ lines. map line_of_taken lines.items
        ≡ lines_by files.now merged.now) }
{
    let mut lines = Vec::with_capacity(alloc, merged.len())?;
    for (place, one) in merged.iter().enumerate() {
        lines.push_reserved(FileReport {
            name: files[place].name.as_slice(),
            opened: true,
            messages: one.messages,
            whole: one.whole,
            refusal: None,
        });
    }
    Ok(lines)
}
