//! What is printed of groups.
ghost use Rattle.std.specs.Prelude.{◌≡◌, ◌++◌, IfOk, OnOk};
ghost use Rattle.std.specs.Fmt.{decimal};
ghost use Rattle.command_answers.specs.Grouping.{group_counts, grouped_by, grouped_text, groups_text};

use command_words::CountKey;
use group_count::printed::{put_minutes, put_types};
use group_count::{GroupBy, GroupReport, Grouped};
use std::alloc::{AllocError, Global};

/// What messages are grouped by, of what is asked for.
pub(crate) fn group_by(by: CountKey) -> GroupBy
    ensures { result ≡ grouped_by by }
{
    match by {
        CountKey::LogType => GroupBy::Shape,
        CountKey::Minute => GroupBy::Minute,
    }
}

/// Appends the lines of the groups.
fn put_groups(text: &mut Vec<u8>, by: GroupBy, grouped: &Grouped) -> Result<(), AllocError>
    ensures { OnOk result (text.new.items
        ≡ text.old.items ++ groups_text by grouped.now.groups grouped.now.without) }
{
    match by {
        GroupBy::Shape => put_types(text, &grouped.groups),
        GroupBy::Minute => put_minutes(text, &grouped.groups, grouped.without),
    }
}

/// Appends a name and a count.
fn put_count(text: &mut Vec<u8>, name: &[u8], count: u64) -> Result<(), AllocError>
    ensures { OnOk result (text.new.items ≡ text.old.items ++ (name.now ++ decimal count)) }
{
    text.extend_from_slice(name)?;
    text.extend_from_slice(itoa::Buffer::new().format(count).as_bytes())?;
    Ok(())
}

/// Appends the line of the counts.
fn put_counts(text: &mut Vec<u8>, report: &GroupReport) -> Result<(), AllocError>
    ensures { OnOk result (text.new.items ≡ text.old.items ++ group_counts report.now) }
{
    put_count(text, b"matched ", report.matched)?;
    put_count(text, b" expanded ", report.expanded)?;
    put_count(text, b" opened ", report.opened)?;
    put_count(text, b" segments ", report.segments)?;
    text.push(b'\n')?;
    Ok(())
}

/// The lines of the groups, and the line of the counts where it is asked for.
pub(crate) fn text_of(
    alloc: Global,
    by: GroupBy,
    stats: bool,
    grouped: &Grouped,
) -> Result<Vec<u8>, AllocError>
    ensures { IfOk result (λ text. text.items ≡ grouped_text stats by grouped.now) }
{
    let mut text = Vec::new(alloc);
    put_groups(&mut text, by, grouped)?;
    if stats {
        put_counts(&mut text, &grouped.report)?;
    }
    Ok(text)
}
