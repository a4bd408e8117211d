//! Numbers of log types that were counted, as texts in their order.
ghost use Rattle.std.specs.Prelude.{◌≡◌, ℕ, ◌+◌, ◌<◌, ◌≤◌, ◌^◌, List, [], pos, length, slice_index_or, cond, All, IfOk, IsErrOf, OnOk};
ghost use Rattle.std.specs.BTreeMap.{IsEmpty, IsOrdered};
ghost use Rattle.std.specs.Ordering.{is_eq};
ghost use Rattle.search_meaning.specs.Groups.{by_key, byte_order, how_often};
ghost use Rattle.group_count.specs.Tables.{AreCounts, AreNumbered, IsTextTally, text_order, texts_at, text_entries};

use crate::refusal::TableRefusal;
use crate::tally::add_to;
use plain_list::Text;
use search_meaning::{Group, GroupList};
use std::alloc::{AllocError, Global};
use std::collections::BTreeMap;
use word_places::TypeTexts;

/// Counts the text of a log type so many times more.
fn add_text<'a>(
    types: &'a TypeTexts,
    number: u32,
    more: u64,
    tally: &mut BTreeMap<&'a [u8], u64>,
) -> Result<(), TableRefusal>
    ensures added { OnOk result ((often : List ℕ → ℕ) → ((q : List ℕ) → often q
        + cond (is_eq (byte_order (slice_index_or types.now.texts number []) q)) more 0
        < 2 ^ 64)
        → IsTextTally tally.old often
        → IsTextTally tally.new (λ q. often q
        + cond (is_eq (byte_order (slice_index_or types.now.texts number []) q)) more 0)) }
    ensures some { IsErrOf result TableRefusal.Damaged → 0 < more }
    ensures none { IsErrOf result TableRefusal.Damaged → length types.now.texts ≤ number }
{
    if more == 0 {
        return Ok(());
    }
    let Some(text) = types.text_of(number) else {
        return Err(TableRefusal::Damaged);
    };
    add_to(tally, text, more)?;
    Ok(())
}

/// Counts the texts of log types, each as often as its numbers were.
pub(crate) fn tally_texts<'a>(
    counts: &[u64],
    types: &'a TypeTexts,
    tally: &mut BTreeMap<&'a [u8], u64>,
) -> Result<(), TableRefusal>
    requires few { length counts.now ≤ 2 ^ 32 }
    requires nothing { IsEmpty tally.old }
    ensures tally { OnOk result ((numbers : List ℕ) → AreCounts counts.now numbers
        → AreNumbered types.now.texts numbers → IsTextTally tally.new
        (λ q. how_often byte_order q (texts_at types.now.texts numbers))) }
    ensures damaged { IsErrOf result TableRefusal.Damaged → (numbers : List ℕ)
        → AreCounts counts.now numbers → ¬ AreNumbered types.now.texts numbers }
{
    for place in 0..counts.len() {
        add_text(types, place as u32, counts[place], tally)?;
    }
    Ok(())
}

/// The groups of a tally of texts.
pub(crate) fn groups_of(
    alloc: Global,
    tally: &BTreeMap<&[u8], u64>,
) -> Result<GroupList, AllocError>
    ensures groups { IfOk result (λ groups. by_key groups ≡ text_entries tally.now.entries) }
    ensures moments { IfOk result (λ groups. All (λ g. g.moment ≡ pos 0) groups) }
    ensures ordered { IsOrdered text_order tally.now }
{
    let mut groups = Vec::with_capacity(alloc, tally.len())?;
    for (text, count) in tally {
        groups.push(Group {
            key: Text::new(Vec::from_slice(alloc, text)?),
            moment: 0,
            count: *count,
        })?;
    }
    Ok(GroupList::new(groups))
}
