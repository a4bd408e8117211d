//! What is asked of the words of an archive before its segments are searched.
ghost use Rattle.std.specs.Prelude.{◌≡◌, ◌+◌, ◌<◌, ℕ, List, Some, length, slice_get, true, IfOk, IsErrOf, IsFalse};
ghost use Rattle.log_seams.specs.Disk.{Rests};
ghost use Rattle.log_seams.specs.Outside.{CountsOf};
ghost use Rattle.query_plan.specs.Needs.{needed_variables_of};
ghost use Rattle.query_plan.specs.Pieces.{Free, needed_of, wide_pieces};
ghost use Rattle.subquery_filter.specs.Filter.{AsksTypes, IsFilter};
ghost use Rattle.subquery_filter.specs.Found.{AreNumbers};
ghost use Rattle.word_places.specs.Places.{AreInOrder, OfWords};
ghost use Rattle.word_places.specs.Reads.{ReadsWords};
ghost use Rattle.search_walk.specs.Told.{AreFound, AreReadOff, needles_for, whole_needle, within_needle};

use crate::query::Query;
use crate::refusal::SearchRefusal;
use log_seams::Disk;
use plain_list::{NumberList, Text};
use std::alloc::{AllocError, Global};
use subquery_filter::Filter;
use word_places::{Fit, Needle, WordsPlace, find_words, holders_have, word_found};

/// What the words of an archive tell a search.
#[derive(Drop)]
pub(crate) struct Told {
    /// The filter, with the marks of the words.
    pub(crate) filter: Filter,
    /// The numbers of the needed words that are variables, each at its place in the plan.
    pub(crate) found: Vec<Option<u32>>,
}

/// The flag at a place.
fn flag_at(flags: &[bool], place: usize) -> bool
    requires { place < length flags.now }
    ensures { slice_get flags.now place ≡ Some result }
{
    flags[place]
}

/// Whether some needed word is a variable.
pub(crate) fn has_variable(variables: &[bool]) -> bool
    ensures { IsFalse result → (k : ℕ) → ¬ (slice_get variables.now k ≡ Some true) }
{
    for place in 0..variables.len() {
        if flag_at(variables, place) {
            return true;
        }
    }
    false
}

/// A text that is looked for within words.
fn part_needle(text: &Text) -> Needle<'_>
    ensures { result ≡ within_needle text.now }
{
    Needle::new(Fit::Within, text.as_slice())
}

/// A text that is looked for as a whole word.
fn word_needle(text: &Text) -> Needle<'_>
    ensures { result ≡ whole_needle text.now }
{
    Needle::new(Fit::Whole, text.as_slice())
}

/// The needles of one pass: the texts that are looked for in words, and then the needed words.
fn needles_of<'n>(
    alloc: Global,
    within: &'n [Text],
    whole: &'n [Text],
) -> Result<Vec<Needle<'n>>, AllocError>
    ensures { IfOk result (λ needles. needles.items ≡ needles_for within.now whole.now) }
{
    let mut needles = Vec::new(alloc);
    for text in within {
        needles.push(part_needle(text))?;
    }
    for word in whole {
        needles.push(word_needle(word))?;
    }
    Ok(needles)
}

/// The number of the word of each needle for whole words, by the numbers that the pass found.
fn numbers_of(alloc: Global, lists: &[NumberList]) -> Result<Vec<Option<u32>>, AllocError>
    ensures { IfOk result (λ found. AreReadOff lists.now found.items) }
{
    let mut found = Vec::new(alloc);
    for list in lists {
        found.push(word_found(list.as_slice()))?;
    }
    Ok(found)
}

/// The numbers of the words that have the needles: of those that are looked for in words, and then
/// of whole words.
fn find_numbers<D: Disk>(
    alloc: Global,
    within: &[Text],
    whole: &[Text],
    places: &[WordsPlace],
    disk: &mut D,
) -> Result<Vec<NumberList>, SearchRefusal>
    requires { AreInOrder 0 places.now }

    // what stays
    ensures rests { Rests (D.state disk.old) (D.state disk.new) }
    ensures reads { ReadsWords places.now (D.state disk.old) (D.state disk.new) }

    // by the answer, and causes
    ensures found { IfOk result (λ lists. OfWords (D.state disk.old).seen places.now (λ words.
        AreFound within.now whole.now words lists.items)) }
    ensures long { IfOk result (λ lists.
        length lists.items ≡ length within.now + length whole.now) }
    ensures damaged { IsErrOf result SearchRefusal.Damaged
        → OfWords (D.state disk.old).seen places.now (λ _. ⊥) }
    ensures counts { CountsOf SearchRefusal.DiskFault
        (D.state disk.old).faults (D.state disk.new).faults result }
    ensures sink { ¬ IsErrOf result SearchRefusal.SinkFault }
{
    let needles = needles_of(alloc, within, whole)?;
    let mut buffer = Vec::new(alloc);
    let lists = find_words(alloc, disk, places, needles.as_slice(), &mut buffer)?;
    Ok(lists)
}

/// Asks the words of an archive what a filter and a query leave to them: in one pass, and in none
/// where nothing is left.
pub(crate) fn ask_words<D: Disk>(
    alloc: Global,
    query: &Query,
    filter: Filter,
    places: &[WordsPlace],
    disk: &mut D,
) -> Result<Told, SearchRefusal>
    requires { AreInOrder 0 places.now }

    // what stays
    ensures rests { Rests (D.state disk.old) (D.state disk.new) }
    ensures reads { ReadsWords places.now (D.state disk.old) (D.state disk.new) }

    // by the answer, and causes
    ensures count { IfOk result (λ t. length t.found.items
        ≡ length (needed_of Free (wide_pieces query.now.pattern))) }
    ensures filter { IfOk result (λ t. OfWords (D.state disk.old).seen places.now (λ words.
        (types : List (List ℕ)) → AsksTypes (wide_pieces query.now.pattern) types filter
        → IsFilter (wide_pieces query.now.pattern) types words t.filter)) }
    ensures found { IfOk result (λ t. OfWords (D.state disk.old).seen places.now (λ words.
        AreNumbers words (needed_of Free (wide_pieces query.now.pattern))
        (needed_variables_of Free (wide_pieces query.now.pattern)) t.found.items)) }
    ensures damaged { IsErrOf result SearchRefusal.Damaged
        → OfWords (D.state disk.old).seen places.now (λ _. ⊥) }
    ensures counts { CountsOf SearchRefusal.DiskFault
        (D.state disk.old).faults (D.state disk.new).faults result }
    ensures sink { ¬ IsErrOf result SearchRefusal.SinkFault }
{
    holders_have();
    let within = filter.needles();
    let needed = query.plan().needed().as_slice();
    if within.is_empty() && !has_variable(query.plan().needed_variables()) {
        let found = vec![in alloc; None; needed.len()]?;
        let filter = filter.mark(alloc, &[])?;
        return Ok(Told { filter, found });
    }
    let lists = find_numbers(alloc, within, needed, places, disk)?;
    let (marks, words) = lists.as_slice().split_at(within.len());
    let found = numbers_of(alloc, words)?;
    let filter = filter.mark(alloc, marks)?;
    Ok(Told { filter, found })
}
