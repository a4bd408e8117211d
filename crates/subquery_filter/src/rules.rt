//! Which segments are barren.
ghost use Rattle.std.specs.Prelude.{◌≡◌, ◌⊎◌, ◌↔◌, ◌<◌, ◌<ℤ◌, ℕ, ℤ, List, IsTrue, None, Some, false, length, slice_get, slice_index_or, true};
ghost use Rattle.std.specs.List.Sorted.{IsStrictlyIncreasing};
ghost use Rattle.plain_list.specs.Texts.{AreDistinct};
ghost use Rattle.segment_format.specs.Layout.{IsHead};
ghost use Rattle.barren_segments.specs.Barren.{HasConstants, HoldsConstants, IsBarren, IsBounded, IsMissing, LacksTypes, LacksWord, LeavesOut};
ghost use Rattle.subquery_filter.specs.Asking.{AreConstants};
ghost use Rattle.subquery_filter.specs.Found.{AreNumbers, IsNumber};
ghost use Rattle.query_plan.specs.declared.pieces.Piece.{Piece};
ghost use Rattle.query_plan.specs.Needs.{needed_variables_of};
ghost use Rattle.query_plan.specs.Pieces.{Free, needed_of};
ghost use Rattle.barren_segments.specs.Runs.{HoldsRun};

use crate::runs::holds_run;
use column_store::Range;
use query_plan::Plan;
use row_codec::Names;
use segment_format::Head;
use var_codec::{Coded, encode};

/// Whether the segment is barren: its head tells that none of its rows within the range matches the
/// pattern that the search is planned over. Takes no memory.
///
/// It is where the segment has no rows; where a bound is given and no row has a stamp, or the
/// greatest moment is below the least of the range, or the least above its greatest; where a needed
/// word that is a variable, and is stored in the dictionary, has no number in the head's list; and
/// where none of the head's log types has all needed words that are no variables among its constant
/// bytes.
///
/// Costs a look-up and a binary search for each needed variable, and then a walk over the texts of
/// the head's log types up to the first that has all.
pub fn barren<N: Names>(head: &Head, plan: &Plan, range: &Range, names: &N) -> bool
    ensures { IsHead head.now → AreDistinct (N.words names.now)
        → IsTrue result ↔ IsBarren plan.now range.now (N.types names.now) (N.words names.now)
        head.now }
{
    if is_outside(head.rows, head.stamped, head.least, head.greatest, range) {
        return true;
    }
    lacks_word(plan, head.words.as_slice(), names)
        || lacks_types(plan, head.types.as_slice(), names)
}

/// Whether the segment is barren, as [`barren`] tells it, where the numbers of the needed words
/// were found before: for each needed word of the plan that is a variable, at its place, its
/// number, and none where it is no word. And for each log type it was told whether its constant
/// bytes have all needed words that are no variables.
///
/// Costs a binary search for each needed variable, and then a look at the head's log types up to
/// the first that has all.
pub fn barren_by(
    head: &Head,
    plan: &Plan,
    range: &Range,
    constants: &[bool],
    found: &[Option<u32>],
) -> bool
    requires { length found.now ≡ length (needed_of Free plan.now) }
    ensures { (types words : List (List ℕ)) → IsHead head.now → AreDistinct words
        → AreNumbers words (needed_of Free plan.now) (needed_variables_of Free plan.now) found.now
        → AreConstants plan.now types constants.now
        → IsTrue result ↔ IsBarren plan.now range.now types words head.now }
{
    if is_outside(head.rows, head.stamped, head.least, head.greatest, range) {
        return true;
    }
    lacks_found(plan, head.words.as_slice(), found) || lacks_told(head.types.as_slice(), constants)
}

/// Whether a segment has no rows, or a bound is given that leaves out all of them. These are the
/// rules that need no list of its head.
pub fn is_outside(rows: u32, stamped: bool, least: i64, greatest: i64, range: &Range) -> bool
    ensures { IsTrue result
        ↔ ((rows ≡ 0) ⊎ (IsBounded range.now × LeavesOut range.now stamped least greatest)) }
{
    rows == 0 || leaves_out(range, stamped, least, greatest)
}

/// Whether a bound is given, and leaves out all moments from the least to the greatest, or no row
/// has a stamp.
fn leaves_out(range: &Range, stamped: bool, least: i64, greatest: i64) -> bool
    ensures { IsTrue result
        ↔ (IsBounded range.now × LeavesOut range.now stamped least greatest) }
{
    match (range.from, range.to) {
        (None, None) => false,
        (from, to) => { !stamped || is_past(from, greatest) || is_ahead(to, least) }
    }
}

/// Whether a least moment is asked for, and the greatest there is lies before it.
fn is_past(from: Option<i64>, greatest: i64) -> bool
    ensures { IsTrue result ↔ ((m : ℤ) × (from ≡ Some m) × (greatest <ℤ m)) }
{
    match from {
        Some(bound) => greatest < bound,
        None => false,
    }
}

/// Whether a greatest moment is asked for, and the least there is lies behind it.
fn is_ahead(to: Option<i64>, least: i64) -> bool
    ensures { IsTrue result ↔ ((m : ℤ) × (to ≡ Some m) × (m <ℤ least)) }
{
    match to {
        Some(bound) => bound < least,
        None => false,
    }
}

/// Whether a needed variable is to be a word of the dictionary, and the list has no number of it.
fn is_missing<N: Names>(text: &[u8], listed: &[u32], names: &N) -> bool
    ensures { IsStrictlyIncreasing listed.now → AreDistinct (N.words names.now)
        → IsTrue result ↔ IsMissing (N.words names.now) listed.now text.now }
{
    let Coded::Word = encode(text) else {
        return false;
    };
    match names.word_number(text) {
        Some(number) => listed.binary_search(&number).is_err(),
        None => true,
    }
}

/// Whether a needed word is a variable that is to be a word of the dictionary, and the list has no
/// number of it.
fn is_missing_variable<N: Names>(variable: bool, text: &[u8], listed: &[u32], names: &N) -> bool
    ensures { IsStrictlyIncreasing listed.now → AreDistinct (N.words names.now)
        → IsTrue result ↔ ((variable ≡ true) × IsMissing (N.words names.now) listed.now text.now) }
{
    variable && is_missing(text, listed, names)
}

/// Whether some needed variable is missing.
fn lacks_word<N: Names>(plan: &Plan, listed: &[u32], names: &N) -> bool
    ensures { IsStrictlyIncreasing listed.now → AreDistinct (N.words names.now)
        → IsTrue result ↔ LacksWord plan.now (N.words names.now) listed.now }
{
    let words = plan.needed().as_slice();
    let variables = plan.needed_variables();
    for place in 0..words.len() {
        if is_missing_variable(variables[place], words[place].as_slice(), listed, names) {
            return true;
        }
    }
    false
}

/// Whether a needed variable is to be a word of the dictionary, and the list has not its number.
fn is_unlisted(text: &[u8], number: Option<u32>, listed: &[u32]) -> bool
    ensures { (words : List (List ℕ)) → IsStrictlyIncreasing listed.now → AreDistinct words
        → IsNumber words text.now number
        → IsTrue result ↔ IsMissing words listed.now text.now }
{
    let Coded::Word = encode(text) else {
        return false;
    };
    match number {
        Some(number) => listed.binary_search(&number).is_err(),
        None => true,
    }
}

/// Whether a needed word is a variable that is to be a word of the dictionary, and the list has not
/// its number, which was found before.
fn is_unlisted_variable(variable: bool, text: &[u8], number: Option<u32>, listed: &[u32]) -> bool
    ensures { (words : List (List ℕ)) → IsStrictlyIncreasing listed.now → AreDistinct words
        → (variable ≡ true → IsNumber words text.now number)
        → IsTrue result ↔ ((variable ≡ true) × IsMissing words listed.now text.now) }
{
    variable && is_unlisted(text, number, listed)
}

/// The number that was found of the needed word at a place.
fn number_at(found: &[Option<u32>], place: usize) -> Option<u32>
    requires { place < length found.now }
    ensures { result ≡ slice_index_or found.now place None }
{
    found[place]
}

/// Whether the number of some needed variable is missing.
fn lacks_found(plan: &Plan, listed: &[u32], found: &[Option<u32>]) -> bool
    requires { length found.now ≡ length (needed_of Free plan.now) }
    ensures { (words : List (List ℕ)) → IsStrictlyIncreasing listed.now → AreDistinct words
        → AreNumbers words (needed_of Free plan.now) (needed_variables_of Free plan.now) found.now
        → IsTrue result ↔ LacksWord plan.now words listed.now }
{
    let words = plan.needed().as_slice();
    let variables = plan.needed_variables();
    for place in 0..words.len() {
        let number = number_at(found, place);
        if is_unlisted_variable(variables[place], words[place].as_slice(), number, listed) {
            return true;
        }
    }
    false
}

/// Whether a needed word is a variable, or else a run of a log type's text.
fn needs_no_more(variable: bool, word: &[u8], text: &[u8]) -> bool
    ensures { IsTrue result ↔ (variable ≡ false → HoldsRun text.now word.now) }
{
    variable || holds_run(text, word)
}

/// Whether each needed word that is no variable is a run of a log type's text.
fn holds_constants(plan: &Plan, text: &[u8]) -> bool
    ensures { IsTrue result ↔ HoldsConstants plan.now text.now }
{
    let words = plan.needed().as_slice();
    let variables = plan.needed_variables();
    for place in 0..words.len() {
        if !needs_no_more(variables[place], words[place].as_slice(), text) {
            return false;
        }
    }
    true
}

/// Whether the log type with this number has all needed words that are no variables.
fn has_constants<N: Names>(plan: &Plan, number: u32, names: &N) -> bool
    ensures { IsTrue result ↔ HasConstants plan.now (N.types names.now) number }
{
    match names.type_text(number) {
        Some(text) => holds_constants(plan, text),
        None => false,
    }
}

/// Whether none of these log types has them.
fn lacks_types<N: Names>(plan: &Plan, types: &[u32], names: &N) -> bool
    ensures { IsTrue result ↔ LacksTypes plan.now (N.types names.now) types.now }
{
    for place in 0..types.len() {
        if has_constants(plan, types[place], names) {
            return false;
        }
    }
    true
}

/// Whether it was told of the log type with this number that it has them.
fn is_told(number: u32, constants: &[bool]) -> bool
    ensures { IsTrue result ↔ (slice_get constants.now number ≡ Some true) }
{
    match constants.get(number as usize) {
        Some(has_all) => *has_all,
        None => false,
    }
}

/// Whether it was told of none of these log types.
fn lacks_told(types: &[u32], constants: &[bool]) -> bool
    ensures { (ps : List Piece) (names : List (List ℕ)) → AreConstants ps names constants.now
        → IsTrue result ↔ LacksTypes ps names types.now }
{
    for place in 0..types.len() {
        if is_told(types[place], constants) {
            return false;
        }
    }
    true
}
