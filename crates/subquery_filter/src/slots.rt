//! The slots of log types that may bring tokens.
ghost use Rattle.std.specs.Prelude.{◌≡◌, ◌≢◌, ◌<◌, ◌≤◌, ◌+◌, ℕ, List, false, IfOk, IfSome, IsFalse, IsTrue, OnOk, Some, length, slice_get};
ghost use Rattle.query_plan.specs.declared.pieces.Piece.{Piece};
ghost use Rattle.subquery_filter.specs.declared.token.Token.{Token};
ghost use Rattle.logtype_text.specs.declared.symbols.Kind.{Kind};
ghost use Rattle.subquery_filter.specs.Filter.{AreKindBits, AreSlots, Covers, Gives, Has, IsAlone, IsRight, IsSlot, IsTest, LacksText, sum_at};
ghost use Rattle.subquery_filter.specs.Asking.{IsQuestion};
ghost use Rattle.subquery_filter.specs.StepsFilter.{AreSummed, HasAll, Stays};
ghost use Rattle.subquery_filter.specs.StepsLetters.{kinds_in};
ghost use Rattle.subquery_filter.specs.declared.slots.Slot.{Slot};

use crate::alone::alone_of;
use crate::bits::has;
use crate::rare::lacks_rare;
use crate::run::Run;
use crate::token::Token;
use crate::tokens::gifts_of;
use crate::verdicts::{Verdict, verdict_in_order};
use logtype_text::{Kind, Symbol, first_symbol, plain_front};
use memchr::memmem::Finder;
use plain_list::Text;
use std::alloc::AllocError;
use wild_match::Pattern;

/// The bits that each kind of variable may bring.
#[derive(Clone, Copy, Debug)]
pub(crate) struct KindBits {
    pub(crate) whole: u8,
    pub(crate) decimal: u8,
    pub(crate) word: u8,
}

/// What each log type is asked.
#[derive(Debug, Drop)]
pub(crate) struct Question {
    /// The bits that each kind of variable may bring.
    pub(crate) kinds: KindBits,
    /// The bits that rows may bring beside the constant bytes of their log types: by stamps, by
    /// numbers and by words.
    pub(crate) others: u8,
    /// The place of the longest of the tokens that they may not bring so.
    pub(crate) lead: usize,
    /// The longest run of bytes of the pattern, as log types store constant bytes. A log type of
    /// which the pattern matches each message has it.
    pub(crate) longest: Finder<'static>,
    /// The bits of all tokens.
    pub(crate) tokens: u8,
    /// The bits of the firm ones: they stand in a number only where they are all of it. Those that
    /// rows may bring only by constant bytes are left out.
    pub(crate) firm: u8,
    /// The bits of all runs of the pattern, and of those that some stamp may have.
    pub(crate) runs: u8,
    pub(crate) stamped: u8,
    /// Whether most rows are told by their words, whatever slots these are in: no number brings a
    /// token, or words tell of most numbers that no token is a part of them.
    pub(crate) by_words: bool,
    /// The pattern, and its skeleton.
    pub(crate) wide: Pattern,
    pub(crate) skeleton: Pattern,
    /// The needed words that are no variables.
    pub(crate) constants: Vec<Text>,
}

/// A slot of a log type in which a token may stand.
#[derive(Clone, Copy, Debug)]
pub(crate) struct Slot {
    /// The place of its word among those of a row.
    // A long log has a million slots. In 32 bits, a slot takes half of the memory.
    pub(crate) place: u32,
    pub(crate) kind: Kind,
    /// The bits of the tokens that may stand there.
    pub(crate) bits: u8,
}

/// The bits that slots which are listed may bring in sum, those of numbers and those of words.
#[derive(Clone, Copy, Debug)]
pub(crate) struct Sums {
    pub(crate) numbers: u8,
    pub(crate) words: u8,
}

/// Where so many slots are listed, none of a further log type is: its rows are told by all their
/// words. The log types that most messages have come first.
pub(crate) const MOST_SLOTS: usize = 1 << 20;

/// How many log types are taken to have most messages. Of the others less is asked.
const COMMON_TYPES: usize = 4096;

/// A log type that few messages have is told by the words of its rows where its constant bytes lack
/// so many firm tokens. Fewer leave too many rows.
const LEAST_FIRM: u32 = 3;

/// No slot brings a bit.
const NO_SUMS: Sums = Sums {
    numbers: 0,
    words: 0,
};

/// What is known of a log type: its verdict and, where that leaves it open, the bits of the tokens
/// that its constant bytes bring, those that its slots may bring, and where these are listed.
#[derive(Clone, Copy, Debug)]
pub(crate) struct TypeTest {
    pub(crate) verdict: Verdict,
    pub(crate) has: u8,
    pub(crate) sums: Sums,
    /// Whether its slots are listed.
    pub(crate) listed: bool,
    pub(crate) first: usize,
    pub(crate) end: usize,
}

/// What is known of a log type, and the bits of the runs that it leaves to stamps.
#[derive(Clone, Copy, Debug)]
pub(crate) struct TestedType {
    pub(crate) test: TypeTest,
    pub(crate) alone: u8,
}

impl Question {
    /// Whether stamps alone decide of rows of a log type which leaves these runs to them: it leaves
    /// all, or some that no stamp may have.
    #[inline]
    fn is_for_stamps(&self, alone: u8) -> bool {
        !has(self.stamped, alone) || (alone != 0 && has(alone, self.runs))
    }

    /// Whether less may be asked of log types that few messages have: words tell of rows, or
    /// stamps may have all runs, so that no log type is rejected by those that it leaves to them,
    /// and there are so many firm tokens.
    #[inline]
    fn spares_rare(&self) -> bool {
        self.by_words || (has(self.stamped, self.runs) && self.firm.count_ones() >= LEAST_FIRM)
    }

    /// The bits of the tokens that are looked for in such a log type.
    #[inline]
    fn rare_tokens(&self) -> u8 {
        if self.by_words {
            self.others
        } else {
            self.firm
        }
    }

    /// Whether few rows are left by the words of such a log type whose constant bytes bring these
    /// bits.
    #[inline]
    fn leaves_few(&self, known: u8) -> bool {
        if self.by_words {
            return !has(known, self.tokens);
        }
        (self.firm & !known).count_ones() >= LEAST_FIRM
    }

    /// Whether a log type whose constant bytes bring these bits may be certain: they bring all
    /// tokens, and the longest run stands there.
    #[inline]
    fn may_be_certain(&self, known: u8, text: &[u8]) -> bool {
        has(known, self.tokens) && self.longest.find(text).is_some()
    }
}

impl KindBits {
    /// Whether numbers bring no token.
    pub(crate) fn without_numbers(&self) -> bool {
        self.whole | self.decimal == 0
    }

    /// The bits that a variable of this kind may bring.
    fn of(&self, kind: Kind) -> u8
        ensures { (tokens : List Token) → AreKindBits tokens self.now → Covers tokens kind result }
    {
        match kind {
            Kind::Whole => self.whole,
            Kind::Decimal => self.decimal,
            Kind::Word => self.word,
        }
    }

    /// What slots of all kinds may bring in sum.
    fn sums(&self) -> Sums
        ensures { (tokens : List Token) → AreKindBits tokens self.now
            → (kind : Kind) → Covers tokens kind (sum_at kind result) }
    {
        Sums {
            numbers: self.whole | self.decimal,
            words: self.word,
        }
    }
}

impl Sums {
    /// What these slots and one more may bring in sum.
    fn with(self, slot: Slot) -> Sums
        ensures more { (kind : Kind) → Has (sum_at kind result) (sum_at kind self) }
        ensures slot { Has (sum_at slot.kind result) slot.bits }
    {
        if slot.kind == Kind::Word {
            Sums {
                words: self.words | slot.bits,
                ..self
            }
        } else {
            Sums {
                numbers: self.numbers | slot.bits,
                ..self
            }
        }
    }
}

/// Lists a slot, where it may bring a bit beyond those that are known.
fn list_slot(
    slots: &mut Vec<Slot>,
    kinds: &KindBits,
    known: u8,
    kind: Kind,
    place: u32,
) -> Result<(), AllocError>
    ensures listed { OnOk result ((tokens : List Token) → AreKindBits tokens kinds.now
        → (first : ℕ) → first ≤ length slots.old.items
        → IsSlot tokens slots.new.items first (length slots.new.items) known place kind) }
    ensures stays { OnOk result (Stays slots.old.items slots.new.items) }
    ensures more { OnOk result (length slots.old.items ≤ length slots.new.items) }
{
    let bits = kinds.of(kind);
    if has(known, bits) {
        return Ok(());
    }
    slots.push(Slot { place, kind, bits })?;
    Ok(())
}

/// A log type's text behind the constants at its front that stand there as they are.
#[inline]
fn past_plain(text: &[u8]) -> &[u8]
    ensures same { kinds_in false result.now ≡ kinds_in false text.now }
    ensures shorter { length result.now ≤ length text.now }
{
    &text[plain_front(text)..]
}

/// The place behind another one. There is none behind the last that 32 bits have.
fn place_behind(place: u32) -> Result<u32, AllocError>
    ensures { IfOk result (λ next. next ≡ place + 1) }
{
    place.checked_add(1).ok_or(AllocError)
}

/// Lists the slots of a log type that may bring a bit beyond those that are known.
fn list_slots(
    slots: &mut Vec<Slot>,
    kinds: &KindBits,
    known: u8,
    text: &[u8],
) -> Result<(), AllocError>
    ensures listed { OnOk result ((tokens : List Token) → AreKindBits tokens kinds.now
        → AreSlots tokens text.now slots.new.items (length slots.old.items)
        (length slots.new.items) known) }
    ensures stays { OnOk result (Stays slots.old.items slots.new.items) }
{
    let mut rest = text;
    let mut place: u32 = 0;
    while let Some((symbol, after)) = first_symbol(past_plain(rest)) {
        if let Symbol::Slot(kind) = symbol {
            list_slot(slots, kinds, known, kind, place)?;
            place = place_behind(place)?;
        }
        rest = after;
    }
    Ok(())
}

/// The slot at a place.
fn slot_here(slots: &[Slot], at: usize) -> Slot
    requires { at < length slots.now }
    ensures { slice_get slots.now at ≡ Some result }
{
    slots[at]
}

/// What the slots from a place on may bring in sum.
fn sums_from(slots: &[Slot], first: usize) -> Sums
    ensures { AreSummed slots.now first (length slots.now) result }
{
    let mut sums = NO_SUMS;
    for at in first..slots.len() {
        sums = sums.with(slot_here(slots, at));
    }
    sums
}

/// A log type of which nothing more is asked.
fn closed_test(verdict: Verdict, first: usize) -> TypeTest
    ensures { result.verdict ≡ verdict }
{
    TypeTest {
        verdict,
        has: 0,
        sums: NO_SUMS,
        listed: true,
        first,
        end: first,
    }
}

/// A log type of whose rows stamps alone decide: it is taken to bring all tokens, and no slot is
/// listed.
fn passed_test(tokens: u8, first: usize) -> TypeTest
    ensures { (plan : List Piece) (all : List Token) (others : ℕ) (slots : List Slot)
        (text : List ℕ) → HasAll all tokens → IsTest plan all others slots text result }
{
    TypeTest {
        verdict: Verdict::Tried,
        has: tokens,
        sums: NO_SUMS,
        listed: true,
        first,
        end: first,
    }
}

/// A log type that brings these bits, and whose slots are not listed.
fn unlisted_test(kinds: &KindBits, known: u8, first: usize) -> TypeTest
    ensures { (plan : List Piece) (tokens : List Token) (others : ℕ) (slots : List Slot)
        (text : List ℕ) → Gives tokens text known → AreKindBits tokens kinds.now
        → IsTest plan tokens others slots text result }
{
    TypeTest {
        verdict: Verdict::Tried,
        has: known,
        sums: kinds.sums(),
        listed: false,
        first,
        end: first,
    }
}

/// What is known of a log type that few messages have, where its constant bytes lack so many firm
/// tokens, or any where words tell of rows. The tokens that are not looked for are taken to
/// stand there, and neither its slots nor its runs are asked: a row of it is told by its words.
fn rare_test(
    tokens: &[Token],
    question: &Question,
    place: usize,
    lacks: bool,
    text: &[u8],
) -> Option<TypeTest>
    ensures { IfSome result (λ test. (plan : List Piece) (slots : List Slot)
        → AreKindBits tokens.now question.now.kinds
        → IsTest plan tokens.now question.now.others slots text.now test) }
{
    if lacks || place < COMMON_TYPES || !question.spares_rare() {
        return None;
    }
    let known = gifts_of(tokens, question.rare_tokens(), text);
    if !question.leaves_few(known) {
        return None;
    }
    Some(unlisted_test(&question.kinds, known, 0))
}

/// The bits of the runs that a log type leaves to stamps, where these are asked.
fn left_to_stamps(runs: &[Run], known: bool, text: &[u8]) -> u8
    ensures { IsAlone runs.now text.now result }
{
    if known {
        return 0;
    }
    alone_of(runs, text)
}

/// The verdict of a log type's text, by the bits of the tokens that its constant bytes bring.
fn text_verdict(question: &Question, text: &[u8], known: u8) -> Verdict
    ensures { (ps : List Piece) (tokens : List Token) → IsQuestion ps tokens question.now
        → IsRight ps tokens question.now.others text.now result }
{
    if question.may_be_certain(known, text) {
        let wide = question.wide.as_slice();
        return verdict_in_order(wide, question.skeleton.as_slice(), text);
    }
    Verdict::Tried
}

/// What is known of a log type of whose rows its slots decide, by the bits of the tokens that its
/// constant bytes bring. Its slots are listed behind those before, where these are not too many.
fn test_by_slots(
    question: &Question,
    slots: &mut Vec<Slot>,
    text: &[u8],
    known: u8,
) -> Result<TypeTest, AllocError>
    ensures test { IfOk result (λ test. (ps : List Piece) (tokens : List Token)
        → IsQuestion ps tokens question.now → Gives tokens text.now known
        → IsTest ps tokens question.now.others slots.new.items text.now test) }
    ensures stays { IfOk result (λ _. Stays slots.old.items slots.new.items) }
{
    let first = slots.len();
    let verdict = text_verdict(question, text, known);
    if verdict != Verdict::Tried {
        return Ok(closed_test(verdict, first));
    }
    if first >= MOST_SLOTS {
        return Ok(unlisted_test(&question.kinds, known, first));
    }
    list_slots(slots, &question.kinds, known, text)?;
    let end = slots.len();
    Ok(TypeTest {
        verdict: Verdict::Tried,
        has: known,
        sums: sums_from(slots.as_slice(), first),
        listed: true,
        first,
        end,
    })
}

/// What is known of a log type with this text, which is told whether it lacks a token, by what is
/// known of it as a rare one, and by the bits of the runs that it leaves to stamps.
///
/// Most log types of a long log lack a token, are rare, or leave all runs to stamps: their slots are
/// not looked at.
fn test_of(
    tokens: &[Token],
    question: &Question,
    slots: &mut Vec<Slot>,
    text: &[u8],
    lacks: bool,
    rare: Option<TypeTest>,
    alone: u8,
) -> Result<TypeTest, AllocError>
    requires lacks { IsTrue lacks → LacksText tokens.now question.now.others text.now }
    requires rare { IfSome rare (λ test. (plan : List Piece) (slots : List Slot)
        → AreKindBits tokens.now question.now.kinds
        → IsTest plan tokens.now question.now.others slots text.now test) }
    ensures test { IfOk result (λ test. (ps : List Piece)
        → IsQuestion ps tokens.now question.now
        → IsTest ps tokens.now question.now.others slots.new.items text.now test) }
    ensures stays { IfOk result (λ _. Stays slots.old.items slots.new.items) }
{
    let first = slots.len();
    if lacks {
        return Ok(closed_test(Verdict::Rejected, first));
    }
    if let Some(test) = rare {
        return Ok(test);
    }
    if question.is_for_stamps(alone) {
        return Ok(passed_test(question.tokens, first));
    }
    let known = gifts_of(tokens, question.others, text);
    test_by_slots(question, slots, text, known)
}

/// What is known of the log type at a place, by its text, and the bits of the runs that it leaves
/// to stamps. Its slots are listed behind those before.
pub(crate) fn test_type(
    tokens: &[Token],
    runs: &[Run],
    question: &Question,
    slots: &mut Vec<Slot>,
    place: usize,
    text: &[u8],
) -> Result<TestedType, AllocError>
    ensures test { IfOk result (λ tested. (ps : List Piece) → IsQuestion ps tokens.now question.now
        → IsTest ps tokens.now question.now.others slots.new.items text.now tested.test) }
    ensures alone { IfOk result (λ tested. IsAlone runs.now text.now tested.alone) }
    ensures stays { IfOk result (λ _. Stays slots.old.items slots.new.items) }
{
    let lacks = lacks_rare(tokens, question.lead, question.others, text);
    let rare = rare_test(tokens, question, place, lacks, text);
    let alone = left_to_stamps(runs, lacks || rare.is_some(), text);
    let test = test_of(tokens, question, slots, text, lacks, rare, alone)?;
    Ok(TestedType { test, alone })
}

/// Whether a slot of this kind is listed.
pub(crate) fn has_kind(slots: &[Slot], kind: Kind) -> bool
    ensures { IsFalse result → (at : ℕ) (slot : Slot) → slice_get slots.now at ≡ Some slot
        → slot.kind ≢ kind }
{
    for slot in slots {
        if slot.kind == kind {
            return true;
        }
    }
    false
}
