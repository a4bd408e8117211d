//! Asking the log types of an archive, one behind the other.
ghost use Rattle.std.specs.Prelude.{◌≡◌, ◌↔◌, ◌++◌, ◌∷◌, [], ℕ, List, All, IfOk, IsFalse, IsTrue, OnOk, take};
ghost use Rattle.barren_segments.specs.Runs.{HoldsRun};
ghost use Rattle.query_plan.specs.declared.pieces.Piece.{Piece};
ghost use Rattle.subquery_filter.specs.Asking.{AreAsked, AreNeeded, HasAsked, IsQuestion, TellsNext};
ghost use Rattle.subquery_filter.specs.Filter.{AsksTypes, IsAlone, IsTest, others_of};
ghost use Rattle.subquery_filter.specs.StepsFilter.{Stays};
ghost use Rattle.subquery_filter.specs.declared.filter.Filter.{Filter};

use crate::alone::run_bits;
use crate::filter::Filter;
use crate::needing::firm_bits;
use crate::numbers::kind_bits;
use crate::rare::longest_rare;
use crate::runs::holds_run;
use crate::slots::{Question, Slot, TestedType, TypeTest, test_type};
use crate::small::{has_bound, small_needed};
use crate::tokens::{all_bits, stored_text};
use crate::verdicts::Verdict;
use memchr::memmem::Finder;
use plain_list::Text;
use query_plan::Plan;
use row_codec::Names;
use std::alloc::{AllocError, Global};
use wild_match::{Matcher, Pattern};

/// A filter that asks the log types of an archive as they come, after its words were marked. It
/// keeps none of their texts.
///
/// Takes memory for each log type and for each slot that may bring a token.
#[derive(Debug, Drop)]
pub struct Asking {
    alloc: Global,
    /// The filter that was begun with.
    filter: Filter,
    question: Question,
    /// What is known of the log types so far, by their numbers, and their slots.
    slots: Vec<Slot>,
    tests: Vec<TypeTest>,
    alone: Vec<u8>,
    verdicts: Vec<Verdict>,
    /// For each whether its constant bytes have all needed words that are no variables.
    constants: Vec<bool>,
}

/// What was asked of the log types of an archive.
#[derive(Debug, Drop)]
pub struct AskedTypes {
    pub filter: Filter,
    /// For each log type whether its constant bytes have all needed words that are no variables,
    /// by their numbers.
    pub constants: Vec<bool>,
}

/// The longest run of literal bytes of a pattern, as log types store constant bytes.
fn longest_run(alloc: Global, wide: &Pattern) -> Result<Text, AllocError> {
    let matcher = Matcher::new(alloc, wide)?;
    let run = stored_text(alloc, matcher.needle())?;
    Ok(run)
}

/// A copy of a pattern.
fn copied(alloc: Global, pattern: &Pattern) -> Result<Pattern, AllocError>
    ensures { IfOk result (λ copy. copy ≡ pattern.now) }
{
    let items = Vec::from_slice(alloc, pattern.as_slice())?;
    Ok(Pattern::new(items))
}

/// Appends a copy of a needed word, where it is no variable.
fn push_constant(
    alloc: Global,
    constants: &mut Vec<Text>,
    variable: bool,
    word: &[u8],
) -> Result<(), AllocError>
    ensures variable { OnOk result (IsTrue variable → constants.new.items ≡ constants.old.items) }
    ensures constant { OnOk result (IsFalse variable
        → constants.new.items ≡ constants.old.items ++ word.now ∷ []) }
{
    if variable {
        return Ok(());
    }
    let text = Text::new(Vec::from_slice(alloc, word)?);
    constants.push(text)?;
    Ok(())
}

/// The needed words of a plan that are no variables.
fn constants_of(alloc: Global, plan: &Plan) -> Result<Vec<Text>, AllocError>
    ensures { IfOk result (λ constants. AreNeeded plan.now constants.items) }
{
    let words = plan.needed().as_slice();
    let variables = plan.needed_variables();
    let mut constants = Vec::new(alloc);
    for place in 0..words.len() {
        push_constant(
            alloc,
            &mut constants,
            variables[place],
            words[place].as_slice(),
        )?;
    }
    Ok(constants)
}

/// Whether all of these words are runs of a log type's text.
fn holds_all(words: &[Text], text: &[u8]) -> bool
    ensures { IsTrue result ↔ All (HoldsRun text.now) words.now }
{
    for word in words {
        if !holds_run(text, word.as_slice()) {
            return false;
        }
    }
    true
}

impl Filter {
    /// What each log type is asked by this filter, over a pattern.
    fn question(&self, alloc: Global, plan: &Plan) -> Result<Question, AllocError>
        ensures question { IfOk result (λ question. (types : List (List ℕ))
            → AsksTypes plan.now types self.now
            → IsQuestion plan.now self.now.tokens.items question) }
        ensures others { IfOk result (λ question. question.others ≡ others_of self.now) }
        ensures needed { IfOk result (λ question. AreNeeded plan.now question.constants.items) }
    {
        let looked = self.tokens.as_slice();
        let longest = longest_run(alloc, plan.wide())?;
        let others = self.others();
        let kinds = kind_bits(looked);
        Ok(Question {
            kinds,
            others,
            lead: longest_rare(looked, others),
            longest: Finder::new(longest.as_slice()).into_owned(alloc)?,
            tokens: all_bits(looked),
            firm: firm_bits(looked) & others,
            runs: run_bits(self.runs.as_slice()),
            stamped: self.run_stamped,
            by_words: kinds.without_numbers() || has_bound(looked),
            wide: copied(alloc, plan.wide())?,
            skeleton: copied(alloc, plan.skeleton())?,
            constants: constants_of(alloc, plan)?,
        })
    }

    /// What is known of the log type at a place, by its text. Its slots are listed behind those
    /// before.
    fn tested(
        &self,
        question: &Question,
        slots: &mut Vec<Slot>,
        place: usize,
        text: &[u8],
    ) -> Result<TestedType, AllocError>
        ensures test { IfOk result (λ tested. (ps : List Piece)
            → IsQuestion ps self.now.tokens.items question.now → IsTest ps self.now.tokens.items
            question.now.others slots.new.items text.now tested.test) }
        ensures alone { IfOk result (λ tested.
            IsAlone self.now.runs.items text.now tested.alone) }
        ensures stays { IfOk result (λ _. Stays slots.old.items slots.new.items) }
    {
        let runs = self.runs.as_slice();
        test_type(self.tokens.as_slice(), runs, question, slots, place, text)
    }
}

impl Asking {
    /// Begins with a filter of a plan's pattern, whose words were marked: a log type is rejected
    /// without a look at its slots, where its constant bytes do not bring what stamps, numbers and
    /// words leave out.
    pub fn begin(alloc: Global, plan: &Plan, filter: Filter) -> Result<Asking, AllocError>
        ensures { IfOk result (λ asking. (types : List (List ℕ)) → AsksTypes plan.now types filter
            → HasAsked plan.now filter [] asking) }
    {
        let question = filter.question(alloc, plan)?;
        Ok(Asking {
            alloc,
            filter,
            question,
            slots: Vec::new(alloc),
            tests: Vec::new(alloc),
            alone: Vec::new(alloc),
            verdicts: Vec::new(alloc),
            constants: Vec::new(alloc),
        })
    }

    /// Asks the next log type, by its text, and answers whether it is left: if not, all of its rows
    /// are rejected.
    pub fn add(&mut self, text: &[u8]) -> Result<bool, AllocError>
        ensures asked { OnOk result ((ps : List Piece) (f : Filter) (types : List (List ℕ))
            → HasAsked ps f types self.old → HasAsked ps f (types ++ text.now ∷ []) self.new) }
        ensures left { IfOk result (λ left.
            TellsNext self.old.verdicts.items self.new.verdicts.items left) }
    {
        let place = self.tests.len();
        let tested = self
            .filter
            .tested(&self.question, &mut self.slots, place, text)?;
        let verdict = self.filter.verdict_by(&tested.test, tested.alone);
        let has_all = holds_all(self.question.constants.as_slice(), text);
        self.tests.push(tested.test)?;
        self.alone.push(tested.alone)?;
        self.verdicts.push(verdict)?;
        self.constants.push(has_all)?;
        Ok(verdict != Verdict::Rejected)
    }

    /// The filter with what was told of the log types, and with what their rows need.
    pub fn finish(self) -> Result<AskedTypes, AllocError>
        ensures asked { IfOk result (λ asked. (ps : List Piece) (f : Filter)
            (types : List (List ℕ)) → HasAsked ps f types self → AreAsked ps f types asked) }
        ensures verdicts { IfOk result (λ asked.
            asked.filter.verdicts.items ≡ self.verdicts.items) }
    {
        let Asking {
            alloc,
            filter,
            slots,
            tests,
            alone,
            verdicts,
            constants,
            ..
        } = self;
        let small = small_needed(alloc, slots.as_slice(), filter.tokens.as_slice())?;
        let tested = Filter {
            tests,
            slots,
            small,
            alone,
            ..filter
        };
        let needs = tested.type_needs(alloc, verdicts.as_slice())?;
        let filter = Filter {
            verdicts,
            needs,
            ..tested
        };
        Ok(AskedTypes { filter, constants })
    }
}

/// Asks all log types of an archive.
pub(crate) fn add_all<N: Names>(asking: &mut Asking, names: &N) -> Result<(), AllocError>
    ensures { OnOk result ((ps : List Piece) (f : Filter) → HasAsked ps f [] asking.old
        → (n : ℕ) × HasAsked ps f (take n (N.types names.now)) asking.new) }
{
    for number in 0..u32::MAX {
        let Some(text) = names.type_text(number) else {
            return Ok(());
        };
        asking.add(text)?;
    }
    Ok(())
}
