//! What the rows of a page share, so that it is told once for all of them.
ghost use Rattle.std.specs.Prelude.{◌<◌, ◌≤◌, ℕ, List, length};
ghost use Rattle.row_codec.specs.Means.{HasStampText};
ghost use Rattle.subquery_filter.specs.Filter.{RunMarks, StampMarks};
ghost use Rattle.subquery_filter.specs.declared.run.Run.{Run};
ghost use Rattle.subquery_filter.specs.declared.token.Token.{Token};
ghost use Rattle.subquery_filter.specs.Page.{AreMay, IsSpan};

use crate::run::Run;
use crate::run_stamps::span_runs;
use crate::stamps::span_tokens;
use crate::token::Token;
use crate::tokens::chunk_marks;
use time_patterns::StampPrinter;

/// The numbers of patterns are below this.
const PATTERNS: usize = 32;

/// What a stamp may bring.
#[derive(Clone, Copy, Debug)]
pub(crate) struct StampBits {
    /// The bits of the runs that it may have.
    pub(crate) runs: u8,
    /// The bits of the tokens that may lie in it.
    pub(crate) tokens: u8,
}

/// The least and the greatest moment of rows whose stamps have one pattern, and what stamps of the
/// pattern may bring between the two.
#[derive(Clone, Copy, Debug)]
pub(crate) struct Span {
    pub(crate) least: i64,
    pub(crate) greatest: i64,
    pub(crate) may: StampBits,
}

/// Nothing is brought.
const NO_BITS: StampBits = StampBits { runs: 0, tokens: 0 };

/// No moments.
const NO_SPAN: Span = Span {
    least: i64::MAX,
    greatest: i64::MIN,
    may: NO_BITS,
};

/// What goes along from row to row while the rows of a page are told: which tokens stand in all
/// stamps of a pattern there, which runs and tokens may stand in some, and the day of the last stamp
/// that was printed.
///
/// That a token stands in all of them is a hint: a row that brings all tokens so is tried, as any
/// row may be.
#[derive(Debug, Drop)]
pub struct PageTests {
    pub(crate) printer: StampPrinter,
    /// The bits of the tokens, by the numbers of the patterns.
    shared: [u8; PATTERNS],
    /// The spans of the page's moments, by the numbers of the patterns.
    pub(crate) spans: [Span; PATTERNS],
}

/// The spans of the moments of rows, by the numbers of the patterns of their stamps.
fn spans_of(patterns: &[u8], moments: &[i64]) -> [Span; PATTERNS] {
    let mut spans = [NO_SPAN; PATTERNS];
    for place in 0..patterns.len().min(moments.len()) {
        let number = usize::from(patterns[place]) % PATTERNS;
        let moment = moments[place];
        let span = spans[number];
        spans[number] = Span {
            least: span.least.min(moment),
            greatest: span.greatest.max(moment),
            ..NO_SPAN
        };
    }
    spans
}

/// How many bytes two texts have in common at their fronts.
fn common_front(one: &[u8], other: &[u8]) -> usize
    ensures { result ≤ length one.now }
{
    for place in 0..one.len().min(other.len()) {
        if one[place] != other[place] {
            return place;
        }
    }
    one.len().min(other.len())
}

/// The bits of the tokens that stand, with what stands around them in the pattern, in what the
/// stamps of the two moments have in common, and so in each stamp of a moment between them.
fn span_bits(tokens: &[Token], pattern: u8, span: Span, printer: &mut StampPrinter) -> u8 {
    if span.greatest < span.least {
        return 0;
    }
    let mut low = [0; 32];
    let Some(low_end) = printer.print_front(pattern, span.least, &mut low) else {
        return 0;
    };
    let mut high = [0; 32];
    let Some(high_end) = printer.print_front(pattern, span.greatest, &mut high) else {
        return 0;
    };
    let low = &low[..low_end];
    let front = common_front(low, &high[..high_end]);
    chunk_marks(tokens, &low[..front])
}

/// A span of moments, with what stamps of the pattern may bring there.
fn with_bits(tokens: &[Token], runs: &[Run], pattern: u8, span: Span) -> Span
    ensures { 1 ≤ pattern → IsSpan tokens.now runs.now pattern result }
{
    let may = StampBits {
        runs: span_runs(runs, pattern, span.least, span.greatest),
        tokens: span_tokens(tokens, pattern, span.least, span.greatest),
    };
    Span { may, ..span }
}

impl PageTests {
    /// Nothing is known to be shared. Takes no memory.
    pub fn new() -> PageTests
        ensures { (tokens : List Token) (runs : List Run) → AreMay tokens runs result.spans }
    {
        PageTests {
            printer: StampPrinter::new(),
            shared: [0; PATTERNS],
            spans: [NO_SPAN; PATTERNS],
        }
    }

    /// Adds what the stamps of a pattern share between two moments, and may have.
    fn add_span(&mut self, tokens: &[Token], runs: &[Run], number: u8, span: Span)
        requires { (1 ≤ number) × (number < 32) }
        ensures { AreMay tokens.now runs.now self.old.spans
            → AreMay tokens.now runs.now self.new.spans }
    {
        if span.greatest < span.least {
            return;
        }
        let place = usize::from(number);
        self.shared[place] = span_bits(tokens, number, span, &mut self.printer);
        self.spans[place] = with_bits(tokens, runs, number, span);
    }

    /// What the stamps of a page share, whose rows have these patterns and moments.
    pub(crate) fn of(tokens: &[Token], runs: &[Run], patterns: &[u8], moments: &[i64]) -> PageTests
        ensures { AreMay tokens.now runs.now result.spans }
    {
        let mut tests = PageTests::new();
        let spans = spans_of(patterns, moments);
        for number in 1..PATTERNS {
            tests.add_span(tokens, runs, number as u8, spans[number]);
        }
        tests
    }

    /// What the stamp of a row may bring, of what stamps of its pattern may.
    #[inline]
    pub(crate) fn may_at(&self, pattern: u8, moment: i64, own: StampBits) -> StampBits
        ensures runs { (tokens : List Token) (runs : List Run) (s : List ℕ)
            → AreMay tokens runs self.now.spans → HasStampText pattern moment s
            → RunMarks runs s own.runs → RunMarks runs s result.runs }
        ensures tokens { (tokens : List Token) (runs : List Run) (s : List ℕ)
            → AreMay tokens runs self.now.spans → HasStampText pattern moment s
            → StampMarks tokens s own.tokens → StampMarks tokens s result.tokens }
    {
        let place = usize::from(pattern);
        if place >= PATTERNS {
            return own;
        }
        let span = self.spans[place];
        if span.least <= moment && moment <= span.greatest {
            span.may
        } else {
            own
        }
    }

    /// The bits of the tokens that stand in all stamps of a pattern.
    #[inline]
    pub(crate) fn shared(&self, pattern: u8) -> u8 {
        self.shared[usize::from(pattern) % PATTERNS]
    }
}
