//! From a body to its symbols.
ghost use Rattle.std.specs.Prelude.{◌≡◌, ◌+◌, ◌<◌, ◌≤◌, ◌++◌, [], All, IfOk, IfSome, IsNone, OnErr, OnOk, length, map, vec_capacity, vec_len};
ghost use Rattle.logtype_text.specs.declared.symbols.Symbol.TheVariants.{Byte};
ghost use Rattle.logtype_text.specs.Parts.{AreCodes, IsFree, IsSplit, IsVariableToken, kind_of, slot_count};
ghost use Rattle.token_rules.specs.Reading.{body_of};
ghost use Rattle.token_rules.specs.Tokens.{IsOutside};

use crate::{CodedList, Kind, Span, Spans, Split, Symbol, Symbols};
use std::alloc::{AllocError, Global};
use std::mem;
use token_rules::TokenReader;
use var_codec::{Coded, encode};

/// Splits a body into its symbols, the places of its variables, and what these are coded as.
///
/// Each token that is a variable, by the rule of [`token_rules::is_var`], becomes one slot of the kind
/// that [`var_codec::encode`] tells; every other byte of the body is a constant byte.
pub fn split(alloc: Global, body: &[u8]) -> Result<Split, AllocError>
    ensures parts { IfOk result (λ s. IsSplit body.now s.symbols s.spans) }
    ensures count { IfOk result (λ s. length s.spans ≡ slot_count s.symbols) }
    ensures ranges { IfOk result
        (λ s. All (λ p. (p.start < p.end) × (p.end ≤ length body.now)) s.spans) }
    ensures codes { IfOk result (λ s. AreCodes body.now s.spans s.codes) }
{
    split_into(Split::new(alloc), body)
}

impl Split {
    /// A split of nothing. Takes no memory.
    pub fn new(alloc: Global) -> Split
        ensures symbols { result.symbols ≡ [] }
        ensures spans { result.spans ≡ [] }
        ensures codes { result.codes ≡ [] }
    {
        Split {
            symbols: Symbols::new(Vec::new(alloc)),
            spans: Spans::new(Vec::new(alloc)),
            codes: CodedList::new(Vec::new(alloc)),
        }
    }

    /// Splits a body as [`split`] does, and uses the memory of the split before. After a want of memory
    /// it is a split of nothing.
    pub fn fill(&mut self, alloc: Global, body: &[u8]) -> Result<(), AllocError>
        ensures parts { OnOk result (IsSplit body.now self.new.symbols self.new.spans) }
        ensures count { OnOk result (length self.new.spans ≡ slot_count self.new.symbols) }
        ensures ranges { OnOk result
            (All (λ p. (p.start < p.end) × (p.end ≤ length body.now)) self.new.spans) }
        ensures codes { OnOk result (AreCodes body.now self.new.spans self.new.codes) }
        ensures emptied { OnErr result ((self.new.symbols ≡ []) × (self.new.spans ≡ [])
            × (self.new.codes ≡ [])) }
    {
        let before = mem::replace(self, Split::new(alloc));
        *self = split_into(before, body)?;
        Ok(())
    }
}

// Splits a body, in the memory of an earlier split.
fn split_into(before: Split, body: &[u8]) -> Result<Split, AllocError>
    ensures parts { IfOk result (λ s. IsSplit body.now s.symbols s.spans) }
    ensures count { IfOk result (λ s. length s.spans ≡ slot_count s.symbols) }
    ensures ranges { IfOk result
        (λ s. All (λ p. (p.start < p.end) × (p.end ≤ length body.now)) s.spans) }
    ensures codes { IfOk result (λ s. AreCodes body.now s.spans s.codes) }
{
    let Split {
        symbols,
        spans,
        codes,
    } = before;
    let mut symbols = symbols.into_vec();
    let mut spans = spans.into_vec();
    let mut codes = codes.into_vec();
    symbols.clear();
    spans.clear();
    codes.clear();
    symbols.reserve(body.len())?;
    let mut tokens = TokenReader::new(body);
    let mut at = 0;
    while let Some(span) = next_variable(&mut tokens, at) {
        push_bytes(&mut symbols, &body[at..span.start]);
        let coded = encode(&body[span.start..span.end]);
        symbols.push_reserved(Symbol::Slot(kind_of(coded)));
        spans.push(span)?;
        codes.push(coded)?;
        at = span.end;
    }
    push_bytes(&mut symbols, &body[at..]);
    Ok(Split {
        symbols: Symbols::new(symbols),
        spans: Spans::new(spans),
        codes: CodedList::new(codes),
    })
}

// The first variable from a place on, which stands in no token; `None` where none is left.
#[inline]
pub(crate) fn next_variable(tokens: &mut TokenReader<'_>, from: usize) -> Option<Span>
    requires in_range { from ≤ length (body_of tokens.old) }
    requires outside { IsOutside (body_of tokens.old) from }
    ensures body { body_of tokens.new ≡ body_of tokens.old }
    ensures first { IfSome result
        (λ span. (from ≤ span.start) × IsFree (body_of tokens.old) from span.start) }
    ensures token { IfSome result
        (λ span. IsVariableToken (body_of tokens.old) span.start span.end) }
    ensures none { IsNone result
        → IsFree (body_of tokens.old) from (length (body_of tokens.old)) }
{
    let mut at = from;
    while let Some(token) = tokens.next_from(at) {
        if token.variable {
            return Some(Span {
                start: token.start,
                end: token.end,
            });
        }
        at = token.end;
    }
    None
}

// The kind of variable that has such a word.
#[inline]
pub(crate) fn kind_of(coded: Coded) -> Kind
    ensures { result ≡ kind_of coded }
{
    match coded {
        Coded::Whole(_) => Kind::Whole,
        Coded::Decimal(_) => Kind::Decimal,
        Coded::Word => Kind::Word,
    }
}

// Appends constant bytes, for which there is room.
#[inline]
fn push_bytes(symbols: &mut Vec<Symbol>, bytes: &[u8])
    requires { vec_len symbols.old + length bytes.now ≤ vec_capacity symbols.old }
    ensures items { symbols.new.items ≡ symbols.old.items ++ map Byte bytes.now }
    ensures len { vec_len symbols.new ≡ vec_len symbols.old + length bytes.now }
    ensures capacity { vec_capacity symbols.new ≡ vec_capacity symbols.old }
{
    for byte in bytes {
        symbols.push_reserved(Symbol::Byte(*byte));
    }
}
