//! Which tokens stand in the texts of numbers.
ghost use Rattle.std.specs.Prelude.{◌≡◌, ℕ, List, ◌/◌, ◌%◌, ◌^◌, All, IsFalse, IsTrue, None, Some, false, true};
ghost use Rattle.var_codec.specs.Codes.{Codes};
ghost use Rattle.var_codec.specs.declared.Coded.{Coded};
ghost use Rattle.var_codec.specs.declared.Coded.TheVariants.{Decimal as DecimalWord};
ghost use Rattle.logtype_text.specs.declared.symbols.Kind.TheVariants.{Whole};
ghost use Rattle.wild_match.specs.Matches.{Match};
ghost use Rattle.row_codec.specs.Means.{HasWord};
ghost use Rattle.query_plan.specs.Needs.{around};
ghost use Rattle.subquery_filter.specs.Filter.{AreCoded, AreKindBits, Covers, Finds, MarksOpen, MarksVariable, TellsSmall};
ghost use Rattle.subquery_filter.specs.NumberText.{is_number_part, is_plain};

use crate::number_text::{is_digits, unsigned};
use crate::slots::KindBits;
use crate::small::{SmallNumbers, whole_marks};
use crate::token::Token;
use crate::tokens::{coded_bits, open_marks};
use logtype_text::Kind;
use var_codec::{Coded, decimal_ok, decimal_text, one_word};

/// The bits of a decimal's word that are the number of its digits.
const NUMBER: u64 = (1 << 54) - 1;

/// Whether a token that is no closed variable may stand in a variable of this kind.
fn may_stand(text: &[u8], kind: Kind) -> bool
    ensures { (words : List (List ℕ)) (variable : List ℕ) (word : ℕ)
        → HasWord words kind variable word → Match (around text.now) variable → result ≡ true }
{
    match kind {
        Kind::Whole => is_digits(false, unsigned(text)),
        Kind::Decimal => is_digits(true, unsigned(text)),
        Kind::Word => true,
    }
}

/// Whether what is stored so is a variable of this kind.
fn is_kind(code: Coded, kind: Kind) -> bool
    ensures { (words : List (List ℕ)) (variable : List ℕ) (word : ℕ)
        → HasWord words kind variable word → Codes variable code → result ≡ true }
{
    one_word();
    match code {
        Coded::Whole(_) => kind == Kind::Whole,
        Coded::Decimal(_) => kind == Kind::Decimal,
        Coded::Word => kind == Kind::Word,
    }
}

/// Whether a token may be in a variable of this kind.
fn may_be(token: &Token, kind: Kind) -> bool
    ensures { ((code : Coded) → token.now.closed ≡ Some code → Codes token.now.text code)
        → (words : List (List ℕ)) (variable : List ℕ) (word : ℕ)
        → HasWord words kind variable word → Finds token.now variable → result ≡ true }
{
    match token.closed {
        Some(code) => is_kind(code, kind),
        None => may_stand(token.text.as_slice(), kind),
    }
}

/// The bit of a token that may be in a variable of this kind.
fn kind_bit(token: &Token, kind: Kind) -> u8
    ensures { ((code : Coded) → token.now.closed ≡ Some code → Codes token.now.text code)
        → (words : List (List ℕ)) (variable : List ℕ) (word : ℕ)
        → HasWord words kind variable word → Finds token.now variable
        → result ≡ token.now.bit }
{
    if may_be(token, kind) { token.bit } else { 0 }
}

/// The bits of the tokens that may be in variables of this kind.
fn bits_of_kind(tokens: &[Token], kind: Kind) -> u8
    ensures { AreCoded tokens.now → Covers tokens.now kind result }
{
    let mut bits = 0;
    for token in tokens {
        bits |= kind_bit(token, kind);
    }
    bits
}

/// The bits that each kind of variable may bring.
pub(crate) fn kind_bits(tokens: &[Token]) -> KindBits
    ensures { AreCoded tokens.now → AreKindBits tokens.now result }
{
    KindBits {
        whole: bits_of_kind(tokens, Kind::Whole),
        decimal: bits_of_kind(tokens, Kind::Decimal),
        word: bits_of_kind(tokens, Kind::Word),
    }
}

/// Whether some token that is no closed variable may stand in the text of a number, one with a
/// point or without. Where none does, no digits have to be looked at.
pub(crate) fn has_open(tokens: &[Token]) -> bool
    ensures { IsFalse result → All (λ k. k.closed ≡ None
        → is_number_part true k.text ≡ false) tokens.now }
{
    for token in tokens {
        if is_open_number(token) {
            return true;
        }
    }
    false
}

/// Whether a token is no closed variable, and may stand in the text of a number.
#[inline]
fn is_open_number(token: &Token) -> bool
    ensures { IsFalse result → token.now.closed ≡ None
        → is_number_part true token.now.text ≡ false }
{
    token.numeric
}

/// The bits of the tokens that are in a whole number. Its digits are looked at only where its word
/// does not tell them.
#[inline]
pub(crate) fn whole_bits(tokens: &[Token], small: &SmallNumbers, word: u64) -> u8
    ensures { TellsSmall tokens.now small.now → AreCoded tokens.now → (words : List (List ℕ))
        → (variable : List ℕ) → HasWord words Whole variable word
        → MarksVariable tokens.now variable result }
{
    one_word();
    let exact = coded_bits(tokens, Coded::Whole(word.cast_signed()));
    if let Some(bits) = small.bits_of(word) {
        return exact | bits;
    }
    if !has_open(tokens) {
        return exact;
    }
    exact | whole_marks(tokens, word)
}

/// Whether no token may stand in the text of a decimal but such as are digits alone, the first of
/// which is no zero: they stand in it only where they stand in that of its digits read as one
/// number.
#[inline]
pub(crate) fn are_plain(tokens: &[Token]) -> bool
    ensures { IsTrue result → All (λ k. k.closed ≡ None → is_number_part true k.text ≡ true
        → is_plain k.text ≡ true) tokens.now }
{
    for token in tokens {
        if is_pointed(token) {
            return false;
        }
    }
    true
}

/// Whether a token may stand in the text of a number, and is not digits alone, the first of which
/// is no zero.
#[inline]
fn is_pointed(token: &Token) -> bool
    ensures { IsFalse result → token.now.closed ≡ None → is_number_part true token.now.text ≡ true
        → is_plain token.now.text ≡ true }
{
    if token.plain {
        return false;
    }
    token.numeric
}

/// The bits of the tokens, but for closed variables, that stand in the text of a decimal, by its
/// digits.
#[inline(never)]
fn printed_decimal(tokens: &[Token], word: u64) -> u8
    ensures { (text : List ℕ) → Codes text (DecimalWord word) → MarksOpen tokens.now text result }
{
    if !decimal_ok(word) {
        return 0;
    }
    let mut digits = [0; 20];
    let len = decimal_text(word, &mut digits);
    open_marks(tokens, &digits[..len])
}

/// The digits of a decimal read as one number.
#[inline]
fn number_in(word: u64) -> u64
    ensures { result ≡ word / 2 ^ 8 % 2 ^ 54 }
{
    word >> 8 & NUMBER
}

/// The bits of the tokens, but for closed variables, that stand in the text of a decimal: by what
/// is told of its digits read as one number, where that tells enough.
#[inline]
fn open_decimal(tokens: &[Token], small: &SmallNumbers, word: u64) -> u8
    ensures { TellsSmall tokens.now small.now → (text : List ℕ) → Codes text (DecimalWord word)
        → MarksOpen tokens.now text result }
{
    if !are_plain(tokens) {
        return printed_decimal(tokens, word);
    }
    match small.bits_of(number_in(word)) {
        Some(bits) => bits,
        None => printed_decimal(tokens, word),
    }
}

/// The bits of the tokens that are in a decimal.
#[inline]
pub(crate) fn decimal_bits(tokens: &[Token], small: &SmallNumbers, word: u64) -> u8
    ensures { TellsSmall tokens.now small.now → AreCoded tokens.now → (variable : List ℕ)
        → Codes variable (DecimalWord word) → MarksVariable tokens.now variable result }
{
    one_word();
    let exact = coded_bits(tokens, Coded::Decimal(word));
    if !has_open(tokens) {
        return exact;
    }
    exact | open_decimal(tokens, small, word)
}
