//! The text that a log type is stored as.
ghost use Rattle.std.specs.Prelude.{◌≡◌, ◌≢◌, ℕ, List, [], ◌∷◌, ◌↔◌, IfOk, IfNone, IfSome, IsErrOf, IsTrue, MatchOption, ◌++◌};
ghost use Rattle.logtype_text.specs.declared.symbols.Symbol.{Symbol};
ghost use Rattle.logtype_text.specs.declared.text.TextRefusal.TheVariants.{OutOfMemory};
ghost use Rattle.logtype_text.specs.TypeText.{IsGood, IsLoneAt, IsTypeText, is_escaped, placeholder, text_of_symbol, type_text};

use crate::{Kind, Symbol, Symbols};
use plain_list::Text;
use std::alloc::{AllocError, AllocFailed, Global};
use thiserror::Error;

// Stands before a constant byte that is a placeholder's or is this byte.
pub(crate) const ESCAPE: u8 = b'\\';

// The placeholders, one behind the other: of a whole number, of a word, and of a decimal.
pub(crate) const WHOLE: u8 = 0x11;

const WORD: u8 = 0x12;

const DECIMAL: u8 = 0x13;

/// Why a text was not read as a log type.
#[derive(Clone, Copy, Debug, PartialEq, Eq, Error)]
pub enum TextRefusal {
    /// The `\` at this place stands before no byte that needs it.
    #[error("lone backslash at {at}")]
    BadText {
        /// The place of the first such `\`, from 0.
        at: usize,
    },
    /// Memory ran out.
    #[error("out of memory")]
    OutOfMemory,
}

impl From<AllocError> for TextRefusal {
    ghost from_gives = { λ _ e. e ≡ OutOfMemory };

    fn from(_error: AllocError) -> TextRefusal {
        TextRefusal::OutOfMemory
    }
}

/// The text of a log type: a constant byte 11, 12, 13 or 5C (hexadecimal) becomes 5C and itself, any
/// other constant byte itself, and a slot 11 for a whole number, 12 for a word and 13 for a decimal.
pub fn to_text(alloc: Global, symbols: &Symbols) -> Result<Text, AllocError>
    ensures { IfOk result (λ t. t ≡ type_text symbols.now) }
{
    let symbols = symbols.as_slice();
    let mut text = Vec::with_capacity(alloc, symbols.len())?;
    for symbol in symbols {
        match *symbol {
            Symbol::Byte(byte) => {
                if needs_escape(byte) {
                    text.push(ESCAPE)?;
                }
                text.push(byte)?;
            }
            Symbol::Slot(kind) => text.push(placeholder(kind))?,
        }
    }
    Ok(Text::new(text))
}

// The byte that stands for a variable of this kind.
#[inline]
pub(crate) fn placeholder(kind: Kind) -> u8
    ensures { result ≡ placeholder kind }
{
    match kind {
        Kind::Whole => WHOLE,
        Kind::Word => WORD,
        Kind::Decimal => DECIMAL,
    }
}

/// Whether a constant byte stands behind a `\` in the text of a log type. Takes no memory.
#[inline]
pub fn needs_escape(byte: u8) -> bool
    ensures { result ≡ is_escaped byte }
{
    (WHOLE <= byte && byte <= DECIMAL) || byte == ESCAPE
}

/// Whether the bytes are the text of a log type: read from the front, each `\` stands before one of
/// 11, 12, 13 or 5C (hexadecimal), which belongs to it. Takes no memory.
pub fn text_ok(text: &[u8]) -> bool
    ensures good { IsTrue result ↔ IsGood text.now }
    ensures spelled { IsTrue result ↔ IsTypeText text.now }
{
    lone_escape(text).is_none()
}

// The place of the first `\` that stands before no byte that needs it.
fn lone_escape(text: &[u8]) -> Option<usize>
    ensures { MatchOption result (IsTypeText text.now) (λ at. IsLoneAt text.now at) }
{
    let mut at = 0;
    while at < text.len() {
        if text[at] != ESCAPE {
            at += 1;
        } else if at + 1 < text.len() && needs_escape(text[at + 1]) {
            at += 2;
        } else {
            return Some(at);
        }
    }
    None
}

/// The symbols whose text this is; `BadText` exactly where a `\` stands before no byte that needs it,
/// with the place of the first such.
pub fn from_text(alloc: Global, text: &[u8]) -> Result<Symbols, TextRefusal>
    ensures ok { IfOk result (λ s. type_text s ≡ text.now) }
    ensures back { (symbols : _) → type_text symbols ≡ text.now → IfOk result (λ s. s ≡ symbols) }
    ensures bad { (at : _) → IsErrOf result (TextRefusal.BadText at) ↔ IsLoneAt text.now at }
{
    if let Some(at) = lone_escape(text) {
        return Err(TextRefusal::BadText { at });
    }
    let mut symbols = Vec::with_capacity(alloc, text.len())?;
    let mut rest = text;
    while let Some((symbol, after)) = first_symbol(rest) {
        symbols.push_reserved(symbol);
        rest = after;
    }
    Ok(Symbols::new(symbols))
}

/// The first symbol of a text, and the text of the others; `None` where the text is empty or begins
/// with a `\` that stands before no byte that needs it. Takes no memory.
#[inline]
pub fn first_symbol(text: &[u8]) -> Option<(Symbol, &[u8])>
    ensures some { IfSome result (λ r. text.now ≡ text_of_symbol r.0 ++ r.1.now) }
    ensures none { IfNone result
        ((symbol : Symbol) (rest : List ℕ) → text.now ≢ text_of_symbol symbol ++ rest) }
{
    match text {
        [ESCAPE, byte, rest @ ..] if needs_escape(*byte) => Some((Symbol::Byte(*byte), rest)),
        [ESCAPE, ..] | [] => None,
        [byte, rest @ ..] => Some((plain_symbol(*byte), rest)),
    }
}

// The symbol of a byte that has no escape before it and is none.
#[inline]
fn plain_symbol(byte: u8) -> Symbol
    requires { byte ≢ 0x5C }
    ensures { text_of_symbol result ≡ byte ∷ [] }
{
    match byte {
        WHOLE => Symbol::Slot(Kind::Whole),
        WORD => Symbol::Slot(Kind::Word),
        DECIMAL => Symbol::Slot(Kind::Decimal),
        _ => Symbol::Byte(byte),
    }
}
