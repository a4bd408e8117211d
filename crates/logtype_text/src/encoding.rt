//! From a body to the text of its log type and the codes of its variables, in one pass.
ghost use Rattle.std.specs.Prelude.{◌≡◌, ◌++◌, [], ◌∷◌, false, All, IsTrue, OnOk, map};
ghost use Rattle.logtype_text.specs.declared.symbols.Symbol.TheVariants.{Byte};
ghost use Rattle.logtype_text.specs.Encoded.{IsEncoded};
ghost use Rattle.logtype_text.specs.Parts.{kind_of};
ghost use Rattle.logtype_text.specs.TypeText.{is_escaped, placeholder, type_text};
ghost use Rattle.logtype_text.specs.Steps.{word_place};

use crate::Span;
use crate::splitting::{kind_of, next_variable};
use crate::text::{ESCAPE, needs_escape, placeholder};
use std::alloc::AllocError;
use token_rules::TokenReader;
use var_codec::{Coded, encode};

/// Splits a body as [`split`](crate::split) does, and writes what is stored of it: into `text` the
/// text of its log type, into `codes` what its variables are coded as, and into `words` the places of
/// those that go to a dictionary.
///
/// The memory of the three is used again. What they hold after a want of memory is left open.
pub fn encode_body(
    body: &[u8],
    text: &mut Vec<u8>,
    codes: &mut Vec<Coded>,
    words: &mut Vec<Span>,
) -> Result<(), AllocError>
    ensures { OnOk result (IsEncoded body.now text.new.items codes.new.items words.new.items) }
{
    text.clear();
    codes.clear();
    words.clear();
    // Asked once a body: bytes that need a `\` are rare, and without them constants are copied whole.
    let plain = is_plain(body);
    let mut tokens = TokenReader::new(body);
    let mut at = 0;
    while let Some(span) = next_variable(&mut tokens, at) {
        push_constants(text, &body[at..span.start], plain)?;
        push_variable(
            text,
            codes,
            words,
            span,
            encode(&body[span.start..span.end]),
        )?;
        at = span.end;
    }
    push_constants(text, &body[at..], plain)?;
    Ok(())
}

// Whether no byte needs a `\` before it.
#[inline]
fn is_plain(bytes: &[u8]) -> bool
    ensures { IsTrue result → All (λ b. is_escaped b ≡ false) bytes.now }
{
    let mut plain = true;
    // Without a way out, so that many bytes are tested at a time.
    for byte in bytes {
        plain &= !needs_escape(*byte);
    }
    plain
}

// Appends the text of constant bytes; `plain` tells that none of them needs a `\`.
#[inline]
fn push_constants(text: &mut Vec<u8>, bytes: &[u8], plain: bool) -> Result<(), AllocError>
    requires { IsTrue plain → All (λ b. is_escaped b ≡ false) bytes.now }
    ensures { OnOk result (text.new.items ≡ text.old.items ++ type_text (map Byte bytes.now)) }
{
    if plain {
        text.extend_from_slice(bytes)?;
        return Ok(());
    }
    push_escaped(text, bytes)
}

// Appends the text of constant bytes, one by one.
fn push_escaped(text: &mut Vec<u8>, bytes: &[u8]) -> Result<(), AllocError>
    ensures { OnOk result (text.new.items ≡ text.old.items ++ type_text (map Byte bytes.now)) }
{
    for byte in bytes {
        if needs_escape(*byte) {
            text.push(ESCAPE)?;
        }
        text.push(*byte)?;
    }
    Ok(())
}

// Appends a variable: its placeholder, its code, and its place where it goes to a dictionary.
#[inline]
fn push_variable(
    text: &mut Vec<u8>,
    codes: &mut Vec<Coded>,
    words: &mut Vec<Span>,
    span: Span,
    coded: Coded,
) -> Result<(), AllocError>
    ensures text { OnOk result
        (text.new.items ≡ text.old.items ++ placeholder (kind_of coded) ∷ []) }
    ensures codes { OnOk result (codes.new.items ≡ codes.old.items ++ coded ∷ []) }
    ensures words { OnOk result (words.new.items ≡ words.old.items ++ word_place coded span) }
{
    text.push(placeholder(kind_of(coded)))?;
    codes.push(coded)?;
    match coded {
        Coded::Word => words.push(span)?,
        Coded::Whole(_) | Coded::Decimal(_) => {}
    }
    Ok(())
}
