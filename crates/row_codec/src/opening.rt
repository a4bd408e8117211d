//! The first bytes of what a row is written as, without memory.
ghost use Rattle.std.specs.Prelude.{◌≡◌, ◌+◌, ◌≤◌, ◌++◌, ℕ, List, length, take};
ghost use Rattle.logtype_text.specs.TypeText.{text_of_symbol};
ghost use Rattle.row_codec.specs.Means.{HasStampText, IsWritten};
ghost use Rattle.row_codec.specs.StepsBody.{HasBody, HasStampWriting, HasWriting, IsBody};
ghost use Rattle.row_codec.specs.StepsOpening.{Fills};

use crate::Names;
use crate::fitting::dictionary_word;
use logtype_text::{Kind, Symbol, first_symbol};
use time_patterns::print_stamp;
use var_codec::{decimal_text, whole_text};

// So many bytes tell the stamp of a message.
pub(crate) const OPENING_LEN: usize = 32;

// Writes the text of a stamp, which is empty without one, and gives its length.
pub(crate) fn open_with_stamp(pattern: u8, moment: i64, out: &mut [u8; OPENING_LEN]) -> usize
    requires { HasStampWriting pattern moment }
    ensures within { result ≤ 32 }
    ensures stamp { HasStampText pattern moment (take result out.new) }
{
    if pattern == 0 {
        return 0;
    }
    print_stamp(pattern, moment, out)
}

// Writes behind the first `at` bytes what the text of a log type is written as with these words in
// its slots, as far as there is room.
pub(crate) fn fill_body<N: Names>(
    text: &[u8],
    words: &[u64],
    names: &N,
    out: &mut [u8; OPENING_LEN],
    at: usize,
) -> usize
    requires body { HasBody (N.words names.now) text.now words.now }
    requires at { at ≤ 32 }
    ensures within { result ≤ 32 }
    ensures filled { (body : List ℕ) × IsBody (N.words names.now) text.now words.now body
        × (take result out.new ≡ take 32 (take at out.old ++ body)) }
{
    let mut rest = text;
    let mut left = words;
    let mut end = at;
    while let Some((symbol, after)) = first_symbol(rest) {
        if end == OPENING_LEN {
            return end;
        }
        (end, left) = fill_symbol(symbol, left, names, out, end);
        rest = after;
    }
    end
}

// Writes what a symbol is written as with the first of these words, and gives the end and the words
// behind it.
fn fill_symbol<'a, N: Names>(
    symbol: Symbol,
    words: &'a [u64],
    names: &N,
    out: &mut [u8; OPENING_LEN],
    at: usize,
) -> (usize, &'a [u64])
    requires body { (after : List ℕ)
        × HasBody (N.words names.now) (text_of_symbol symbol ++ after) words.now }
    requires at { at ≤ 32 }
    ensures within { result.0 ≤ 32 }
    ensures filled { (after : List ℕ)
        → Fills (N.words names.now) (text_of_symbol symbol ++ after) words.now
        after result.1.now (take at out.old) (take result.0 out.new) }
{
    match symbol {
        Symbol::Byte(byte) => (fill(out, at, &[byte]), words),
        Symbol::Slot(kind) => {
            let [word, left @ ..] = words else {
                unreachable!();
            };
            (fill_word(kind, *word, names, out, at), left)
        }
    }
}

// Writes the text of a variable of this kind with this word.
fn fill_word<N: Names>(
    kind: Kind,
    word: u64,
    names: &N,
    out: &mut [u8; OPENING_LEN],
    at: usize,
) -> usize
    requires word { HasWriting (N.words names.now) kind word }
    requires at { at ≤ 32 }
    ensures within { result ≤ 32 }
    ensures filled { (text : List ℕ) × IsWritten (N.words names.now) kind text word
        × (take result out.new ≡ take 32 (take at out.old ++ text)) }
{
    let mut digits = [0; 20];
    match kind {
        Kind::Whole => {
            let len = whole_text(word.cast_signed(), &mut digits);
            fill(out, at, &digits[..len])
        }
        Kind::Decimal => {
            let len = decimal_text(word, &mut digits);
            fill(out, at, &digits[..len])
        }
        Kind::Word => match dictionary_word(word, names) {
            Some(text) => fill(out, at, text),
            None => unreachable!(),
        },
    }
}

// Writes bytes as far as there is room, and gives the end.
fn fill(out: &mut [u8; OPENING_LEN], at: usize, bytes: &[u8]) -> usize
    requires { at ≤ 32 }
    ensures within { result ≤ 32 }
    ensures filled { take result out.new ≡ take 32 (take at out.old ++ bytes.now) }
{
    let room = OPENING_LEN - at;
    if bytes.len() <= room {
        return put(out, at, bytes);
    }
    put(out, at, &bytes[..room])
}

// Copies bytes to a place, and gives the end.
fn put(out: &mut [u8; OPENING_LEN], at: usize, bytes: &[u8]) -> usize
    requires { at + length bytes.now ≤ 32 }
    ensures end { result ≡ at + length bytes.now }
    ensures written { take result out.new ≡ take at out.old ++ bytes.now }
{
    let end = at + bytes.len();
    out[at..end].copy_from_slice(bytes);
    end
}
