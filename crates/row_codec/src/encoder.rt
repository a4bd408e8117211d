//! From a message to its row, in buffers that are filled again.
ghost use Rattle.std.specs.Prelude.{◌≡◌, ℕ, ◌≤◌, ◌↔◌, List, ◌∷◌, IsErrOf, IsTrue, OnOk, length};
ghost use Rattle.var_codec.specs.declared.Coded.{Coded};
ghost use Rattle.row_codec.specs.Steps.{front_of, words_of};
ghost use Rattle.column_store.specs.Row.{row_of};
ghost use Rattle.time_patterns.specs.Stamps.{HasStamp};
ghost use Rattle.row_codec.specs.declared.TheConstants.{MAX_MESSAGE_LEN};
ghost use Rattle.row_codec.specs.Encoding.{HasRead, row_held};
ghost use Rattle.row_codec.specs.Means.{IsCanonical};
ghost use Rattle.row_codec.specs.Messages.{IsTypeOf, IsWordOf};
ghost use Rattle.row_codec.specs.Naming.{AsksFor, HasGrown, MeetsLimit, refusal_of};
ghost use Rattle.row_codec.specs.Numbers.{numbers_of_row};

use crate::{Encoded, NameRefusal, Namer};
use column_store::{Row, RowRef};
use logtype_text::{Span, encode_body};
use plain_list::{NumberList, WordList};
use std::alloc::{AllocError, Global};
use time_patterns::{Stamp, read_micro, read_stamp};
use var_codec::Coded;

// The front of a message as a row keeps it: 0 in each field where there is no stamp.
#[derive(Clone, Copy)]
pub(crate) struct Front {
    pub(crate) pattern: u8,
    pub(crate) moment: i64,
    pub(crate) len: usize,
}

/// A message on its way to a row. It is filled again for each message, so that one costs no
/// allocation once the buffers have grown.
#[derive(Drop)]
pub struct Encoder {
    // The stamp, which the body follows.
    front: Front,
    // The text of the log type.
    text: Vec<u8>,
    // What the variables are coded as.
    codes: Vec<Coded>,
    // Where in the body those stand that go to a dictionary.
    places: Vec<Span>,
    // The numbers of those.
    used: Vec<u32>,
    // The words of the variables.
    words: Vec<u64>,
    // The number of the log type.
    log_type: u32,
}

// The front of a message with this stamp.
#[inline]
fn front_of(stamp: Option<Stamp>) -> Front
    ensures { result ≡ front_of stamp }
{
    match stamp {
        Some(
            Stamp {
                pattern,
                moment,
                len,
            },
        ) => Front {
            pattern,
            moment,
            len: usize::from(len),
        },
        None => Front {
            pattern: 0,
            moment: 0,
            len: 0,
        },
    }
}

// The front of a message in the versions whose moments count microseconds, or in those whose
// moments count milliseconds.
#[inline]
pub(crate) fn read_front(micro: bool, line: &[u8]) -> Front
    ensures stamp { (version : ℕ) → (IsTrue micro ↔ (3 ≤ version))
        → HasStamp version line.now result.pattern result.moment result.len }
    ensures inside { result.len ≤ length line.now }
{
    if micro {
        return front_of(read_micro(line));
    }
    front_of(read_stamp(line))
}

impl Encoder {
    /// An encoder that holds nothing. Takes no memory.
    pub fn new(alloc: Global) -> Encoder {
        Encoder {
            front: Front {
                pattern: 0,
                moment: 0,
                len: 0,
            },
            text: Vec::new(alloc),
            codes: Vec::new(alloc),
            places: Vec::new(alloc),
            used: Vec::new(alloc),
            words: Vec::new(alloc),
            log_type: 0,
        }
    }

    /// Reads a message: its stamp, and what is stored of its body. `micro` tells whether the
    /// archive's moments count microseconds. After a want of memory the encoder holds nothing of use.
    pub fn read(&mut self, micro: bool, line: &[u8]) -> Result<(), AllocError>
        ensures { (version : ℕ) → (IsTrue micro ↔ (3 ≤ version))
            → OnOk result (HasRead self.new version line.now) }
    {
        self.front = read_front(micro, line);
        encode_body(
            &line[self.front.len..],
            &mut self.text,
            &mut self.codes,
            &mut self.places,
        )?;
        Ok(())
    }

    /// Names the texts of the message that was read, the log type first and then the words from left
    /// to right, and makes its row. After a refusal the texts named so far stay named.
    pub fn name<N: Namer>(&mut self, line: &[u8], namer: &mut N) -> Result<(), NameRefusal>
        requires read { HasRead self.old (N.version namer.old) line.now }
        requires short { length line.now ≤ MAX_MESSAGE_LEN }

        // What stays, and what the namer has learned.
        ensures version { N.version namer.new ≡ N.version namer.old }
        ensures types { HasGrown (IsTypeOf (N.version namer.old) line.now)
            (N.types namer.old) (N.types namer.new) }
        ensures words { HasGrown (IsWordOf (N.version namer.old) line.now)
            (N.words namer.old) (N.words namer.new) }
        ensures asked { AsksFor N.naming (N.version namer.old) line.now (refusal_of result)
            namer.old namer.new }

        // The row.
        ensures row { OnOk result (IsCanonical (N.version namer.old) (row_held self.new)
            (N.types namer.new).texts (N.words namer.new).texts line.now) }
        ensures used { OnOk result (numbers_of_row (N.types namer.new).texts (row_held self.new)
            ≡ self.new.used.items) }

        // A full dictionary.
        ensures full { (book : _) (count : ℕ) → IsErrOf result (NameRefusal.Full book count)
            → MeetsLimit (N.version namer.old) line.now book count
            (N.types namer.new) (N.words namer.old) (N.words namer.new) }
    {
        self.log_type = namer.name_type(self.text.as_slice())?;
        namer.name_spans(
            &line[self.front.len..],
            self.places.as_slice(),
            &mut self.used,
        )?;
        put_words(self.codes.as_slice(), self.used.as_slice(), &mut self.words)?;
        Ok(())
    }

    /// The row of the message that was named last.
    pub fn row(&self) -> RowRef<'_>
        ensures { row_of result ≡ row_held self.now }
    {
        RowRef {
            pattern: self.front.pattern,
            moment: self.front.moment,
            log_type: self.log_type,
            words: self.words.as_slice(),
        }
    }

    /// The numbers of dictionary words that the row has, from left to right.
    pub fn used(&self) -> &[u32]
        ensures { result.now ≡ self.now.used.items }
    {
        self.used.as_slice()
    }

    // The row of the message that was named last, and its numbers, with the memory of both.
    pub(crate) fn into_encoded(self) -> Encoded
        ensures row { result.row ≡ row_held self }
        ensures used { result.used ≡ self.used.items }
    {
        Encoded {
            row: Row {
                pattern: self.front.pattern,
                moment: self.front.moment,
                log_type: self.log_type,
                words: WordList::new(self.words),
            },
            used: NumberList::new(self.used),
        }
    }
}

// Writes the words of variables that are coded so; `used` has the numbers of those that go to a
// dictionary, in order.
fn put_words(codes: &[Coded], used: &[u32], words: &mut Vec<u64>) -> Result<(), AllocError>
    ensures { OnOk result (words.new.items ≡ words_of codes.now used.now) }
{
    words.clear();
    words.reserve(codes.len())?;
    let mut rest = used;
    for coded in codes {
        let (word, after) = next_word(*coded, rest);
        words.push_reserved(word);
        rest = after;
    }
    Ok(())
}

// The word of a variable, and the numbers that are left for those behind it.
#[inline]
fn next_word(coded: Coded, numbers: &[u32]) -> (u64, &[u32])
    ensures { (codes : List Coded)
        → words_of (coded ∷ codes) numbers.now ≡ result.0 ∷ words_of codes result.1.now }
{
    match coded {
        Coded::Whole(number) => (number.cast_unsigned(), numbers),
        Coded::Decimal(word) => (word, numbers),
        Coded::Word => match numbers {
            [number, rest @ ..] => (u64::from(*number), rest),
            [] => (0, numbers),
        },
    }
}
