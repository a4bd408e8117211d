//! The row of a message whose texts are all in the dictionaries.
ghost use Rattle.std.specs.Prelude.{◌≡◌, ℕ, ◌<◌, ◌≤◌, ◌^◌, [], IfNone, IfOk, IfSome, IsErrOf, MatchOption, Some, length, slice_get};
ghost use Rattle.column_store.specs.declared.row.Row.{Row};
ghost use Rattle.row_codec.specs.declared.TheConstants.{MAX_MESSAGE_LEN};
ghost use Rattle.row_codec.specs.declared.namer.NameRefusal.TheVariants.{Full};
ghost use Rattle.row_codec.specs.declared.namer.Which.TheVariants.{Words};
ghost use Rattle.row_codec.specs.Means.{IsCanonical};
ghost use Rattle.plain_list.specs.Texts.{IsNew};

use column_store::Row;
use logtype_text::{Span, one_list_of_parts};
use plain_list::{NumberList, Text, TextList};
use row_codec::{NameRefusal, Namer, Which, encode_message};
use std::alloc::{AllocError, Global};

/// The number of a text of a dictionary, if it is there.
pub(crate) fn number_of(texts: &[Text], text: &[u8]) -> Option<u32>
    requires { length texts.now < 2 ^ 32 }
    ensures { MatchOption result (IsNew texts.now text.now) (λ n.
        slice_get texts.now n ≡ Some text.now) }
{
    for number in 0..texts.len() {
        if texts[number].as_slice() == text {
            return Some(number as u32);
        }
    }
    None
}

// Both dictionaries, to which no text is added: each is full.
#[derive(Drop)]
struct Lookup<'a> {
    alloc: Global,
    types: &'a [Text],
    words: &'a [Text],
    version: u32,
    ghost few_types: { length types.now < 2 ^ 32 },
    ghost few_words: { length words.now < 2 ^ 32 },
}

impl Lookup<'_> {
    // The number of a word, or the refusal of a dictionary that is full.
    fn word(&self, text: &[u8]) -> Result<u32, NameRefusal>
        ensures named { IfOk result (λ n. slice_get self.now.words.now n ≡ Some text.now) }
        ensures full { (book : _) (count : ℕ) → IsErrOf result (NameRefusal.Full book count)
            → (book ≡ Words) × IsNew self.now.words.now text.now
            × (count ≡ length self.now.words.now) }
    {
        match number_of(self.words, text) {
            Some(number) => Ok(number),
            None => Err(NameRefusal::Full {
                book: Which::Words,
                count: self.words.len() as u32,
            }),
        }
    }
}

impl Namer for Lookup<'_> {
    ghost types = { λ l. record { texts = l.types.now; added = []; limit = length l.types.now } };

    ghost words = { λ l. record { texts = l.words.now; added = []; limit = length l.words.now } };

    ghost version = { λ l. l.version };

    ghost naming = { λ _ _ _ _ _. Unit {0} };

    fn micro(&self) -> bool {
        self.version >= 3
    }

    fn name_type(&mut self, text: &[u8]) -> Result<u32, NameRefusal> {
        match number_of(self.types, text) {
            Some(number) => Ok(number),
            None => Err(NameRefusal::Full {
                book: Which::Types,
                count: self.types.len() as u32,
            }),
        }
    }

    fn name_words(&mut self, texts: &TextList) -> Result<NumberList, NameRefusal> {
        let mut numbers = Vec::new(self.alloc);
        for text in texts.as_slice() {
            let number = self.word(text.as_slice())?;
            numbers.push(number)?;
        }
        Ok(NumberList::new(numbers))
    }

    fn name_spans(
        &mut self,
        line: &[u8],
        spans: &[Span],
        numbers: &mut Vec<u32>,
    ) -> Result<(), NameRefusal> {
        numbers.clear();
        for span in spans {
            let number = self.word(&line[span.start..span.end])?;
            numbers.push(number)?;
        }
        Ok(())
    }
}

/// The row of a message, or `None` where a text of its encoding is not in the dictionaries.
pub(crate) fn row_for(
    alloc: Global,
    version: u32,
    types: &[Text],
    words: &[Text],
    message: &[u8],
) -> Result<Option<Row>, AllocError>
    requires few_types { length types.now < 2 ^ 32 }
    requires few_words { length words.now < 2 ^ 32 }
    requires short { length message.now ≤ MAX_MESSAGE_LEN }
    ensures some { IfOk result (λ found. IfSome found (λ row.
        IsCanonical version row types.now words.now message.now)) }
    ensures none { IfOk result (λ found. IfNone found ((row : Row)
        → ¬ IsCanonical version row types.now words.now message.now)) }
{
    one_list_of_parts();
    let mut lookup = Lookup {
        alloc,
        types,
        words,
        version,
    };
    match encode_message(alloc, message, &mut lookup) {
        Ok(encoded) => Ok(Some(encoded.row)),
        Err(NameRefusal::Full { .. }) => Ok(None),
        Err(NameRefusal::OutOfMemory) => Err(AllocError),
    }
}
