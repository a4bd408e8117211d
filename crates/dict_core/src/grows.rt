//! Books under the turn lock, and which texts a pass may add.
use crate::book::Book;
use plain_list::Text;
use turn_lock::Grows;

/// The number of the first pass over the book of Words. A pass with a lower number adds log types,
/// one with a higher number adds Words, and the pass with this number adds nothing.
pub const WORDS_FIRST: u64 = 4_294_967_295;

impl Grows for Book {
    ghost use Rattle.dict_core.specs.Fair.{IsFair};

    type Entry = Text;

    type Fixed = u32;

    ghost entries = { λ b. b.texts };

    ghost may_add = { IsFair };

    ghost fixed = { λ b. b.limit };

    fn count(&self) -> u64 {
        u64::from(self.len())
    }
}
