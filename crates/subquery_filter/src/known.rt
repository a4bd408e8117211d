//! The needed words of a plan, looked up once for a search.
ghost use Rattle.std.specs.Prelude.{◌≡◌, ℕ, List, IfOk, IfSome, OnOk};
ghost use Rattle.subquery_filter.specs.StepsKnown.{AreLookedUp, IsLookedUp};

use plain_list::Text;
use query_plan::Plan;
use row_codec::Names;
use std::alloc::{AllocError, Global};
use var_codec::{Coded, encode};

/// A text, and a number of it in the dictionary; none where it is no word.
#[derive(Debug, Drop)]
pub struct KnownWord {
    pub(crate) text: Text,
    pub(crate) number: Option<u32>,
}

/// Looks a variable up, where it is stored in the dictionary.
fn push_known<N: Names>(
    alloc: Global,
    known: &mut Vec<KnownWord>,
    text: &[u8],
    names: &N,
) -> Result<(), AllocError>
    ensures { OnOk result (AreLookedUp (N.words names.now) known.old.items
        → AreLookedUp (N.words names.now) known.new.items) }
{
    let Coded::Word = encode(text) else {
        return Ok(());
    };
    let number = names.word_number(text);
    let text = Text::new(text.to_vec(alloc)?);
    known.push(KnownWord { text, number })?;
    Ok(())
}

/// The words that [`barren`](crate::barren) looks up for a plan, with their numbers: the needed
/// variables that are stored in the dictionary. In a dictionary without an index each look-up is a
/// pass over it.
pub fn known_words<N: Names>(
    alloc: Global,
    plan: &Plan,
    names: &N,
) -> Result<Vec<KnownWord>, AllocError>
    ensures { IfOk result (λ known. AreLookedUp (N.words names.now) known.items) }
{
    let words = plan.needed().as_slice();
    let variables = plan.needed_variables();
    let mut known = Vec::new(alloc);
    for place in 0..words.len() {
        if variables[place] {
            push_known(alloc, &mut known, words[place].as_slice(), names)?;
        }
    }
    Ok(known)
}

/// The known word with this text.
pub(crate) fn known_word<'k>(known: &'k [KnownWord], text: &[u8]) -> Option<&'k KnownWord>
    ensures { IfSome result (λ word. (word.now.text ≡ text.now)
        × ((words : List (List ℕ)) → AreLookedUp words known.now → IsLookedUp words word.now)) }
{
    for word in known {
        if word.text.as_slice() == text {
            return Some(word);
        }
    }
    None
}
