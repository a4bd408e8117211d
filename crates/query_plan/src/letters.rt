//! Matching a pattern over a text that is read from its front, with no memory taken.
ghost use Rattle.std.specs.Prelude.{◌≡◌, ◌↔◌, ℕ, List, [], ◌∷◌, IfOk, IfErr, IfSome, IfNone, IsTrue};
ghost use Rattle.wild_match.specs.Matches.{Match};
ghost use Rattle.wild_match.specs.declared.pattern.Item.TheVariants.{Many};
ghost use Rattle.query_plan.specs.StepsOfMatching.{Front, Stops, GoesOn};

use wild_match::Item;

/// A text that is read from its front. A copy reads on from the same place.
pub trait Letters: Copy {
    /// The bytes that are left.
    ghost rest: { Self → List ℕ };

    /// Takes the next byte, or gives `None` where none is left.
    fn letter(&mut self) -> Option<u8>
        ensures some { IfSome result (λ b. rest self.old ≡ b ∷ rest self.new) }
        ensures none { IfNone result ((rest self.old ≡ []) × (rest self.new ≡ [])) };
}

/// What is left of a pattern and of a text.
#[derive(Clone, Copy)]
struct Left<'a, T: Letters> {
    items: &'a [Item],
    text: T,
}

/// Matches the items before the next [`Item::Many`] at the text's front.
fn after_chunk<'a, T: Letters>(items: &'a [Item], start: T) -> Option<Left<'a, T>>
    ensures found { IfSome result (λ l. Front items.now (T.rest start) l.items.now (T.rest l.text)
        × Stops l.items.now) }
    ensures none { IfNone result (¬ Match items.now (T.rest start)) }
{
    let mut rest = items;
    let mut text = start;
    while let Some((first, behind)) = rest.split_first() {
        if *first == Item::Many {
            break;
        }
        let letter = text.letter()?;
        if let Item::Byte(byte) = first {
            if *byte != letter {
                return None;
            }
        }
        rest = behind;
    }
    Some(Left { items: rest, text })
}

/// Whether no byte is left.
fn is_over<T: Letters>(mut text: T) -> bool
    ensures { IsTrue result ↔ (T.rest text ≡ []) }
{
    text.letter().is_none()
}

/// One step behind an [`Item::Many`]: the answer as `Err`, or what is left after the next chunk was
/// found at the front, or after a byte was passed over.
fn advance<'a, T: Letters>(items: &'a [Item], start: T) -> Result<Left<'a, T>, bool>
    ensures goes { IfOk result (λ l. GoesOn items.now (T.rest start) l.items.now (T.rest l.text)) }
    ensures over { IfErr result (λ v. IsTrue v ↔ Match (Many ∷ items.now) (T.rest start)) }
{
    let Some((first, behind)) = items.split_first() else {
        return Err(true);
    };
    let mut text = start;
    if *first == Item::Many {
        return Ok(Left {
            items: behind,
            text,
        });
    }
    let Some(letter) = text.letter() else {
        return Err(false);
    };
    let passed = Left { items, text };
    if let Item::Byte(byte) = first {
        if *byte != letter {
            return Ok(passed);
        }
    }
    let Some(left) = after_chunk(behind, text) else {
        return Ok(passed);
    };
    match left.items.split_first() {
        Some((_, rest)) => Ok(Left {
            items: rest,
            text: left.text,
        }),
        None => if is_over(left.text) {
            Err(true)
        } else {
            Ok(passed)
        },
    }
}

/// Whether [`Item::Many`] and then these items match the text.
fn matches_behind<T: Letters>(items: &[Item], start: T) -> bool
    ensures { IsTrue result ↔ Match (Many ∷ items.now) (T.rest start) }
{
    let mut rest = items;
    let mut text = start;
    'steps: loop {
        match advance(rest, text) {
            Ok(left) => {
                rest = left.items;
                text = left.text;
            }
            Err(answer) => return answer,
        }
    }
}

/// Whether the pattern matches the text, all of it.
///
/// Takes no memory. Each chunk between two [`Item::Many`] is taken at its first place, so that a
/// mismatch goes back to the last [`Item::Many`] only. At worst it costs the items of the pattern times
/// the bytes of the text.
pub fn matches_letters<T: Letters>(items: &[Item], start: T) -> bool
    ensures { IsTrue result ↔ Match items.now (T.rest start) }
{
    let Some(left) = after_chunk(items, start) else {
        return false;
    };
    match left.items.split_first() {
        Some((_, rest)) => matches_behind(rest, left.text),
        None => is_over(left.text),
    }
}
