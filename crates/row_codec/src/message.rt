//! From a message to a row of its own.
ghost use Rattle.std.specs.Prelude.{◌≡◌, ℕ, ◌≤◌, IfOk, IsErrOf, length};
ghost use Rattle.row_codec.specs.declared.TheConstants.{MAX_MESSAGE_LEN};
ghost use Rattle.row_codec.specs.Means.{IsCanonical};
ghost use Rattle.row_codec.specs.Messages.{IsTypeOf, IsWordOf};
ghost use Rattle.row_codec.specs.Naming.{HasGrown, MeetsLimit};
ghost use Rattle.row_codec.specs.Numbers.{numbers_of_row};

use crate::{Encoder, NameRefusal, Namer};
use column_store::Row;
use plain_list::NumberList;
use std::alloc::Global;

/// A message as a row, and the numbers of dictionary words that the row has, from left to right.
#[derive(Debug, Drop)]
pub struct Encoded {
    /// The row.
    pub row: Row,
    /// The numbers.
    pub used: NumberList,
}

/// The row of a message, whose texts are named: the log type first, and then the words from left to
/// right. After a refusal the texts named so far stay named.
///
/// An [`Encoder`] does the same for many messages without an allocation for each.
pub fn encode_message<N: Namer>(
    alloc: Global,
    line: &[u8],
    namer: &mut N,
) -> Result<Encoded, NameRefusal>
    requires { length line.now ≤ MAX_MESSAGE_LEN }

    // What stays, and what the namer has learned.
    ensures version { N.version namer.new ≡ N.version namer.old }
    ensures types { HasGrown (IsTypeOf (N.version namer.old) line.now)
        (N.types namer.old) (N.types namer.new) }
    ensures words { HasGrown (IsWordOf (N.version namer.old) line.now)
        (N.words namer.old) (N.words namer.new) }

    // The row.
    ensures row { IfOk result (λ e. IsCanonical (N.version namer.old) e.row
        (N.types namer.new).texts (N.words namer.new).texts line.now) }
    ensures used { IfOk result (λ e. numbers_of_row (N.types namer.new).texts e.row ≡ e.used) }

    // A full dictionary.
    ensures full { (book : _) (count : ℕ) → IsErrOf result (NameRefusal.Full book count)
        → MeetsLimit (N.version namer.old) line.now book count
        (N.types namer.new) (N.words namer.old) (N.words namer.new) }
{
    let mut encoder = Encoder::new(alloc);
    encoder.read(namer.micro(), line)?;
    encoder.name(line, namer)?;
    Ok(encoder.into_encoded())
}
