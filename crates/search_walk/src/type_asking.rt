//! The log types of an archive, asked as they are read.
ghost use Rattle.std.specs.Prelude.{◌≡◌, IfOk, IsErrOf};
ghost use Rattle.log_seams.specs.Disk.{Rests};
ghost use Rattle.log_seams.specs.Outside.{CountsOf};
ghost use Rattle.word_places.specs.Places.{AreInOrder, OfWords, SomeWords};
ghost use Rattle.word_places.specs.Reads.{ReadsWords};
ghost use Rattle.search_walk.specs.TypePass.{ArePassed};

use crate::refusal::SearchRefusal;
use log_seams::Disk;
use query_plan::Plan;
use std::alloc::{AllocError, Global};
use subquery_filter::{AskedTypes, Asking, Filter};
use word_places::{TakesTexts, TypeTexts, WordsPlace, take_texts};

/// Asks each log type as it comes, and keeps those that are left: most are rejected, and nothing is
/// written of their messages.
#[derive(Drop)]
struct TypePass {
    asking: Asking,
    texts: TypeTexts,
}

impl TakesTexts for TypePass {
    ghost use Rattle.search_walk.specs.TypePass.{PassesOn, passes_both, passes_none};

    ghost took = { PassesOn };

    fn take(&mut self, text: &[u8]) -> Result<(), AllocError> {
        if self.asking.add(text)? {
            return self.texts.keep(text);
        }
        self.texts.leave_out()
    }

    ghost none = { passes_none };

    ghost both = { passes_both };
}

/// The log types of an archive that were asked, and those that are kept.
#[derive(Drop)]
pub(crate) struct PassedTypes {
    pub(crate) asked: AskedTypes,
    pub(crate) texts: TypeTexts,
}

/// Asks all log types of an archive by a filter whose words were asked, and keeps those that are
/// left. Each record is read once, through one buffer.
pub(crate) fn ask_types<D: Disk>(
    alloc: Global,
    plan: &Plan,
    filter: Filter,
    places: &[WordsPlace],
    disk: &mut D,
) -> Result<PassedTypes, SearchRefusal>
    requires { AreInOrder 0 places.now }

    // what stays
    ensures rests { Rests (D.state disk.old) (D.state disk.new) }
    ensures reads { ReadsWords places.now (D.state disk.old) (D.state disk.new) }

    // by the answer, and causes
    ensures places { IfOk result (λ p. p.texts.places ≡ places.now) }
    ensures passed { IfOk result (λ p. SomeWords (D.state disk.old).seen places.now
        (λ types. ArePassed plan.now filter types p)) }
    ensures damaged { IsErrOf result SearchRefusal.Damaged
        → OfWords (D.state disk.old).seen places.now (λ _. ⊥) }
    ensures counts { CountsOf SearchRefusal.DiskFault
        (D.state disk.old).faults (D.state disk.new).faults result }
    ensures sink { ¬ IsErrOf result SearchRefusal.SinkFault }
{
    let asking = Asking::begin(alloc, plan, filter)?;
    let texts = TypeTexts::begin(alloc, places)?;
    let mut pass = TypePass { asking, texts };
    let mut buffer = Vec::new(alloc);
    take_texts(disk, places, &mut buffer, &mut pass)?;
    let TypePass { asking, texts } = pass;
    let asked = asking.finish()?;
    Ok(PassedTypes { asked, texts })
}
