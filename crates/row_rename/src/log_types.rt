//! From the numbers of log types to those of the same log types in another archive.
ghost use Rattle.std.specs.Prelude.{◌≡◌, ◌≢◌, ◌++◌, ℕ, List, MatchOption, OnOk, Some, false, slice_get, IfOk};
ghost use Rattle.logtype_text.specs.TypeText.{IsTypeText, text_of_symbol};
ghost use Rattle.row_codec.specs.Numbers.{kinds_from};
ghost use Rattle.row_rename.specs.Tables.{AreLogTypes, IsLogType};

use logtype_text::{Kind, Symbol, first_symbol};
use std::alloc::{AllocError, Global};

/// A log type in another archive.
#[derive(Debug, Drop)]
pub(crate) struct LogType {
    /// Its number there.
    pub(crate) number: u32,
    /// The kinds of its slots, from left to right.
    pub(crate) kinds: Vec<Kind>,
}

/// For each number the log type in the other archive, which is found when it is first asked for: then
/// its text is cut, so that no row has to read it.
#[derive(Debug, Drop)]
pub(crate) struct LogTypes {
    named: Vec<Option<LogType>>,
}

impl LogTypes {
    /// No log types. Takes no memory.
    pub(crate) fn new(alloc: Global) -> LogTypes
        ensures { (old new : List (List ℕ)) → AreLogTypes old new result.named.items }
    {
        LogTypes {
            named: Vec::new(alloc),
        }
    }

    /// The log type with this number, if it is known.
    #[inline]
    pub(crate) fn get(&self, number: u32) -> Option<&LogType>
        ensures { MatchOption result
            ((l : _) → slice_get self.now.named.items number ≢ Some (Some l))
            (λ l. slice_get self.now.named.items number ≡ Some (Some l.now)) }
    {
        match self.named.get(number as usize) {
            Some(Some(log_type)) => Some(log_type),
            _ => None,
        }
    }

    /// Puts the log type with this number in. Without memory nothing of what was known is lost.
    pub(crate) fn set(&mut self, number: u32, log_type: LogType) -> Result<(), AllocError>
        ensures kept { (old new : List (List ℕ)) → AreLogTypes old new self.old.named.items
            → IsLogType old new number log_type → AreLogTypes old new self.new.named.items }
        ensures set { OnOk result
            (slice_get self.new.named.items number ≡ Some (Some log_type)) }
    {
        let place = number as usize;
        for _ in self.named.len()..place + 1 {
            self.named.push(None)?;
        }
        self.named[place] = Some(log_type);
        Ok(())
    }
}

// Adds the kind of a symbol that is a slot.
fn push_kind(symbol: Symbol, kinds: &mut Vec<Kind>) -> Result<(), AllocError>
    ensures { OnOk result ((rest : List ℕ)
        → kinds.old.items ++ kinds_from false (text_of_symbol symbol ++ rest)
        ≡ kinds.new.items ++ kinds_from false rest) }
{
    if let Symbol::Slot(kind) = symbol {
        kinds.push(kind)?;
    }
    Ok(())
}

/// The kinds of the slots of a log type's text, from left to right.
pub(crate) fn kinds_of(alloc: Global, text: &[u8]) -> Result<Vec<Kind>, AllocError>
    requires { IsTypeText text.now }
    ensures { IfOk result (λ kinds. kinds.items ≡ kinds_from false text.now) }
{
    let mut kinds = Vec::new(alloc);
    let mut rest = text;
    while let Some((symbol, after)) = first_symbol(rest) {
        push_kind(symbol, &mut kinds)?;
        rest = after;
    }
    Ok(kinds)
}
