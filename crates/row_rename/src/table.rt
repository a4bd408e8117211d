//! From the numbers of words to those of the same words in another archive.
ghost use Rattle.std.specs.Prelude.{ℕ, IfSome, List};
ghost use Rattle.row_rename.specs.Renamed.{HaveOneText};
ghost use Rattle.row_rename.specs.Tables.{IsTable};

use std::alloc::{AllocError, Global};

/// Stands in a table where no number is known. A word that has this number is named anew each time.
pub(crate) const NOT_NAMED: u32 = u32::MAX;

/// For each number the other one, which is found when it is first asked for.
#[derive(Debug, Drop)]
pub(crate) struct Table {
    numbers: Vec<u32>,
}

impl Table {
    /// A table without numbers. Takes no memory.
    pub(crate) fn new(alloc: Global) -> Table
        ensures { (old new : List (List ℕ)) → IsTable old new result.numbers.items }
    {
        Table {
            numbers: Vec::new(alloc),
        }
    }

    /// The other number, if it is known.
    #[inline]
    pub(crate) fn get(&self, number: u32) -> Option<u32>
        ensures { (old new : List (List ℕ)) → IsTable old new self.now.numbers.items
            → IfSome result (λ renamed. HaveOneText old new number renamed) }
    {
        match self.numbers.get(number as usize) {
            Some(renamed) if *renamed != NOT_NAMED => Some(*renamed),
            _ => None,
        }
    }

    /// Puts the other number in. Without memory nothing is changed.
    pub(crate) fn set(&mut self, number: u32, renamed: u32) -> Result<(), AllocError>
        ensures { (old new : List (List ℕ)) → IsTable old new self.old.numbers.items
            → HaveOneText old new number renamed → IsTable old new self.new.numbers.items }
    {
        let place = number as usize;
        if self.numbers.len() <= place {
            self.numbers.resize(place + 1, NOT_NAMED)?;
        }
        self.numbers[place] = renamed;
        Ok(())
    }
}
