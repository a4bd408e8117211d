//! A body as plain data: constant bytes, and variables with their texts.
ghost use Rattle.std.specs.Prelude.{◌++◌};
ghost use Rattle.logtype_text.specs.Parts.{joined};
ghost use Rattle.query_plan.specs.Symbols.{parts};

use crate::letters::Letters;
use logtype_text::Kind;
use plain_list::{ListOf, Text};

/// A part of a body.
#[derive(Debug, Drop)]
pub enum VarSymbol {
    /// A byte of constant text.
    Byte(u8),
    /// A variable.
    Var {
        /// How it is stored.
        kind: Kind,
        /// Its text.
        text: Text,
    },
}

/// The parts of a body in order.
pub type VarSymbols = ListOf<VarSymbol>;

/// Bytes, and then the texts of symbols, to be read from the front.
#[derive(Clone, Copy)]
pub(crate) struct SymbolLetters<'a> {
    pub(crate) head: &'a [u8],
    pub(crate) symbols: &'a [VarSymbol],
}

impl Letters for SymbolLetters<'_> {
    ghost rest = { λ l. l.head.now ++ joined (parts l.symbols.now) };

    fn letter(&mut self) -> Option<u8> {
        loop {
            if let Some((first, behind)) = self.head.split_first() {
                self.head = behind;
                return Some(*first);
            }
            let (first, behind) = self.symbols.split_first()?;
            self.symbols = behind;
            match first {
                VarSymbol::Byte(byte) => return Some(*byte),
                VarSymbol::Var { kind: _, text } => self.head = text.as_slice(),
            }
        }
    }
}
