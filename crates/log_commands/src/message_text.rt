//! How the messages of a log are printed.
ghost use Rattle.std.specs.Prelude.{◌≡◌, ◌++◌, ℕ, List, OnOk};

use std::alloc::AllocError;

/// Says which text a message is printed as.
pub(crate) trait MessageText {
    /// The message of a number, from 1, is printed as the text.
    ghost tells: { Self → ℕ → List ℕ → List ℕ → Type 0 };

    /// Memory that is kept from message to message.
    type Kept: Drop;

    /// The memory before the first message. Takes none.
    fn kept(&self) -> Self::Kept;

    /// Appends the text of a message.
    fn tell(
        &self,
        kept: &mut Self::Kept,
        gathered: &mut Vec<u8>,
        number: u64,
        message: &[u8],
    ) -> Result<(), AllocError>
        ensures { OnOk result
            ((text : List ℕ) × (gathered.new.items ≡ gathered.old.items ++ text)
            × tells self.now number message.now text) };
}
