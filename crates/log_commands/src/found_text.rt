//! How `scan` prints a message.
ghost use Rattle.std.specs.Prelude.{◌≡◌, ◌++◌, OnOk};
ghost use Rattle.command_answers.specs.Scanned.{Finds, found_line};

use crate::message_text::MessageText;
use std::alloc::AllocError;
use wild_match::Matcher;

/// Prints the messages that a pattern matches, with the log's name and their numbers.
#[derive(Clone, Copy)]
pub(crate) struct Scan<'a> {
    /// The log's name.
    pub(crate) name: &'a str,
    /// The pattern, made ready.
    pub(crate) matcher: &'a Matcher,
}

/// Appends the line of a message that was found.
fn push_found(
    gathered: &mut Vec<u8>,
    name: &str,
    number: u64,
    message: &[u8],
) -> Result<(), AllocError>
    ensures { OnOk result
        (gathered.new.items ≡ gathered.old.items ++ found_line name.now number message.now) }
{
    gathered.extend_from_slice(name.as_bytes())?;
    gathered.push(b':')?;
    gathered.extend_from_slice(itoa::Buffer::new().format(number).as_bytes())?;
    gathered.push(b':')?;
    gathered.extend_from_slice(message)?;
    gathered.push(b'\n')?;
    Ok(())
}

impl MessageText for Scan<'_> {
    ghost tells = { λ s. Finds s.name.now s.matcher.now.items };

    type Kept = ();

    fn kept(&self) {}

    fn tell(
        &self,
        _kept: &mut (),
        gathered: &mut Vec<u8>,
        number: u64,
        message: &[u8],
    ) -> Result<(), AllocError> {
        if self.matcher.matches(message) {
            push_found(gathered, self.name, number, message)
        } else {
            Ok(())
        }
    }
}
