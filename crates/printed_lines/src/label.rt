//! What stands before a message in its line.
ghost use Rattle.std.specs.Prelude.{◌≡◌, ◌++◌, OnOk};
ghost use Rattle.printed_lines.specs.Lines.{label_of};

use std::alloc::AllocError;

/// Appends what stands before a message in its line: the name of its file and its number in the file,
/// from 1, each with a `:` behind it.
pub fn put_label(gathered: &mut Vec<u8>, name: &[u8], number: u64) -> Result<(), AllocError>
    ensures { OnOk result (gathered.new.items ≡ gathered.old.items ++ label_of name.now number) }
{
    gathered.extend_from_slice(name)?;
    gathered.push(b':')?;
    gathered.extend_from_slice(itoa::Buffer::new().format(number).as_bytes())?;
    gathered.push(b':')?;
    Ok(())
}
