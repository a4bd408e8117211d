//! How a test ends.
use std::alloc::AllocError;
use std::test::Fail;

/// Fails where what a test asks does not hold.
pub(crate) fn holds(answer: Result<bool, AllocError>) -> Result<(), Fail> {
    if answer? {
        Ok(())
    } else {
        Err(Fail::from("it does not hold"))
    }
}
