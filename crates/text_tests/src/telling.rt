//! How a test ends.
use std::test::Fail;

/// Fails where what a test asks does not hold.
pub(crate) fn holds(answer: Result<bool, Fail>) -> Result<(), Fail> {
    if answer? {
        Ok(())
    } else {
        Err(Fail::from("it does not hold"))
    }
}
