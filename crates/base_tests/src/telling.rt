//! How a test ends.
use std::alloc::AllocError;
use std::test::Fail;

/// Fails where what a test asks does not hold.
pub(crate) fn holds(answer: Result<bool, AllocError>) -> Result<(), Fail> {
    if answer? {
        Ok(())
    } else {
        Err(Fail::from("it does not hold"))
    }
}

/// Fails with the place of the first row of so many that does not hold.
pub(crate) fn all_hold(told: Result<usize, AllocError>, count: usize) -> Result<(), Fail> {
    let told = told?;
    if told == count {
        Ok(())
    } else {
        Err(Fail::new(told))
    }
}
