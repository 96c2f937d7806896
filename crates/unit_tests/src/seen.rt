//! What the tests call to compare. A failed assertion is a way out of its function, and what the function owns there is part of its proof; so it
//! stands here, where nothing is owned, and a test tells all that it saw at once.

use std::alloc::{AllocError, Global};
use std::fmt::{Debug, Display};
use std::process::Abort;

/// Fails the test unless what is told is what is wanted.
pub fn see<T: PartialEq + Debug + Copy>(rt: &impl Abort, told: T, want: T) {
    assert_eq!(rt; told, want);
}

/// Fails the test unless a value is written so.
pub fn see_text<D: Display + Drop>(
    rt: &impl Abort,
    alloc: Global,
    shown: D,
    want: &str,
) -> Result<(), AllocError> {
    let text = format!(in alloc; "{shown}")?;
    see(rt, text.as_str(), want);
    Ok(())
}
