//! Lines of text in their order.

use anyhow::Result;

/// Prints lines in byte order.
pub fn tell_lines<R: Print>(rt: &R, mut lines: Vec<String>) -> Result<()> {
    lines.sort()?;
    for line in &lines {
        println!(rt; "{line}")?;
    }
    Ok(())
}
