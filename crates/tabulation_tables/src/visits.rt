//! Marks by number.

ghost use Rattle.std.specs.Prelude.{◌≡◌, ◌↔◌, ◌<◌, ◌⊎◌, ℕ, Some, true, length, slice_get, IsTrue, OnOk};
ghost use Rattle.tabulation_tables.specs.Marks.{AreSameMarks, IsMarked};

use std::alloc::AllocError;

/// Whether a number is marked.
pub fn is_marked(marks: &Vec<bool>, number: usize) -> bool
    ensures { IsTrue result ↔ (slice_get marks.now.items number ≡ Some true) }
{
    match marks.get(number) {
        Some(mark) => *mark,
        None => false,
    }
}

/// Marks a number. It answers an error where memory runs out.
pub fn mark(marks: &mut Vec<bool>, number: usize) -> Result<(), AllocError>
    ensures marked { OnOk result (IsMarked marks.old.items marks.new.items number) }
{
    grow(marks, number)?;
    marks[number] = true;
    Ok(())
}

/// Makes room for each number up to this one.
fn grow(marks: &mut Vec<bool>, number: usize) -> Result<(), AllocError>
    ensures same { AreSameMarks marks.old.items marks.new.items }
    ensures room { OnOk result (number < length marks.new.items) }
{
    while marks.len() <= number {
        marks.push(false)?;
    }
    Ok(())
}
