//! Branches, of which rows are made.

ghost use Rattle.std.specs.Prelude.{◌≡◌};
ghost use Rattle.slot_names.specs.Branches.{empty_branch, next_row, with_next};

/// A branch of a row: the value of one slot, and two rows that have half of the slots after it each, the odd ones and the even ones. The
/// value 0 is that there is none, and the row 0 is empty.
#[derive(Clone, Copy)]
pub(crate) struct Branch {
    pub(crate) value: u32,
    pub(crate) odd: u32,
    pub(crate) even: u32,
}

/// The branch of the empty row.
pub(crate) fn empty_branch() -> Branch
    ensures { result ≡ empty_branch }
{
    Branch {
        value: 0,
        odd: 0,
        even: 0,
    }
}

/// The row that has the slot after this one.
pub(crate) fn next_row(branch: Branch, slot: u32) -> u32
    ensures { result ≡ next_row branch slot }
{
    if slot % 2 == 0 {
        branch.odd
    } else {
        branch.even
    }
}

/// The branch with another row in the place of the one that has the slot after this one.
pub(crate) fn with_next(branch: Branch, slot: u32, row: u32) -> Branch
    ensures { result ≡ with_next branch slot row }
{
    if slot % 2 == 0 {
        Branch { odd: row, ..branch }
    } else {
        Branch {
            even: row,
            ..branch
        }
    }
}
