//! Rows of variables by slot. A row that differs from another in one slot shares with it all branches but those on the way to the slot, so
//! that it takes memory by the logarithm of the slot's number.

ghost use Rattle.std.specs.Prelude.{◌≡◌, ◌≤◌, length, IfOk};
ghost use Rattle.slot_names.specs.Branches.{branch_at, value_of, next_row, AreBranches, IsAdded, IsPlaced};

use crate::branch::{Branch, empty_branch, next_row, with_next};
use crate::variable::Variable;
use std::alloc::{AllocError, Global};

/// Rows by number, which share their branches. The row 0 is empty, and the number of each other one is one more than the place of its first
/// branch. The value of a slot is one more than the place of its variable, or 0 if it has none.
#[derive(Drop)]
pub(crate) struct Rows {
    branches: Vec<Branch>,
    variables: Vec<Variable>,
    ghost sound: { AreBranches branches.items (length variables.items) },
}

impl Rows {
    ghost use Rattle.slot_names.specs.Rows.{named_at, IsRow, IsSet, KeepsRows};

    /// The empty row alone. It takes no memory.
    pub(crate) fn new(alloc: Global) -> Self {
        Rows {
            branches: Vec::new(alloc),
            variables: Vec::new(alloc),
        }
    }

    /// The variable of a slot in a row.
    pub(crate) fn get(&self, row: u32, slot: u32) -> Option<Variable>
        ensures { result ≡ named_at self.now row slot }
    {
        let place = self.value(row, slot).checked_sub(1)?;
        self.variables.get(place as usize).copied()
    }

    /// A row in which a slot has this variable, and each other slot that of the row.
    pub(crate) fn set(&mut self, row: u32, slot: u32, variable: Variable) -> Result<u32, AllocError>
        requires { IsRow self.old row }
        ensures { IfOk result (IsSet self.old self.new row slot variable) }
    {
        self.variables.push(variable)?;
        let value = number(self.variables.len())?;
        self.place(row, slot, value)
    }

    /// Gives back the room that no branch and no variable takes. It takes no memory.
    pub(crate) fn fit(&mut self)
        ensures { KeepsRows self.old self.new }
    {
        self.branches.shrink_to_fit();
        self.variables.shrink_to_fit();
    }

    /// The branch of a row.
    fn branch(&self, row: u32) -> Branch
        ensures { result ≡ branch_at self.now.branches.items row }
    {
        match row.checked_sub(1) {
            Some(place) => match self.branches.get(place as usize) {
                Some(branch) => *branch,
                None => empty_branch(),
            },
            None => empty_branch(),
        }
    }

    /// The value of a slot in a row.
    fn value(&self, row: u32, slot: u32) -> u32
        ensures { result ≡ value_of self.now.branches.items row slot }
    {
        let mut at = row;
        let mut left = slot;
        while left > 0 {
            at = next_row(self.branch(at), left - 1);
            left = (left - 1) / 2;
        }
        self.branch(at).value
    }

    /// A row in which a slot has this value, and each other slot that of the row.
    fn place(&mut self, row: u32, slot: u32, value: u32) -> Result<u32, AllocError>
        requires row { row ≤ length self.old.branches.items }
        requires value { value ≤ length self.old.variables.items }
        ensures placed { IfOk result (IsPlaced self.old.branches.items self.new.branches.items row slot value) }
        ensures variables { self.new.variables.items ≡ self.old.variables.items }
    {
        let branch = self.branch(row);
        if slot == 0 {
            return self.add(Branch { value, ..branch });
        }
        let next = self.place(next_row(branch, slot - 1), (slot - 1) / 2, value)?;
        self.add(with_next(branch, slot - 1, next))
    }

    /// The row that begins at a new branch.
    fn add(&mut self, branch: Branch) -> Result<u32, AllocError>
        requires odd { branch.odd ≤ length self.old.branches.items }
        requires even { branch.even ≤ length self.old.branches.items }
        requires value { branch.value ≤ length self.old.variables.items }
        ensures added { IfOk result (IsAdded self.old.branches.items self.new.branches.items branch) }
        ensures variables { self.new.variables.items ≡ self.old.variables.items }
    {
        self.branches.push(branch)?;
        number(self.branches.len())
    }
}

/// A count as a number of 32 bits.
fn number(count: usize) -> Result<u32, AllocError>
    ensures { IfOk result (λ number. number ≡ count) }
{
    u32::try_from(count).map_err(|_| AllocError)
}
