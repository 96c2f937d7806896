//! Lists by number.

ghost use Rattle.std.specs.Prelude.{◌≡◌, ◌<◌, ℕ, [], length, OnErr, OnOk};
ghost use Rattle.grouped_lists.specs.Groups.{values_at, IsPut, IsSame};
ghost use Rattle.grouped_lists.specs.Ordered.{AreOrdered, IsOrdered};

use std::alloc::{AllocError, Global};

/// For each number the values that were added, in their order.
#[derive(Drop)]
pub struct Groups<V: Copy> {
    pub groups: Vec<Vec<V>>,
    alloc: Global,
}

impl<V: Copy> Groups<V> {
    /// No value at any number. It takes no memory.
    pub fn new(alloc: Global) -> Self
        ensures { (q : ℕ) → values_at result.groups.items q ≡ [] }
    {
        Groups {
            groups: Vec::new(alloc),
            alloc,
        }
    }

    /// The values of a number of 32 bits.
    pub fn get(&self, number: u32) -> &[V]
        ensures { result.now ≡ values_at self.now.groups.items number }
    {
        self.at(number as usize)
    }

    /// The values of a number.
    pub fn at(&self, number: usize) -> &[V]
        ensures { result.now ≡ values_at self.now.groups.items number }
    {
        match self.groups.get(number) {
            Some(group) => group.as_slice(),
            None => &[],
        }
    }

    /// Adds a value to those of a number of 32 bits. Where memory runs out, each number has the values that it had.
    pub fn add(&mut self, number: u32, value: V) -> Result<(), AllocError>
        ensures put { OnOk result (IsPut self.old.groups.items self.new.groups.items number value) }
        ensures same { OnErr result (IsSame self.old.groups.items self.new.groups.items) }
    {
        self.add_at(number as usize, value)
    }

    /// Adds a value to those of a number. It takes memory for each number up to this one. Where that runs out, each number has the
    /// values that it had.
    pub fn add_at(&mut self, number: usize, value: V) -> Result<(), AllocError>
        ensures put { OnOk result (IsPut self.old.groups.items self.new.groups.items number value) }
        ensures same { OnErr result (IsSame self.old.groups.items self.new.groups.items) }
    {
        self.grow(number)?;
        let group = &mut self.groups[number];
        group.push(value)?;
        Ok(())
    }

    /// Makes a list for each number up to this one.
    fn grow(&mut self, number: usize) -> Result<(), AllocError>
        ensures same { IsSame self.old.groups.items self.new.groups.items }
        ensures room { OnOk result (number < length self.new.groups.items) }
    {
        while self.groups.len() <= number {
            self.groups.push(Vec::new(self.alloc))?;
        }
        Ok(())
    }
}

impl<V: Copy + Ord> Groups<V> {
    /// Puts the values of each number into ascending order, each once. It takes no memory.
    pub fn order(&mut self)
        ensures { AreOrdered V.eq V.cmp self.old.groups.items self.new.groups.items }
    {
        for number in 0..self.groups.len() {
            order_values(&mut self.groups[number]);
        }
    }
}

/// Puts values into ascending order, each once.
fn order_values<V: Copy + Ord>(values: &mut Vec<V>)
    ensures { IsOrdered V.eq V.cmp values.old.items values.new.items }
{
    values.sort_unstable();
    values.dedup();
}
