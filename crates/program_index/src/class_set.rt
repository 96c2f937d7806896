//! Sets of classes that keep the order in which the classes came.

ghost use Rattle.std.specs.Prelude.{◌≡◌, ℕ, ◌<◌, ◌≤◌, [], ◌++◌, Some, length, slice_get, All, OnOk, OnErr, IfOk, IfNone, nat_eq};
ghost use Rattle.std.specs.List.{IsDistinct};
ghost use Rattle.std.specs.Option.{option_to_list};
ghost use Rattle.program_index.specs.ClassSets.{Classes, AreMarked, HasFrontOf, has, with_class, with_classes};

use std::alloc::{AllocError, Global};
use std::marker::Model;

/// Some of the classes whose numbers are below a size, in the order in which they came, with a mark for each.
#[derive(Drop)]
pub struct ClassSet {
    marks: Vec<bool>,
    items: Vec<u32>,
}

impl Model for ClassSet {
    ghost Value = { Classes };

    ghost view = { λ s. record { size = length s.marks.items; items = s.items.items } };

    ghost invariant = { λ s. AreMarked s.marks.items s.items.items };
}

impl ClassSet {
    /// The empty set, for classes with numbers below the size.
    pub fn new(alloc: Global, size: usize) -> Result<Self, AllocError>
        ensures { IfOk result (λ s. s ≡ record { size = size; items = [] }) }
    {
        let marks = vec![in alloc; false; size]?;
        let items = Vec::new(alloc);
        Ok(ClassSet { marks, items })
    }

    /// How many classes it has. Each counts once.
    pub fn len(&self) -> usize
        ensures count { result ≡ length self.now.items }
        ensures bound { result ≤ self.now.size }
        ensures distinct { IsDistinct nat_eq self.now.items }
    {
        self.items.len()
    }

    /// The class at a place, counted from 0.
    pub fn at(&self, place: usize) -> u32
        requires { place < length self.now.items }
        ensures found { slice_get self.now.items place ≡ Some result }
        ensures below { result < self.now.size }
    {
        self.items[place]
    }

    /// Whether it has the class.
    pub fn contains(&self, class: u32) -> bool
        requires { class < self.now.size }
        ensures { result ≡ has self.now.items class }
    {
        self.marks[class as usize]
    }

    /// The classes, in the order in which they came.
    pub fn as_slice(&self) -> &[u32]
        ensures { result.now ≡ self.now.items }
    {
        &self.items
    }

    /// The classes as a vector. It takes no memory.
    pub fn into_vec(self) -> Vec<u32>
        ensures items { result.items ≡ self.items }
        ensures below { All (λ (x : ℕ). x < self.size) self.items }
        ensures distinct { IsDistinct nat_eq self.items }
    {
        let ClassSet { marks: _, items } = self;
        items
    }

    /// Adds the class at the end, if the set does not have it. If memory runs out, the set stays as it was.
    pub fn add(&mut self, class: u32) -> Result<(), AllocError>
        requires { class < self.old.size }
        ensures ok { OnOk result (self.new ≡ record { size = self.old.size; items = with_class self.old.items class }) }
        ensures err { OnErr result (self.new ≡ self.old) }
    {
        if !self.marks[class as usize] {
            self.items.push(class)?;
            self.marks[class as usize] = true;
        }
        Ok(())
    }

    /// Adds each of the classes at the end, in their order, if the set does not have it. If memory runs out, some first ones
    /// are added.
    pub fn add_all(&mut self, classes: &[u32]) -> Result<(), AllocError>
        requires { All (λ (x : ℕ). x < self.old.size) classes.now }
        ensures ok { OnOk result (self.new ≡ record { size = self.old.size; items = with_classes self.old.items classes.now }) }
        ensures err { OnErr result (HasFrontOf self.old classes.now self.new) }
    {
        for class in classes {
            self.add(*class)?;
        }
        Ok(())
    }

    /// Takes the last class out.
    pub fn pop(&mut self) -> Option<u32>
        ensures size { self.new.size ≡ self.old.size }
        ensures items { self.old.items ≡ self.new.items ++ option_to_list result }
        ensures none { IfNone result (self.old.items ≡ []) }
    {
        let class = self.items.pop()?;
        self.marks[class as usize] = false;
        Some(class)
    }

    /// Takes all classes out. It keeps the memory, and takes time for the classes that there are.
    pub fn clear(&mut self)
        ensures { self.new ≡ record { size = self.old.size; items = [] } }
    {
        while self.pop().is_some() {}
    }
}
