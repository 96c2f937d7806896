//! Lists of reasons, and of edges that may be none. They keep names of edges: one more than the number, and 0 for none.

ghost use Rattle.std.specs.Prelude.{◌≡◌, ◌<◌, suc, [], ◌∷◌, ◌++◌, Some, length, slice_get, IfOk, OnErr, OnOk};
ghost use Rattle.edge_numbers.specs.Named.{because_named, because_with, edge_named};

use crate::because::{Because, EdgeNo};
use std::alloc::{AllocError, Global};
use std::marker::Model;

/// The names of the edges from which one follows.
#[derive(Clone, Copy)]
struct Names {
    premise: u32,
    exit: u32,
}

/// From which edges each edge follows, in eight bytes each. Contracts see a list.
#[derive(Drop)]
pub struct ReasonList {
    names: Vec<Names>,
}

impl Model for ReasonList {
    ghost use Rattle.std.specs.Prelude.{map};
    ghost use Rattle.edge_numbers.specs.Named.{because_named, ListedReasons};
    ghost use Rattle.edge_numbers.specs.declared.lists.Names.{Names as SomeNames};

    ghost Value = { ListedReasons };

    ghost view = { λ r. record { items = map (λ (n : SomeNames). because_named n.premise n.exit) r.names.items } };
}

impl ReasonList {
    /// No reasons. It takes no memory.
    pub fn new(alloc: Global) -> Self
        ensures { result.items ≡ [] }
    {
        ReasonList {
            names: Vec::new(alloc),
        }
    }

    /// Adds a reason at the end. It answers an error where memory runs out, or where the number of an edge is 2^32 - 1; nothing has changed then.
    pub fn push(&mut self, because: Because) -> Result<(), AllocError>
        ensures items { OnOk result (self.new.items ≡ self.old.items ++ because ∷ []) }
        ensures err { OnErr result (self.new.items ≡ self.old.items) }
    {
        let names = names_of(because)?;
        self.names.push(names)?;
        Ok(())
    }

    /// The reason at a place.
    pub fn at(&self, place: usize) -> Because
        requires { place < length self.now.items }
        ensures { slice_get self.now.items place ≡ Some result }
    {
        let names = self.names[place];
        because_with(edge_with(names.premise), edge_with(names.exit))
    }
}

/// Edges, or none, in four bytes each. Contracts see a list.
#[derive(Drop)]
pub struct OptionalEdges {
    names: Vec<u32>,
}

impl Model for OptionalEdges {
    ghost use Rattle.std.specs.Prelude.{map};
    ghost use Rattle.edge_numbers.specs.Named.{edge_named, ListedEdges};

    ghost Value = { ListedEdges };

    ghost view = { λ e. record { items = map edge_named e.names.items } };
}

impl OptionalEdges {
    /// No entries. It takes no memory.
    pub fn new(alloc: Global) -> Self
        ensures { result.items ≡ [] }
    {
        OptionalEdges {
            names: Vec::new(alloc),
        }
    }

    /// Adds an edge, or none, at the end. It answers an error where memory runs out, or where its number is 2^32 - 1; nothing has changed then.
    pub fn push(&mut self, edge: Option<EdgeNo>) -> Result<(), AllocError>
        ensures items { OnOk result (self.new.items ≡ self.old.items ++ edge ∷ []) }
        ensures err { OnErr result (self.new.items ≡ self.old.items) }
    {
        let name = optional_name(edge)?;
        self.names.push(name)?;
        Ok(())
    }

    /// The edge at a place, or none.
    pub fn at(&self, place: usize) -> Option<EdgeNo>
        requires { place < length self.now.items }
        ensures { slice_get self.now.items place ≡ Some result }
    {
        edge_with(self.names[place])
    }
}

/// The name of an edge.
fn name_of(edge: EdgeNo) -> Result<u32, AllocError>
    ensures { IfOk result (λ name. name ≡ suc edge.0) }
{
    if edge.0 == u32::MAX {
        return Err(AllocError);
    }
    Ok(edge.0 + 1)
}

/// The name of an edge, or of none.
fn optional_name(edge: Option<EdgeNo>) -> Result<u32, AllocError>
    ensures { IfOk result (λ name. edge_named name ≡ edge) }
{
    match edge {
        None => Ok(0),
        Some(edge) => name_of(edge),
    }
}

/// The edge of a name, or none.
fn edge_with(name: u32) -> Option<EdgeNo>
    ensures { result ≡ edge_named name }
{
    if name == 0 {
        return None;
    }
    Some(EdgeNo(name - 1))
}

/// The names of a reason.
fn names_of(because: Because) -> Result<Names, AllocError>
    ensures { IfOk result (λ names. because_named names.premise names.exit ≡ because) }
{
    let (premise, exit) = parts_of(because);
    let premise = optional_name(premise)?;
    let exit = optional_name(exit)?;
    Ok(Names { premise, exit })
}

/// The edge to a node and the one to an exit of a reason, if there are such.
fn parts_of(because: Because) -> (Option<EdgeNo>, Option<EdgeNo>)
    ensures { because_with result.0 result.1 ≡ because }
{
    match because {
        Because::Start => (None, None),
        Because::One(premise) => (Some(premise), None),
        Because::Two(premise, exit) => (Some(premise), Some(exit)),
    }
}

/// The reason with these parts.
fn because_with(premise: Option<EdgeNo>, exit: Option<EdgeNo>) -> Because
    ensures { result ≡ because_with premise exit }
{
    match premise {
        None => Because::Start,
        Some(premise) => match exit {
            None => Because::One(premise),
            Some(exit) => Because::Two(premise, exit),
        },
    }
}
