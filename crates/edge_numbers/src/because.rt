//! From which edges a path edge follows.

ghost use Rattle.std.specs.Prelude.{◌≡◌, ◌∷◌};
ghost use Rattle.edge_numbers.specs.Premises.{others, premises};

/// The number of a path edge: its place in the list of all, counted from 0.
#[derive(Clone, Copy, Debug, PartialEq, Eq)]
pub struct EdgeNo(pub u32);

/// From which edges one follows by an instance of a rule.
#[derive(Clone, Copy, Debug, PartialEq, Eq)]
pub enum Because {
    /// From none: the program starts with it.
    Start,
    /// From one edge to a node.
    One(EdgeNo),
    /// From an edge to a node that enters a method, and one to an exit of that method.
    Two(EdgeNo, EdgeNo),
}

/// From an edge to a node, alone or with one to an exit.
pub fn because_of(premise: EdgeNo, exit: Option<EdgeNo>) -> Because
    ensures { premises result ≡ premise.0 ∷ others exit }
{
    match exit {
        None => Because::One(premise),
        Some(exit) => Because::Two(premise, exit),
    }
}
