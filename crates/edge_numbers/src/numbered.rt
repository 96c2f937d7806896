//! A list of path edges, each once.

ghost use Rattle.std.specs.Prelude.{◌≡◌, ◌↔◌, ◌<◌, ◌≤◌, [], IsTrue, Some, length, slice_get, IfOk, OnErr};
ghost use Rattle.least_sets.specs.Rules.{IsWithoutDoubles};
ghost use Rattle.edge_numbers.specs.Inserted.{IsInserted};

use fact_pool::{FactPool, Row};
use std::alloc::{AllocError, Global};
use std::marker::Model;

/// A path edge by numbers of ends: with which end its method begins, and where the edge ends.
#[derive(Clone, Copy, Debug, PartialEq, Eq, Hash)]
pub struct NumberedEdge {
    pub begin: u32,
    pub end: u32,
}

/// Path edges, each once, in the order in which they came. Contracts see them as a list.
#[derive(Drop)]
pub struct EdgeNumbers {
    /// A row for each edge: the numbers of its ends.
    pool: FactPool,
}

impl Model for EdgeNumbers {
    ghost use Rattle.std.specs.Prelude.{List};
    ghost use Rattle.edge_numbers.specs.EdgeRows.{AreEdgeRows, row_edges};
    ghost use Rattle.edge_numbers.specs.declared.numbered.NumberedEdge.{NumberedEdge};

    ghost Value = { List NumberedEdge };

    ghost view = { λ e. row_edges e.pool.rows };

    ghost invariant = { λ e. AreEdgeRows e.pool.rows };
}

impl EdgeNumbers {
    /// No edges. It takes no memory.
    pub fn new(alloc: Global) -> Self
        ensures { result ≡ [] }
    {
        EdgeNumbers {
            pool: FactPool::new(alloc),
        }
    }

    /// What holds of all edges: each stands once, and each number is one of 32 bits. It does nothing.
    pub fn well_formed(&self)
        ensures apart { IsWithoutDoubles self.now }
        ensures few { length self.now ≤ u32.MAX }
    {
        self.pool.well_formed();
    }

    /// How many there are.
    pub fn len(&self) -> usize
        ensures { result ≡ length self.now }
    {
        self.pool.len() as usize
    }

    /// Whether there is none.
    pub fn is_empty(&self) -> bool
        ensures { IsTrue result ↔ (self.now ≡ []) }
    {
        self.pool.is_empty()
    }

    /// The edge at a place.
    pub fn at(&self, place: usize) -> NumberedEdge
        requires { place < length self.now }
        ensures { slice_get self.now place ≡ Some result }
    {
        self.pool.well_formed();
        let words = self.pool.words(Row(place as u32));
        NumberedEdge {
            begin: words[0],
            end: words[1],
        }
    }

    /// Adds an edge behind the others, unless it is among them, and tells whether it was added. It answers an error where memory runs out, and
    /// where there are 2^31 - 1 edges; they are then those that there were.
    pub fn insert(&mut self, edge: NumberedEdge) -> Result<bool, AllocError>
        ensures inserted { IfOk result (λ added. IsInserted added self.old self.new edge) }
        ensures err { OnErr result (self.new ≡ self.old) }
    {
        let held = self.pool.len();
        if held == u32::MAX {
            return Err(AllocError);
        }
        self.pool.intern(&[edge.begin, edge.end])?;
        Ok(held < self.pool.len())
    }
}
