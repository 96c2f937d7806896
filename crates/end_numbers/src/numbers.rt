//! The numbers of ends.

ghost use Rattle.std.specs.Prelude.{◌≡◌, ◌<◌, ◌≤◌, ◌+◌, ◌^◌, [], Some, length, slice_get, IfOk, OnErr, OnOk};
ghost use Rattle.least_sets.specs.Rules.{IsWithoutDoubles};
ghost use Rattle.stage_facts.specs.Plain.{fact_of};
ghost use Rattle.end_numbers.specs.Ends.{end, end_of, End, IsNumbered};

use crate::key::{EndKey, intern_key, key_at};
use crate::path_end::PathEnd;
use fact_pool::{FactPool, Row};
use fact_rows::{pack_fact, unpack_fact};
use jvm_model::MethodNo;
use op_model::Spot;
use stage_facts::PlainFact;
use std::alloc::{AllocError, Global};
use std::marker::Model;

/// The most rows of facts and paths that there may be before a fact is added, which may take thirteen.
const MOST_ROWS: u32 = u32::MAX - 15;

/// Ends, each once. Contracts see them as a list, in which each stands at its number.
#[derive(Drop)]
pub struct EndNumbers {
    /// A row for each end: its key.
    rows: FactPool,
    /// The facts of the ends, and the paths of these.
    facts: FactPool,
}

impl Model for EndNumbers {
    ghost use Rattle.std.specs.Prelude.{List};
    ghost use Rattle.end_numbers.specs.Ends.{End};

    ghost Value = { List End };

    ghost use Rattle.end_numbers.specs.KeyRows.{keys_from};
    ghost use Rattle.end_numbers.specs.Keys.{ends_from, AreEndRows};

    ghost view = { λ e. ends_from e.facts.rows (keys_from e.rows.rows) };

    ghost invariant = { λ e. AreEndRows e.facts.rows e.rows.rows };
}

impl EndNumbers {
    /// No ends. It takes no memory.
    pub fn new(alloc: Global) -> Self
        ensures { result ≡ [] }
    {
        EndNumbers {
            rows: FactPool::new(alloc),
            facts: FactPool::new(alloc),
        }
    }

    /// What holds of all ends: each stands once, and each number is one of 32 bits. It does nothing.
    pub fn well_formed(&self)
        ensures apart { IsWithoutDoubles self.now }
        ensures few { length self.now ≤ u32.MAX }
    {
        self.rows.well_formed();
        self.facts.well_formed();
    }

    /// How many ends there are.
    pub fn len(&self) -> u32
        ensures { result ≡ length self.now }
    {
        self.rows.len()
    }

    /// The number of an end, which goes last where it has none yet.
    ///
    /// It answers an error where memory runs out, and where there are 2^30 - 1 ends, or more than 2^32 - 16 rows of facts and paths, or more than
    /// 2^32 - 1 words of these. The ends are then those that there were.
    pub fn number(
        &mut self,
        method: Option<MethodNo>,
        spot: Spot,
        fact: &PlainFact,
    ) -> Result<u32, AllocError>
        ensures number { IfOk result (λ number. slice_get self.new number ≡ Some (end method spot (fact_of fact.now))) }
        ensures numbered { OnOk result (IsNumbered self.old self.new (end method spot (fact_of fact.now))) }
        ensures err { OnErr result (self.new ≡ self.old) }
    {
        if self.rows.len() == u32::MAX {
            return Err(AllocError);
        }
        if self.facts.len() > MOST_ROWS {
            return Err(AllocError);
        }
        let row = pack_fact(fact, &mut self.facts)?;
        self.facts.well_formed();
        let key = EndKey {
            method,
            spot,
            fact: row.0,
        };
        let number = intern_key(&mut self.rows, key)?;
        Ok(number.0)
    }

    /// The end of a number.
    pub fn end(&self, number: u32) -> PathEnd
        requires { number < length self.now }
        ensures { slice_get self.now number ≡ Some (end_of result) }
    {
        let key = key_at(&self.rows, number);
        PathEnd {
            method: key.method,
            spot: key.spot,
            fact: unpack_fact(&self.facts, Row(key.fact)),
        }
    }

    /// The spot of the end of a number.
    pub fn spot(&self, number: u32) -> Spot
        requires { number < length self.now }
        ensures { (e : End) → slice_get self.now number ≡ Some e → result ≡ e.spot }
    {
        key_at(&self.rows, number).spot
    }

    /// The method of the end of a number, and none where the end is one of the start of the program.
    pub fn method(&self, number: u32) -> Option<MethodNo>
        requires { number < length self.now }
        ensures { (e : End) → slice_get self.now number ≡ Some e → result ≡ e.method }
    {
        key_at(&self.rows, number).method
    }
}
