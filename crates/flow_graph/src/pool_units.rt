//! The units of the methods that a constant pool describes. Many entries may share the text of one descriptor, which is
//! read once (JVMS 2.6.2, 4.3.3, 4.4.2).

ghost use Rattle.std.specs.Prelude.{◌≡◌, IfOk};
ghost use Rattle.flow_graph.specs.Reading.{IsUnitsAt};

use crate::units::{MethodUnits, method_units};
use jvm_model::PoolEntry;
use jvm_model::lookup::text_at;
use std::alloc::{AllocError, Global};
use std::collections::BTreeMap;
use std::marker::Model;

/// A constant pool, and the units of the methods whose descriptors were read, by the indices of these texts.
#[derive(Drop)]
pub(crate) struct PoolUnits<'a> {
    pool: &'a [PoolEntry],
    read: BTreeMap<u16, MethodUnits>,
}

impl<'a> Model for PoolUnits<'a> {
    ghost use Rattle.std.specs.Prelude.{List};
    ghost use Rattle.jvm_model.specs.declared.pool.PoolEntry.{PoolEntry};
    ghost use Rattle.flow_graph.specs.Reading.{AreRead};

    ghost Value = { List PoolEntry };

    ghost view = { λ u. u.pool.now };

    ghost invariant = { λ u. AreRead u.pool.now u.read };
}

impl<'a> PoolUnits<'a> {
    /// The units of a constant pool of which nothing was read.
    pub(crate) fn new(alloc: Global, pool: &'a [PoolEntry]) -> PoolUnits<'a>
        ensures { result ≡ pool.now }
    {
        PoolUnits {
            pool,
            read: BTreeMap::new(alloc),
        }
    }

    /// The units of the method whose descriptor is the text at an index, or none if that is no descriptor of a method.
    pub(crate) fn at(&mut self, alloc: Global, index: u16) -> Result<MethodUnits, AllocError>
        ensures same { self.new ≡ self.old }
        ensures units { IfOk result (IsUnitsAt self.old index) }
    {
        if let Some(units) = self.read.get(&index) {
            return Ok(*units);
        }
        let units = method_units(alloc, text_at(self.pool, index).unwrap_or(&[]))?;
        self.read.insert(index, units)?;
        Ok(units)
    }
}
