//! Texts of a constant pool that are in a grammar (JVMS 4.2, 4.3). Where many entries lead to one text, it is read
//! once: the indices of the texts that are in the grammar are kept. A text that is not in it is not kept: it ends the
//! reading, or is a field's descriptor that is tried as a method's and fails there at its first byte.

ghost use Rattle.std.specs.Prelude.{◌↔◌, IfOk, IsTrue};
ghost use Rattle.jvm_model.specs.Soundness.{TextIsIn};
ghost use Rattle.classfile_reader.specs.KnownTexts.{AreKnown, AreKnownIn};

use jvm_model::grammar::Grammar;
use jvm_model::lookup::text_at;
use jvm_model::pool::PoolEntry;
use std::alloc::{AllocError, Global};
use std::collections::HashSet;

/// Whether the text at an index, if there is one, is in a grammar.
fn text_is_in(pool: &[PoolEntry], grammar: Grammar, index: u16) -> bool
    ensures { IsTrue result ↔ TextIsIn pool.now grammar index }
{
    match text_at(pool, index) {
        Some(text) => grammar.has(text),
        None => true,
    }
}

/// Whether the text at an index, if there is one, is in a grammar. The indices are known to lead to texts that are
/// in it, and an index that does is added to them.
fn is_known_in(
    indices: &mut HashSet<u16>,
    pool: &[PoolEntry],
    grammar: Grammar,
    index: u16,
) -> Result<bool, AllocError>
    requires { AreKnownIn pool.now grammar indices.old }
    ensures exact { IfOk result (λ is. IsTrue is ↔ TextIsIn pool.now grammar index) }
    ensures known { AreKnownIn pool.now grammar indices.new }
{
    if indices.contains(&index) {
        return Ok(true);
    }
    if !text_is_in(pool, grammar, index) {
        return Ok(false);
    }
    indices.insert(index)?;
    Ok(true)
}

/// The indices of a pool whose texts were read and are in a grammar, for each of them.
#[derive(Drop)]
pub(crate) struct KnownTexts {
    class_or_array: HashSet<u16>,
    field_name: HashSet<u16>,
    method_name: HashSet<u16>,
    field_descriptor: HashSet<u16>,
    method_descriptor: HashSet<u16>,
}

impl KnownTexts {
    /// No index of a pool.
    pub(crate) fn new(alloc: Global, pool: &[PoolEntry]) -> Self
        ensures { AreKnown pool.now result }
    {
        KnownTexts {
            class_or_array: HashSet::new(alloc),
            field_name: HashSet::new(alloc),
            method_name: HashSet::new(alloc),
            field_descriptor: HashSet::new(alloc),
            method_descriptor: HashSet::new(alloc),
        }
    }

    /// Whether the text at an index of that pool, if there is one, is in the grammar.
    pub(crate) fn is_in(
        &mut self,
        pool: &[PoolEntry],
        grammar: Grammar,
        index: u16,
    ) -> Result<bool, AllocError>
        requires { AreKnown pool.now self.old }
        ensures exact { IfOk result (λ is. IsTrue is ↔ TextIsIn pool.now grammar index) }
        ensures known { AreKnown pool.now self.new }
    {
        match grammar {
            Grammar::ClassOrArray => is_known_in(&mut self.class_or_array, pool, grammar, index),
            Grammar::FieldName => is_known_in(&mut self.field_name, pool, grammar, index),
            Grammar::MethodName => is_known_in(&mut self.method_name, pool, grammar, index),
            Grammar::FieldDescriptor => is_known_in(
                &mut self.field_descriptor,
                pool,
                grammar,
                index,
            ),
            Grammar::MethodDescriptor => is_known_in(
                &mut self.method_descriptor,
                pool,
                grammar,
                index,
            ),
        }
    }
}
