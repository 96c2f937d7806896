//! The words of a fact.

ghost use Rattle.std.specs.Prelude.{◌≡◌, ◌++◌, OnOk};
ghost use Rattle.stage_facts.specs.Plain.{fact_of};
ghost use Rattle.edge_lines.specs.EdgeLines.{fact_words, flag_word, tuple_words};

use crate::path_texts::push_paths;
use site_report::push_number;
use stage_facts::{PlainFact, PlainTuple};
use std::alloc::AllocError;

/// Adds a fact.
pub(crate) fn push_fact(text: &mut Vec<u8>, fact: &PlainFact) -> Result<(), AllocError>
    ensures { OnOk result (text.new.items ≡ text.old.items ++ fact_words (fact_of fact.now)) }
{
    match fact {
        PlainFact::NoneYet => text.extend_from_slice(b"none"),
        PlainFact::SomeYet => text.extend_from_slice(b"some"),
        PlainFact::OfObject(tuple) => push_tuple(text, tuple),
    }
}

/// Adds what is known of an object.
fn push_tuple(text: &mut Vec<u8>, tuple: &PlainTuple) -> Result<(), AllocError>
    ensures { OnOk result (text.new.items ≡ text.old.items ++ tuple_words tuple.now) }
{
    text.extend_from_slice(b"t ")?;
    push_flag(text, tuple.unique)?;
    text.push(b' ')?;
    push_number(text, u32::from(tuple.state))?;
    text.push(b' ')?;
    push_flag(text, tuple.may)?;
    text.push(b' ')?;
    push_paths(text, &tuple.must)?;
    text.push(b' ')?;
    push_paths(text, &tuple.must_not)
}

/// Adds `1` for what is so, and else `0`.
fn push_flag(text: &mut Vec<u8>, flag: bool) -> Result<(), AllocError>
    ensures { OnOk result (text.new.items ≡ text.old.items ++ flag_word flag) }
{
    match flag {
        true => text.extend_from_slice(b"1"),
        false => text.extend_from_slice(b"0"),
    }
}
