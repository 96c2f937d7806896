//! Writing a line at the end of a text.

ghost use Rattle.std.specs.Prelude.{codes, ◌≡◌, [], ◌∷◌, ◌++◌, OnOk};
ghost use Rattle.std.specs.Fmt.{decimal};
ghost use Rattle.std.specs.List.{flat_map};
ghost use Rattle.points_to_rules.specs.Facts.{variable as held_variable};
ghost use Rattle.site_report.specs.Printed.{printed};
ghost use Rattle.edge_lines.specs.EdgeLines.{edge_line, site_words};
ghost use Rattle.certificate_lines.specs.LineTexts.{edge_of, event_words, holder_of, holder_words, line_text, next_word};

use crate::line::{Holder, Line, ListedEdge};
use edge_lines::{EdgeText, push_edge_line, push_site};
use jvm_model::{Event, FieldNo, MethodNo, Site};
use site_report::{push_name, push_number};
use slot_names::Variable;
use std::alloc::AllocError;

/// Adds a line, with its newline, at the end of a text.
pub fn push_line(text: &mut Vec<u8>, line: &Line) -> Result<(), AllocError>
    ensures { OnOk result (text.new.items ≡ text.old.items ++ line_text line.now) }
{
    match line {
        Line::Version => text.extend_from_slice(b"typestate-certificate 1\n"),
        Line::Class(name) => push_named(text, b"class ", name.as_slice()),
        Line::State(name) => push_named(text, b"state ", name.as_slice()),
        Line::Initial(state) => push_numbered(text, b"initial ", u32::from(*state)),
        Line::Error(state) => push_numbered(text, b"error ", u32::from(*state)),
        Line::Event(event) => push_event(text, event),
        Line::Entry(method) => push_numbered(text, b"entry ", method.0),
        Line::Depth(depth) => push_numbered(text, b"depth ", u32::from(*depth)),
        Line::Reached(method) => push_numbered(text, b"reached ", method.0),
        Line::PointsTo { holder, site } => push_points_to(text, holder, site),
        Line::Modifies { method, field } => push_modifies(text, *method, *field),
        Line::Claim { stage, site } => push_claim(text, *stage, site),
        Line::PathEdge(edge) => push_listed_edge(text, edge),
        Line::End => text.extend_from_slice(b"end\n"),
    }
}

/// Adds a word with a space behind it, a name and a newline.
fn push_named(text: &mut Vec<u8>, word: &[u8], name: &[u8]) -> Result<(), AllocError>
    ensures { OnOk result (text.new.items ≡ text.old.items ++ (word.now ++ printed name.now ++ 10 ∷ [])) }
{
    text.extend_from_slice(word)?;
    push_name(text, name)?;
    text.push(b'\n')?;
    Ok(())
}

/// Adds a word with a space behind it, a number and a newline.
fn push_numbered(text: &mut Vec<u8>, word: &[u8], number: u32) -> Result<(), AllocError>
    ensures { OnOk result (text.new.items ≡ text.old.items ++ (word.now ++ decimal number ++ 10 ∷ [])) }
{
    push_after(text, word, number)?;
    text.push(b'\n')?;
    Ok(())
}

/// Adds a word with a space behind it, and a number.
fn push_after(text: &mut Vec<u8>, word: &[u8], number: u32) -> Result<(), AllocError>
    ensures { OnOk result (text.new.items ≡ text.old.items ++ (word.now ++ decimal number)) }
{
    text.extend_from_slice(word)?;
    push_number(text, number)
}

/// Adds the line of an event.
fn push_event(text: &mut Vec<u8>, event: &Event) -> Result<(), AllocError>
    ensures { OnOk result (text.new.items ≡ text.old.items ++ (codes "event " ++ event_words event.now ++ 10 ∷ [])) }
{
    text.extend_from_slice(b"event ")?;
    push_name(text, event.name.as_slice())?;
    text.push(b' ')?;
    push_name(text, event.descriptor.as_slice())?;
    push_states(text, event.next.as_slice())?;
    text.push(b'\n')?;
    Ok(())
}

/// Adds states, each behind a space.
fn push_states(text: &mut Vec<u8>, states: &[u8]) -> Result<(), AllocError>
    ensures { OnOk result (text.new.items ≡ text.old.items ++ flat_map next_word states.now) }
{
    for state in states {
        push_after(text, b" ", u32::from(*state))?;
    }
    Ok(())
}

/// Adds the line of what may be held somewhere.
fn push_points_to(text: &mut Vec<u8>, holder: &Holder, site: &Site) -> Result<(), AllocError>
    ensures { OnOk result (text.new.items ≡ text.old.items ++ (codes "pts " ++ holder_words (holder_of holder.now) ++ codes " " ++ site_words site.now ++ 10 ∷ [])) }
{
    text.extend_from_slice(b"pts ")?;
    push_holder(text, holder)?;
    text.push(b' ')?;
    push_site(text, site)?;
    text.push(b'\n')?;
    Ok(())
}

/// Adds the words of a holder.
fn push_holder(text: &mut Vec<u8>, holder: &Holder) -> Result<(), AllocError>
    ensures { OnOk result (text.new.items ≡ text.old.items ++ holder_words (holder_of holder.now)) }
{
    match holder {
        Holder::Variable(variable) => push_variable(text, *variable),
        Holder::Field(site, field) => push_field(text, site, *field),
        Holder::Elements(site) => push_elements(text, site),
        Holder::Static(field) => push_after(text, b"s ", field.0),
        Holder::Kept => text.extend_from_slice(b"k"),
        Holder::Returned(method) => push_after(text, b"r ", method.0),
        Holder::Thrown(method) => push_after(text, b"x ", method.0),
    }
}

/// Adds the words of a variable.
fn push_variable(text: &mut Vec<u8>, variable: Variable) -> Result<(), AllocError>
    ensures { OnOk result (text.new.items ≡ text.old.items ++ holder_words (held_variable variable)) }
{
    match variable {
        Variable::At {
            method,
            offset,
            slot,
        } => push_at(text, method, offset, slot),
        Variable::Parameter { method, slot } => {
            push_after(text, b"p ", method.0)?;
            push_after(text, b" ", slot)
        }
    }
}

/// Adds the words of a slot from an offset on.
fn push_at(text: &mut Vec<u8>, method: MethodNo, offset: u32, slot: u32) -> Result<(), AllocError>
    ensures { OnOk result (text.new.items ≡ text.old.items ++ (codes "v " ++ decimal method.0 ++ codes " " ++ decimal offset ++ codes " " ++ decimal slot)) }
{
    push_after(text, b"v ", method.0)?;
    push_after(text, b" ", offset)?;
    push_after(text, b" ", slot)
}

/// Adds the words of a field of the objects of a site.
fn push_field(text: &mut Vec<u8>, site: &Site, field: FieldNo) -> Result<(), AllocError>
    ensures { OnOk result (text.new.items ≡ text.old.items ++ (codes "f " ++ site_words site.now ++ codes " " ++ decimal field.0)) }
{
    text.extend_from_slice(b"f ")?;
    push_site(text, site)?;
    push_after(text, b" ", field.0)
}

/// Adds the words of the elements of the arrays of a site.
fn push_elements(text: &mut Vec<u8>, site: &Site) -> Result<(), AllocError>
    ensures { OnOk result (text.new.items ≡ text.old.items ++ (codes "a " ++ site_words site.now)) }
{
    text.extend_from_slice(b"a ")?;
    push_site(text, site)
}

/// Adds the line of a field that a method may write.
fn push_modifies(text: &mut Vec<u8>, method: MethodNo, field: FieldNo) -> Result<(), AllocError>
    ensures { OnOk result (text.new.items ≡ text.old.items ++ (codes "mods " ++ decimal method.0 ++ codes " " ++ decimal field.0 ++ 10 ∷ [])) }
{
    push_after(text, b"mods ", method.0)?;
    push_numbered(text, b" ", field.0)
}

/// Adds the line of a claim.
fn push_claim(text: &mut Vec<u8>, stage: u8, site: &Site) -> Result<(), AllocError>
    ensures { OnOk result (text.new.items ≡ text.old.items ++ (codes "claim " ++ decimal stage ++ codes " " ++ site_words site.now ++ 10 ∷ [])) }
{
    push_after(text, b"claim ", u32::from(stage))?;
    text.push(b' ')?;
    push_site(text, site)?;
    text.push(b'\n')?;
    Ok(())
}

/// Adds the line of a path edge.
fn push_listed_edge(text: &mut Vec<u8>, edge: &ListedEdge) -> Result<(), AllocError>
    ensures { OnOk result (text.new.items ≡ text.old.items ++ edge_line edge.now.stage edge.now.site (edge_of edge.now)) }
{
    let told = EdgeText {
        stage: edge.stage,
        site: &edge.site,
        method: edge.method,
        entry: &edge.entry,
        spot: edge.spot,
        fact: &edge.fact,
    };
    push_edge_line(text, &told)
}
