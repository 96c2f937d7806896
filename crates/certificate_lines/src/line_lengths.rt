//! The length of a line.

ghost use Rattle.std.specs.Prelude.{◌≡◌, ◌≤◌, ◌^◌, length};
ghost use Rattle.std.specs.List.{flat_map};
ghost use Rattle.points_to_rules.specs.Facts.{variable as held_variable};
ghost use Rattle.edge_lines.specs.EdgeLines.{edge_line};
ghost use Rattle.certificate_lines.specs.LineTexts.{edge_of, event_words, holder_of, holder_words, line_text, next_word};

use crate::fact_lengths::{fact_length, spot_length};
use crate::line::{Holder, Line, ListedEdge};
use crate::word_lengths::{method_length, name_length, number_length, site_length};
use jvm_model::Event;
use slot_names::Variable;

/// How many bytes the text of a line has, with its newline. It makes no text and takes no memory.
pub fn line_length(line: &Line) -> u128
    ensures long { result ≡ length (line_text line.now) }
    ensures few { result ≤ 2 ^ 72 }
{
    match line {
        Line::Version => 24,
        Line::Class(name) => 7 + name_length(name.as_slice()),
        Line::State(name) => 7 + name_length(name.as_slice()),
        Line::Initial(state) => 9 + number_length(u32::from(*state)),
        Line::Error(state) => 7 + number_length(u32::from(*state)),
        Line::Event(event) => 7 + event_length(event),
        Line::Entry(method) => 7 + number_length(method.0),
        Line::Depth(depth) => 7 + number_length(u32::from(*depth)),
        Line::Reached(method) => 9 + number_length(method.0),
        Line::PointsTo { holder, site } => 6 + holder_length(holder) + site_length(site),
        Line::Modifies { method, field } => 7 + number_length(method.0) + number_length(field.0),
        Line::Claim { stage, site } => 8 + number_length(u32::from(*stage)) + site_length(site),
        Line::PathEdge(edge) => edge_length(edge),
        Line::End => 4,
    }
}

/// The length of the words of an event.
fn event_length(event: &Event) -> u128
    ensures long { result ≡ length (event_words event.now) }
    ensures few { result ≤ 2 ^ 71 }
{
    let name = name_length(event.name.as_slice());
    let descriptor = name_length(event.descriptor.as_slice());
    let next = states_length(event.next.as_slice());
    name + descriptor + next + 1
}

/// The length of states, each behind a space.
fn states_length(states: &[u8]) -> u128
    ensures long { result ≡ length (flat_map next_word states.now) }
    ensures few { result ≤ 2 ^ 70 }
{
    let mut long = 0;
    for state in states {
        long += 1 + number_length(u32::from(*state));
    }
    long
}

/// The length of the words of a holder.
fn holder_length(holder: &Holder) -> u128
    ensures long { result ≡ length (holder_words (holder_of holder.now)) }
    ensures few { result ≤ 2 ^ 68 }
{
    match holder {
        Holder::Variable(variable) => variable_length(*variable),
        Holder::Field(site, field) => 3 + site_length(site) + number_length(field.0),
        Holder::Elements(site) => 2 + site_length(site),
        Holder::Static(field) => 2 + number_length(field.0),
        Holder::Kept => 1,
        Holder::Returned(method) => 2 + number_length(method.0),
        Holder::Thrown(method) => 2 + number_length(method.0),
    }
}

/// The length of the words of a variable.
fn variable_length(variable: Variable) -> u128
    ensures long { result ≡ length (holder_words (held_variable variable)) }
    ensures few { result ≤ 40 }
{
    match variable {
        Variable::At {
            method,
            offset,
            slot,
        } => 4 + number_length(method.0) + number_length(offset) + number_length(slot),
        Variable::Parameter { method, slot } => {
            3 + number_length(method.0) + number_length(slot)
        }
    }
}

/// The length of the line of a path edge.
fn edge_length(edge: &ListedEdge) -> u128
    ensures long { result ≡ length (edge_line edge.now.stage edge.now.site (edge_of edge.now)) }
    ensures few { result ≤ 2 ^ 71 }
{
    let stage = number_length(u32::from(edge.stage));
    let site = site_length(&edge.site);
    let method = method_length(edge.method);
    let entry = fact_length(&edge.entry);
    let spot = spot_length(edge.spot);
    let fact = fact_length(&edge.fact);
    stage + site + method + entry + spot + fact + 11
}
