//! Path edges as lines of text.

use crate::edges::facts::{Words, write_fact};
use crate::lines::tell_lines;
use anyhow::Result;
use ground_views::PathEdge;
use jvm_model::MethodNo;
use op_model::Spot;
use std::alloc::{AllocError, Global};

/// Prints how many path edges there are, and a line for each.
pub fn tell_edges<R: Print>(
    rt: &R,
    alloc: Global,
    words: Words<'_>,
    edges: &[PathEdge],
) -> Result<()> {
    let count = edges.len();
    println!(rt; "edges {count}")?;
    let mut lines = Vec::new(alloc);
    for edge in edges {
        lines.push(edge_text(alloc, words, edge)?)?;
    }
    tell_lines(rt, lines)
}

/// A path edge: its method, the fact with which that is entered, and the fact at a spot.
fn edge_text(alloc: Global, words: Words<'_>, edge: &PathEdge) -> Result<String, AllocError> {
    let mut text = String::new(alloc);
    let method = method_text(words, edge.method);
    write!(text, "edge {method} ")?;
    write_fact(&mut text, words, &edge.entry)?;
    text.push_str(" > ")?;
    write_spot(&mut text, edge.spot)?;
    text.push_str(" ")?;
    write_fact(&mut text, words, &edge.fact)?;
    Ok(text)
}

/// A method; `start` for the start of the program.
fn method_text<'w>(words: Words<'w>, method: Option<MethodNo>) -> &'w str {
    match method {
        Some(method) => words.names.method(method),
        None => "start",
    }
}

/// Writes a spot.
fn write_spot(text: &mut String, spot: Spot) -> Result<(), AllocError> {
    match spot {
        Spot::Node(offset) => write!(text, "{offset}"),
        Spot::Returned => text.push_str("returns"),
        Spot::Thrown => text.push_str("throws"),
    }
}
