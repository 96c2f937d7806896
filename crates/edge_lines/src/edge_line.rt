//! The line of a path edge, and the words of it that are no facts.

ghost use Rattle.std.specs.Prelude.{◌≡◌, ◌++◌, OnOk};
ghost use Rattle.edge_lines.specs.EdgeLines.{edge_line, edge_words, kind_word, method_word, site_words, spot_word};
ghost use Rattle.edge_lines.specs.Told.{told_edge};

use crate::fact_words::push_fact;
use jvm_model::{MethodNo, Site, SiteKind};
use op_model::Spot;
use site_report::{push_name, push_number};
use stage_facts::PlainFact;
use std::alloc::AllocError;

/// A path edge, with the site and the number of the stage whose edge it is.
#[derive(Clone, Copy)]
pub struct EdgeText<'e> {
    pub stage: u8,
    pub site: &'e Site,
    /// `None` for the start of the program.
    pub method: Option<MethodNo>,
    /// What holds where the method is entered.
    pub entry: &'e PlainFact,
    pub spot: Spot,
    /// What holds at the spot.
    pub fact: &'e PlainFact,
}

/// Adds the line `edge STAGE SITE METHOD ENTRY SPOT FACT` at the end of a text.
pub fn push_edge_line(text: &mut Vec<u8>, edge: &EdgeText<'_>) -> Result<(), AllocError>
    ensures { OnOk result (text.new.items ≡ text.old.items ++ edge_line edge.now.stage edge.now.site.now (told_edge edge.now)) }
{
    text.extend_from_slice(b"edge ")?;
    push_number(text, u32::from(edge.stage))?;
    text.push(b' ')?;
    push_site(text, edge.site)?;
    text.push(b' ')?;
    push_edge(text, edge)?;
    text.push(b'\n')?;
    Ok(())
}

/// Adds an edge: its method, what holds where that is entered, its spot, and what holds there.
fn push_edge(text: &mut Vec<u8>, edge: &EdgeText<'_>) -> Result<(), AllocError>
    ensures { OnOk result (text.new.items ≡ text.old.items ++ edge_words (told_edge edge.now)) }
{
    push_method(text, edge.method)?;
    text.push(b' ')?;
    push_fact(text, edge.entry)?;
    text.push(b' ')?;
    push_spot(text, edge.spot)?;
    text.push(b' ')?;
    push_fact(text, edge.fact)
}

/// Adds the words of a site: what allocates, its method, its offset and the class of its objects.
pub fn push_site(text: &mut Vec<u8>, site: &Site) -> Result<(), AllocError>
    ensures { OnOk result (text.new.items ≡ text.old.items ++ site_words site.now) }
{
    push_kind(text, site.kind)?;
    text.push(b' ')?;
    push_method(text, site.method)?;
    text.push(b' ')?;
    push_number(text, site.offset)?;
    text.push(b' ')?;
    push_name(text, site.class.as_slice())
}

/// Adds the letter of what allocates.
fn push_kind(text: &mut Vec<u8>, kind: SiteKind) -> Result<(), AllocError>
    ensures { OnOk result (text.new.items ≡ text.old.items ++ kind_word kind) }
{
    match kind {
        SiteKind::Boot => text.extend_from_slice(b"b"),
        SiteKind::New => text.extend_from_slice(b"n"),
        SiteKind::Result => text.extend_from_slice(b"r"),
        SiteKind::Thrown => text.extend_from_slice(b"t"),
    }
}

/// Adds the number of a method, or what stands for the start of the program.
fn push_method(text: &mut Vec<u8>, method: Option<MethodNo>) -> Result<(), AllocError>
    ensures { OnOk result (text.new.items ≡ text.old.items ++ method_word method) }
{
    match method {
        Some(number) => push_number(text, number.0),
        None => text.extend_from_slice(b"boot"),
    }
}

/// Adds a spot: the offset of a node, or where the method ends.
fn push_spot(text: &mut Vec<u8>, spot: Spot) -> Result<(), AllocError>
    ensures { OnOk result (text.new.items ≡ text.old.items ++ spot_word spot) }
{
    match spot {
        Spot::Node(offset) => push_number(text, offset),
        Spot::Returned => text.extend_from_slice(b"ret"),
        Spot::Thrown => text.extend_from_slice(b"exc"),
    }
}
