//! An index of the table of handlers, which tells those that cover an offset without a look at the others
//! (JVMS 2.10, 4.7.3).

ghost use Rattle.std.specs.Prelude.{◌≡◌, ◌≤◌, ◌<◌, ◌++◌, [], ◌∷◌, All, IfOk, OnOk};
ghost use Rattle.std.specs.List.Sorted.{IsPermutation, IsNonDecreasingBy};
ghost use Rattle.flow_graph.specs.Flows.{covering};
ghost use Rattle.flow_graph.specs.HandlerSpans.{span_of, spans_from, places_over, IsTree, AddsTree};

use jvm_model::Handler;
use std::alloc::{AllocError, Global};
use std::marker::Model;

/// The offsets that a handler covers, from its start to before its end, and its place in the table.
#[derive(Clone, Copy, Debug, Drop)]
struct Span {
    start: u32,
    finish: u32,
    place: u32,
}

/// The handlers of a method, in the order of their starts. `latest` stands for a tree: in the middle of a stretch of the
/// spans it has the latest end among them, and so on in the stretches before and after the middle.
///
/// The handlers that cover an offset, k of n, are found in O((k + 1) log n) steps, and put in the order of their table in
/// O(k log k).
#[derive(Debug, Drop)]
pub(crate) struct HandlerIndex<'a> {
    handlers: &'a [Handler],
    spans: Vec<Span>,
    latest: Vec<u32>,
}

impl<'a> Model for HandlerIndex<'a> {
    ghost use Rattle.std.specs.Prelude.{List};
    ghost use Rattle.jvm_model.specs.declared.code.Handler.{Handler};
    ghost use Rattle.flow_graph.specs.HandlerSpans.{IsIndexed};

    ghost Value = { List Handler };

    ghost view = { λ i. i.handlers.now };

    ghost invariant = { λ i. IsIndexed i.handlers.now i.spans.items i.latest.items };
}

impl<'a> HandlerIndex<'a> {
    /// The index of a table of handlers. More handlers than 32 bits can number are out of memory.
    pub(crate) fn new(
        alloc: Global,
        handlers: &'a [Handler],
    ) -> Result<HandlerIndex<'a>, AllocError>
        ensures { IfOk result (λ index. index ≡ handlers.now) }
    {
        let mut spans = spans_of(alloc, handlers)?;
        sort_by_start(&mut spans);
        let mut latest = Vec::new(alloc);
        add_latest(&spans, &mut latest)?;
        Ok(HandlerIndex {
            handlers,
            spans,
            latest,
        })
    }

    /// The places of the handlers that cover an offset, in the order of their table.
    pub(crate) fn covering(&self, alloc: Global, offset: u32) -> Result<Vec<u32>, AllocError>
        ensures { IfOk result (λ v. v.items ≡ covering self.now offset) }
    {
        let mut places = Vec::new(alloc);
        add_covering(&self.spans, &self.latest, offset, &mut places)?;
        places.sort_unstable();
        Ok(places)
    }
}

/// What each of the handlers covers, in the order of their table.
fn spans_of(alloc: Global, handlers: &[Handler]) -> Result<Vec<Span>, AllocError>
    ensures { IfOk result (λ v. v.items ≡ spans_from 0 handlers.now) }
{
    let mut spans = Vec::new(alloc);
    for place in 0..handlers.len() {
        spans.push(span_of(place, &handlers[place])?)?;
    }
    Ok(spans)
}

/// What the handler of a place covers.
fn span_of(place: usize, handler: &Handler) -> Result<Span, AllocError>
    ensures { IfOk result (λ s. s ≡ span_of place handler.now) }
{
    let place = u32::try_from(place).map_err(|_| AllocError)?;
    Ok(Span {
        start: handler.start,
        finish: handler.finish,
        place,
    })
}

/// Puts spans in the order of their starts.
fn sort_by_start(spans: &mut [Span])
    ensures all { IsPermutation spans.old spans.new }
    ensures ordered { IsNonDecreasingBy (λ s. s.start) spans.new }
{
    spans.sort_unstable_by_key(|span| span.start);
}

/// Adds the latest ends of a stretch of spans, and of those before and after its middle, each in the place of the middle.
fn add_latest(spans: &[Span], latest: &mut Vec<u32>) -> Result<(), AllocError>
    ensures { OnOk result (AddsTree spans.now latest.old.items latest.new.items) }
{
    if spans.is_empty() {
        return Ok(());
    }
    let middle = spans.len() / 2;
    add_latest(&spans[..middle], latest)?;
    latest.push(latest_of(spans))?;
    add_latest(&spans[middle + 1..], latest)
}

/// The latest end of some spans, or 0 if there are none.
fn latest_of(spans: &[Span]) -> u32
    ensures { All (λ s. s.finish ≤ result) spans.now }
{
    let mut latest = 0;
    for span in spans {
        latest = span.finish.max(latest);
    }
    latest
}

/// Adds the places of the handlers that cover an offset. A stretch of spans is left out where none of them ends after the
/// offset, and so is what follows a span that starts after it.
fn add_covering(
    spans: &[Span],
    latest: &[u32],
    offset: u32,
    places: &mut Vec<u32>,
) -> Result<(), AllocError>
    requires tree { IsTree spans.now latest.now }
    requires ordered { IsNonDecreasingBy (λ s. s.start) spans.now }
    ensures { OnOk result (places.new.items ≡ places.old.items ++ places_over offset spans.now) }
{
    if spans.is_empty() {
        return Ok(());
    }
    let middle = spans.len() / 2;
    if latest[middle] <= offset {
        return Ok(());
    }
    add_covering(&spans[..middle], &latest[..middle], offset, places)?;
    if offset < spans[middle].start {
        return Ok(());
    }
    add_place(spans[middle], offset, places)?;
    add_covering(&spans[middle + 1..], &latest[middle + 1..], offset, places)
}

/// Adds the place of a handler if it covers an offset.
fn add_place(span: Span, offset: u32, places: &mut Vec<u32>) -> Result<(), AllocError>
    ensures { OnOk result (places.new.items ≡ places.old.items ++ places_over offset (span ∷ [])) }
{
    if span.start <= offset && offset < span.finish {
        places.push(span.place)?;
    }
    Ok(())
}
