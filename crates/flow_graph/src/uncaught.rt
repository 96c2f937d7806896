//! Handlers by the offsets that they cover, in few lists each. A list is taken out where it is first met, so that a handler is met
//! at most once at each of its places, and not at each instruction that it covers (JVMS 2.10, 4.7.3).

ghost use Rattle.std.specs.Prelude.{◌≡◌, ◌≤◌, ◌++◌, [], All, length, map, IfOk, OnOk};
ghost use Rattle.flow_graph.specs.Uncaught.{listed_at, held, Holds, TakesOut, range_of, halved, IsFirstAlone, IsLastAlone, IsAlone, ListsMore, IsBare, AddsLevels, TakesListed};

use jvm_model::Handler;
use std::alloc::{AllocError, Global};

/// Offsets from one to before another, that a handler covers, and where the handler begins. At a level above the first the
/// offsets are halved as often.
#[derive(Clone, Copy, Debug, Drop)]
struct Range {
    from: u32,
    to: u32,
    target: u32,
}

/// Where handlers begin, by the offsets of a level.
#[derive(Debug, Drop)]
struct Level {
    lists: Vec<Vec<u32>>,
}

/// Where handlers begin that may not be caught yet. A handler is listed at few places, two at most of each level: at the ends of
/// its range, as far as they have no neighbour in it with which they are one at the next level. It may be taken out at some of its
/// places, and still be listed at others.
#[derive(Debug, Drop)]
pub(crate) struct UncaughtHandlers {
    levels: Vec<Level>,
}

impl UncaughtHandlers {
    /// All handlers of a table.
    pub(crate) fn new(alloc: Global, handlers: &[Handler]) -> Result<UncaughtHandlers, AllocError>
        ensures { IfOk result (λ u. Holds handlers.now u.levels.items) }
    {
        let mut ranges = ranges_of(alloc, handlers)?;
        let width = width_of(&ranges);
        let mut levels = Vec::new(alloc);
        add_levels(alloc, &mut ranges, width, &mut levels)?;
        Ok(UncaughtHandlers { levels })
    }

    /// Where the handlers begin that cover an offset and were not taken out there, and takes them out. A handler may be told several
    /// times, as often as it is listed.
    pub(crate) fn take(&mut self, alloc: Global, offset: u32) -> Result<Vec<u32>, AllocError>
        ensures taken { IfOk result (λ v. v.items ≡ held self.old.levels.items offset) }
        ensures gone { OnOk result (held self.new.levels.items offset ≡ []) }
        ensures left { OnOk result (TakesOut offset self.old.levels.items self.new.levels.items) }
    {
        let mut targets = Vec::new(alloc);
        take_held(&mut self.levels, offset, &mut targets)?;
        Ok(targets)
    }
}

/// What the handlers cover, in the order of their table.
fn ranges_of(alloc: Global, handlers: &[Handler]) -> Result<Vec<Range>, AllocError>
    ensures { IfOk result (λ v. v.items ≡ map range_of handlers.now) }
{
    let mut ranges = Vec::new(alloc);
    for handler in handlers {
        ranges.push(Range {
            from: handler.start,
            to: handler.finish,
            target: handler.target,
        })?;
    }
    Ok(ranges)
}

/// An offset past which none of the ranges goes: the latest end.
fn width_of(ranges: &[Range]) -> u32
    ensures { All (λ r. r.to ≤ result) ranges.now }
{
    let mut width = 0;
    for range in ranges {
        width = range.to.max(width);
    }
    width
}

/// Adds the levels of ranges, none of which goes past the width. At each level the ranges and the width are half of those at
/// the one before, until the width is 0: the lists of all are fewer than twice the width, and each range is listed twice at most
/// at each.
fn add_levels(
    alloc: Global,
    ranges: &mut [Range],
    width: u32,
    levels: &mut Vec<Level>,
) -> Result<(), AllocError>
    requires { All (λ r. r.to ≤ width) ranges.old }
    ensures { OnOk result (AddsLevels ranges.old levels.old.items levels.new.items) }
{
    if width == 0 {
        return Ok(());
    }
    let mut level = bare_level(alloc, width)?;
    put_ranges(ranges, &mut level)?;
    levels.push(level)?;
    add_levels(alloc, ranges, width / 2, levels)
}

/// A level of so many lists, with nothing in them.
fn bare_level(alloc: Global, width: u32) -> Result<Level, AllocError>
    ensures { IfOk result (λ level. IsBare width level) }
{
    let mut lists = Vec::new(alloc);
    for _place in 0..width {
        lists.push(Vec::new(alloc))?;
    }
    Ok(Level { lists })
}

/// Lists the targets of ranges at the ends that have no neighbour in their range, and makes of each range what is left of it
/// for the next level.
fn put_ranges(ranges: &mut [Range], level: &mut Level) -> Result<(), AllocError>
    requires { All (λ r. r.to ≤ length level.old.lists.items) ranges.old }
    ensures put { OnOk result (ListsMore (IsAlone ranges.old) level.old level.new) }
    ensures left { OnOk result (ranges.new ≡ map halved ranges.old) }
{
    for range in ranges.iter_mut() {
        put_first(level, *range)?;
        put_last(level, *range)?;
        *range = half_of(*range);
    }
    Ok(())
}

/// Lists the target of a range at its first offset, if the neighbour of that is not in the range.
fn put_first(level: &mut Level, range: Range) -> Result<(), AllocError>
    requires { range.to ≤ length level.old.lists.items }
    ensures { OnOk result (ListsMore (IsFirstAlone range) level.old level.new) }
{
    if range.from < range.to && range.from % 2 == 1 {
        level.lists[range.from as usize].push(range.target)?;
    }
    Ok(())
}

/// Lists the target of a range at its last offset, if the neighbour of that is not in the range.
fn put_last(level: &mut Level, range: Range) -> Result<(), AllocError>
    requires { range.to ≤ length level.old.lists.items }
    ensures { OnOk result (ListsMore (IsLastAlone range) level.old level.new) }
{
    if range.from < range.to && range.to % 2 == 1 {
        level.lists[(range.to - 1) as usize].push(range.target)?;
    }
    Ok(())
}

/// The pairs of neighbours that are both in a range.
fn half_of(range: Range) -> Range
    ensures { result ≡ halved range }
{
    Range {
        from: range.from / 2 + range.from % 2,
        to: range.to / 2,
        target: range.target,
    }
}

/// Moves what levels list at an offset to the end of the targets.
fn take_held(levels: &mut [Level], offset: u32, targets: &mut Vec<u32>) -> Result<(), AllocError>
    ensures taken { OnOk result (targets.new.items ≡ targets.old.items ++ held levels.old offset) }
    ensures left { OnOk result (TakesOut offset levels.old levels.new) }
    ensures gone { OnOk result (held levels.new offset ≡ []) }
{
    if let Some((level, rest)) = levels.split_first_mut() {
        take_listed(level, offset, targets)?;
        take_held(rest, offset / 2, targets)?;
    }
    Ok(())
}

/// Moves what a level lists at an offset to the end of the targets.
fn take_listed(level: &mut Level, offset: u32, targets: &mut Vec<u32>) -> Result<(), AllocError>
    ensures taken { OnOk result (targets.new.items ≡ targets.old.items ++ listed_at level.old offset) }
    ensures left { OnOk result (TakesListed offset level.old level.new) }
{
    if let Some(list) = level.lists.get_mut(offset as usize) {
        targets.append(list)?;
    }
    Ok(())
}
