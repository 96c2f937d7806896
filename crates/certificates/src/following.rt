//! Which line may stand behind others.

ghost use Rattle.std.specs.Prelude.{◌≡◌, ◌↔◌, ◌<◌, ◌≤◌, ◌+◌, ◌==◌, length, Contains, IsTrue, Some, option_map, if◌then◌else◌};
ghost use Rattle.certificate_lines.specs.declared.line.Line.TheVariants.{Claim as ClaimLine};
ghost use Rattle.certificates.specs.Format.{IsClaimedIn, IsGoodAfter, count_of, follows, is_next};
ghost use Rattle.line_guesses.specs.Fits.{Fits};

use crate::line_tests::{is_line, is_text};
use crate::ranges::Ranges;
use certificate_lines::{Line, compare_lines, compare_sites, kind_of};
use jvm_model::Site;
use std::cmp::Ordering;

/// How many lines are of states, and how many of events.
#[derive(Clone, Copy)]
pub(crate) struct Counts {
    pub(crate) states: u32,
    pub(crate) events: u32,
}

impl Counts {
    /// The counts with a line of this kind more.
    pub(crate) fn with(self, kind: u8) -> Counts
        requires states { self.states < 4294967295 }
        requires events { self.events < 4294967295 }
        ensures states { result.states ≡ (if kind == 2 then 1 else 0) + self.states }
        ensures events { result.events ≡ (if kind == 5 then 1 else 0) + self.events }
    {
        Counts {
            states: with_one_if(self.states, kind == 2),
            events: with_one_if(self.events, kind == 5),
        }
    }
}

fn with_one_if(count: u32, more: bool) -> u32
    requires { count < 4294967295 }
    ensures { result ≡ (if more then 1 else 0) + count }
{
    if more { count + 1 } else { count }
}

/// Whether the line is good behind these, of which so many are of states and of events.
pub(crate) fn may_follow(ranges: Ranges, counts: Counts, earlier: &[Line], line: &Line) -> bool
    requires fits { Fits line.now }
    requires states { counts.states ≡ count_of 2 earlier.now }
    requires events { counts.events ≡ count_of 5 earlier.now }
    ensures { IsTrue result ↔ IsGoodAfter ranges earlier.now line.now }
{
    if !is_line(ranges, counts.states, line) {
        return false;
    }
    if !is_text(line) {
        return false;
    }
    if !follows(earlier.last(), counts, line) {
        return false;
    }
    is_claimed_in(earlier, line)
}

/// Whether the line may stand behind the last one, if there is one.
fn follows(last: Option<&Line>, counts: Counts, line: &Line) -> bool
    ensures { result ≡ follows (option_map (λ x. x.now) last.entry) counts.states counts.events line.now }
{
    match last {
        None => kind_of(line) == 0,
        Some(last) => follows_line(last, counts, line),
    }
}

fn follows_line(last: &Line, counts: Counts, line: &Line) -> bool
    ensures { result ≡ follows (Some last.now) counts.states counts.events line.now }
{
    let kind = kind_of(last);
    let new = kind_of(line);
    if kind < 7 {
        return is_next(counts, kind, new);
    }
    if new <= 7 {
        return false;
    }
    compare_lines(last, line).is_lt()
}

/// Whether a line of the new kind may stand behind one of the last kind, up to the depth.
fn is_next(counts: Counts, last: u8, new: u8) -> bool
    requires { last < 7 }
    ensures { result ≡ is_next counts.states counts.events last new }
{
    if new == last {
        if last == 2 {
            return counts.states < 32;
        }
        if last == 5 {
            return counts.events < 32;
        }
        return false;
    }
    if new != last + 1 {
        return false;
    }
    if last == 2 { 2 <= counts.states } else { true }
}

/// Whether the stage and the site of an edge are claimed.
fn is_claimed_in(earlier: &[Line], line: &Line) -> bool
    ensures { IsTrue result ↔ IsClaimedIn earlier.now line.now }
{
    match line {
        Line::Version => true,
        Line::Class(_) => true,
        Line::State(_) => true,
        Line::Initial(_) => true,
        Line::Error(_) => true,
        Line::Event(_) => true,
        Line::Entry(_) => true,
        Line::Depth(_) => true,
        Line::Reached(_) => true,
        Line::PointsTo { holder: _, site: _ } => true,
        Line::Modifies {
            method: _,
            field: _,
        } => true,
        Line::Claim { stage: _, site: _ } => true,
        Line::PathEdge(edge) => is_claimed(earlier, edge.stage, &edge.site),
        Line::End => true,
    }
}

/// Whether there is a claim of the stage and the site. It looks where halving leads, as lines of the format ascend. Only where the claim is
/// not there it looks at each line: then the text is refused.
fn is_claimed(earlier: &[Line], stage: u8, site: &Site) -> bool
    ensures { IsTrue result ↔ Contains earlier.now (ClaimLine stage site.now) }
{
    let place = likely_place(earlier, stage, site);
    if place < earlier.len() {
        if is_claim(&earlier[place], stage, site) {
            return true;
        }
    }
    has_claim(earlier, stage, site)
}

/// Where the claim stands, if it stands among these and they ascend.
fn likely_place(lines: &[Line], stage: u8, site: &Site) -> usize
    ensures { result ≤ length lines.now }
{
    let mut from = 0;
    let mut to = lines.len();
    while from < to {
        let middle = from + (to - from) / 2;
        if is_before_claim(&lines[middle], stage, site) {
            from = middle + 1;
        } else {
            to = middle;
        }
    }
    from
}

/// Whether the line stands before the claim.
fn is_before_claim(line: &Line, stage: u8, site: &Site) -> bool {
    match line {
        Line::Claim {
            stage: own,
            site: also,
        } => match own.cmp(&stage) {
            Ordering::Less => true,
            Ordering::Equal => compare_sites(also, site).is_lt(),
            Ordering::Greater => false,
        },
        _ => kind_of(line) < 11,
    }
}

/// Whether one of the lines is the claim.
fn has_claim(lines: &[Line], stage: u8, site: &Site) -> bool
    ensures { IsTrue result ↔ Contains lines.now (ClaimLine stage site.now) }
{
    for line in lines {
        if is_claim(line, stage, site) {
            return true;
        }
    }
    false
}

/// Whether the line is the claim.
fn is_claim(line: &Line, stage: u8, site: &Site) -> bool
    ensures { IsTrue result ↔ (line.now ≡ ClaimLine stage site.now) }
{
    let Line::Claim {
        stage: own,
        site: also,
    } = line
    else {
        return false;
    };
    if *own == stage {
        is_same_site(also, site)
    } else {
        false
    }
}

/// Whether the two are one site.
fn is_same_site(one: &Site, other: &Site) -> bool
    ensures { IsTrue result ↔ (one.now ≡ other.now) }
{
    compare_sites(one, other).is_eq()
}
