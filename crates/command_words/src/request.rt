//! What a run is asked for, from its words.

ghost use Rattle.std.specs.Prelude.{◌≡◌, ℕ, false, List, map, option_map, string_bytes, IfOk, IfErr, IfSome, IfNone};
ghost use Rattle.command_words.specs.Command.{is_set};
ghost use Rattle.command_words.specs.GivenValues.{given_of, modes_of, Ask, AreNumbers, IsFirstWithout, IsWrongWith};
ghost use Rattle.command_words.specs.Requests.{AsksFor, IsModeBy, IsNumberBy, IsUsageFailure, NamesMethod, are_two_modes, sample_rule, wanted_of};

use crate::command::{ModeValues, OptionValues, values_of};
use crate::fault::{NumberOption, UsageFailure, UsageFault};
use crate::numbers::number_for;
use failure::Failure;
use std::alloc::Global;

/// What a run is to tell.
#[derive(Clone, Copy, Debug, PartialEq, Eq)]
pub enum Mode {
    /// A line for each tracked site, and the summary.
    Report,
    /// The same, with a derivation below the line of each unproved site.
    Trace,
    /// The certificate alone: what was found, for a checker.
    Certificate,
    /// The summary alone, of the sample with so many methods besides `main`.
    Sample(u32),
}

/// What a run is asked for. The names of files are those in the tree; the entry method is named by its class and its name.
#[derive(Clone, Copy)]
pub struct Request<'a> {
    pub property: &'a str,
    pub stubs: Option<&'a str>,
    pub class: &'a [u8],
    pub method: &'a [u8],
    /// The last stage that is run.
    pub stages: u8,
    /// The most fields of an access path.
    pub depth: u8,
    /// How many path edges of a site end a stage.
    pub fact_limit: u32,
    /// How many pairs of a place and a site end the points-to analysis.
    pub pair_limit: u32,
    pub mode: Mode,
}

/// The numbers of a request.
#[derive(Clone, Copy)]
struct Numbers {
    stages: u8,
    depth: u8,
    fact_limit: u32,
    pair_limit: u32,
    /// 0 where no sample is asked for.
    sample: u32,
}

/// Reads the words after the program's name: `--classes DIR`, `--property FILE` and `--entry CLASS.NAME`, and with them, where they are given,
/// `--stubs FILE`, `--stages N`, `--depth N`, `--fact-limit N`, `--pair-limit N`, and one of `--trace`, `--print-cert`
/// and `--sample N`.
pub fn read_words<'a>(alloc: Global, words: &'a [String]) -> Result<Request<'a>, UsageFailure>
    ensures asks { IfOk result (λ r. AsksFor (map string_bytes words.now) (wanted_of r)) }
    ensures fault { IfErr result (IsUsageFailure (map string_bytes words.now)) }
{
    let values = values_of(alloc, words)?;
    match request_of(values) {
        Ok(request) => Ok(request),
        Err(fault) => Err(Failure::Cause(fault)),
    }
}

/// What the values of the options ask for.
fn request_of<'a>(values: OptionValues<'a>) -> Result<Request<'a>, UsageFault>
    ensures asks { IfOk result (λ r. Ask (given_of values.entry) (wanted_of r)) }
    ensures fault { IfErr result (IsWrongWith (given_of values.entry)) }
{
    let Some((class, method)) = split_at_last_stop(values.start.as_bytes()) else {
        return Err(UsageFault::Words);
    };
    if are_two_modes(values.modes) {
        return Err(UsageFault::Modes);
    }
    let numbers = match numbers_of(values) {
        Ok(numbers) => numbers,
        Err(option) => return Err(UsageFault::Range(option)),
    };
    Ok(Request {
        property: values.property,
        stubs: values.stubs,
        class,
        method,
        stages: numbers.stages,
        depth: numbers.depth,
        fact_limit: numbers.fact_limit,
        pair_limit: numbers.pair_limit,
        mode: mode_of(values.modes, numbers.sample),
    })
}

/// Whether options of two modes stand.
fn are_two_modes(options: ModeValues<'_>) -> bool
    ensures { result ≡ are_two_modes (modes_of options.entry) }
{
    let certificate = is_set(options.certificate);
    let sample = options.sample.is_some();
    (is_set(options.trace) && (certificate || sample)) || (certificate && sample)
}

/// What is to be told, where options of no two modes stand, from the number of the sample.
fn mode_of(options: ModeValues<'_>, sample: u32) -> Mode
    requires alone { are_two_modes (modes_of options) ≡ false }
    requires sample { IsNumberBy sample_rule (modes_of options).sample sample }
    ensures { IsModeBy (modes_of options.entry) result }
{
    if is_set(options.trace) {
        return Mode::Trace;
    }
    if is_set(options.certificate) {
        return Mode::Certificate;
    }
    match options.sample {
        Some(_) => Mode::Sample(sample),
        None => Mode::Report,
    }
}

/// Whether the words have a flag, by its value.
fn is_set(value: Option<&str>) -> bool
    ensures { result ≡ is_set (option_map (λ text. text.now) value.entry) }
{
    match value {
        None => false,
        Some(text) => text == "true",
    }
}

/// The numbers that the values of the options ask for, or the first option that has none.
fn numbers_of(values: OptionValues<'_>) -> Result<Numbers, NumberOption>
    ensures found { IfOk result (AreNumbers (given_of values.entry)) }
    ensures fault { IfErr result (IsFirstWithout (given_of values.entry)) }
{
    let stages = number_for(NumberOption::Stages, values.stages)?;
    let depth = number_for(NumberOption::Depth, values.depth)?;
    let fact_limit = number_for(NumberOption::FactLimit, values.fact_limit)?;
    let pair_limit = number_for(NumberOption::PairLimit, values.pair_limit)?;
    let sample = number_for(NumberOption::Sample, values.modes.sample)?;
    Ok(Numbers {
        stages: stages as u8,
        depth: depth as u8,
        fact_limit,
        pair_limit,
        sample,
    })
}

/// The bytes before and after the last full stop.
fn split_at_last_stop(word: &[u8]) -> Option<(&[u8], &[u8])>
    ensures found { IfSome result (λ parts. NamesMethod word.now parts.0.now parts.1.now) }
    ensures none { IfNone result ((class method : List ℕ) → NamesMethod word.now class method → ⊥) }
{
    for stop in (0..word.len()).rev() {
        if word[stop] == b'.' {
            return Some((&word[..stop], &word[stop + 1..]));
        }
    }
    None
}
