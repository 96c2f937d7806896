//! Words of runs.

use crate::seen::see;
use command_words::{Mode, NumberOption, Request, UsageFault, read_words};
use failure::Failure;
use std::alloc::{AllocError, Global};
use std::process::Abort;
use std::test::Fail;

/// Words of their own.
fn words_of(alloc: Global, texts: &[&str]) -> Result<Vec<String>, AllocError> {
    let mut words = Vec::new(alloc);
    for text in texts {
        words.push(String::from_str(alloc, *text)?)?;
    }
    Ok(words)
}

/// What the words of `reads_each_option` ask for.
fn look_at_request(rt: &impl Abort, request: &Request<'_>) {
    see(
        rt,
        (request.property, request.stubs),
        ("p.toml", Some("s.toml")),
    );
    see(rt, [request.class, request.method], [b"a/b.C", b"main"]);
    see(rt, [request.stages, request.depth], [3, 3]);
    let limits = [request.fact_limit, request.pair_limit];
    see(rt, limits, [1_000_000, 1]);
    see(rt, request.mode, Mode::Trace);
}

/// Words with each option.
static EACH_OPTION: [&str; 15] = [
    "--entry=a/b.C.main",
    "--classes",
    "folder",
    "--property",
    "p.toml",
    "--stubs",
    "s.toml",
    "--stages=3",
    "--depth",
    "03",
    "--fact-limit",
    "1000000",
    "--pair-limit",
    "1",
    "--trace",
];

#[test]
fn reads_each_option(rt: HostRuntime) -> Result<(), Fail> {
    let words = words_of(rt.alloc(), &EACH_OPTION)?;
    look_at_request(&rt, &read_words(rt.alloc(), &words)?);
    Ok(())
}

/// The number that is out of its range where words give one option more than they have to.
fn wrong_number(
    alloc: Global,
    option: &str,
    value: &str,
) -> Result<Option<NumberOption>, AllocError> {
    let texts = [
        "--classes",
        "folder",
        "--property",
        "p.toml",
        "--entry",
        "C.main",
        option,
        value,
    ];
    let words = words_of(alloc, &texts)?;
    match read_words(alloc, &words) {
        Err(Failure::Cause(UsageFault::Range(option))) => Ok(Some(option)),
        _ => Ok(None),
    }
}

#[test]
fn refuses_a_depth(rt: HostRuntime) -> Result<(), AllocError> {
    let wrong = wrong_number(rt.alloc(), "--depth", "+2")?;
    see(&rt, wrong, Some(NumberOption::Depth));
    Ok(())
}

#[test]
fn refuses_a_fifth_stage(rt: HostRuntime) -> Result<(), AllocError> {
    let wrong = wrong_number(rt.alloc(), "--stages", "5")?;
    see(&rt, wrong, Some(NumberOption::Stages));
    Ok(())
}

#[test]
fn refuses_a_sample_of_nothing(rt: HostRuntime) -> Result<(), AllocError> {
    let wrong = wrong_number(rt.alloc(), "--sample", "0")?;
    see(&rt, wrong, Some(NumberOption::Sample));
    Ok(())
}

/// Words that ask for a report.
static OF_REPORT: [&str; 5] = [
    "--classes=folder",
    "--property",
    "p.toml",
    "--entry",
    "F.main",
];

/// Words that ask for a sample.
static OF_SAMPLE: [&str; 7] = [
    "--classes=folder",
    "--property",
    "sample.toml",
    "--entry",
    "Sample.main",
    "--sample",
    "200",
];

#[test]
fn reads_a_sample(rt: HostRuntime) -> Result<(), Fail> {
    let words = words_of(rt.alloc(), &OF_SAMPLE)?;
    let request = read_words(rt.alloc(), &words)?;
    see(&rt, request.mode, Mode::Sample(200));
    Ok(())
}

#[test]
fn reads_the_mode_of_certificates(rt: HostRuntime) -> Result<(), Fail> {
    let mut words = words_of(rt.alloc(), &OF_REPORT)?;
    words.push(String::from_str(rt.alloc(), "--print-cert")?)?;
    let request = read_words(rt.alloc(), &words)?;
    see(&rt, request.mode, Mode::Certificate);
    Ok(())
}

#[test]
fn refuses_two_modes(rt: HostRuntime) -> Result<(), AllocError> {
    let mut words = words_of(rt.alloc(), &OF_SAMPLE)?;
    words.push(String::from_str(rt.alloc(), "--trace")?)?;
    let fault = match read_words(rt.alloc(), &words) {
        Err(Failure::Cause(fault)) => Some(fault),
        Ok(_) | Err(Failure::OutOfMemory) => None,
    };
    see(&rt, fault, Some(UsageFault::Modes));
    Ok(())
}
