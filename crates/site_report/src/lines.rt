//! The lines of a report.

ghost use Rattle.std.specs.Prelude.{◌≡◌, ◌+◌, ◌<◌, ◌^◌, ◌++◌, OnOk, IfOk, Some, codes};
ghost use Rattle.std.specs.Fmt.{decimal};
ghost use Rattle.program_model.specs.Numbers.{IsMethodNumber};
ghost use Rattle.site_report.specs.Lines.{verdict_line, summary_line, site_text, method_text};
ghost use Rattle.site_report.specs.Sites.{IsKnownSite};
ghost use Rattle.site_report.specs.Verdicts.{verdict_words};

use crate::printed::{push_name, push_number};
use crate::tracked_site::TrackedSite;
use crate::verdict::Verdict;
use jvm_model::MethodNo;
use program_model::program::Program;
use std::alloc::{AllocError, Global};

/// The line of a site: `safe STAGE METHOD OFFSET CLASS`, `unproved METHOD OFFSET CLASS`, or `limit STAGE METHOD OFFSET CLASS`. The method is its
/// class, its name and its descriptor.
pub fn verdict_line(
    alloc: Global,
    program: &Program,
    site: TrackedSite,
    verdict: Verdict,
) -> Result<Vec<u8>, AllocError>
    requires { IsKnownSite program.now site }
    ensures { IfOk result (λ line. line.items ≡ verdict_line program.now site verdict) }
{
    let mut line = Vec::new(alloc);
    push_verdict(&mut line, verdict)?;
    push_site(&mut line, program, site)?;
    line.push(b'\n')?;
    Ok(line)
}

/// The line `sites N safe A unproved B limit C`, where N is the sum of the others.
pub fn summary_line(
    alloc: Global,
    safe: u32,
    unproved: u32,
    limit: u32,
) -> Result<Vec<u8>, AllocError>
    requires { safe + unproved + limit < 2 ^ 32 }
    ensures { IfOk result (λ line. line.items ≡ summary_line safe unproved limit) }
{
    let mut line = Vec::new(alloc);
    line.extend_from_slice(b"sites ")?;
    push_number(&mut line, safe + unproved + limit)?;
    line.extend_from_slice(b" safe ")?;
    push_number(&mut line, safe)?;
    line.extend_from_slice(b" unproved ")?;
    push_number(&mut line, unproved)?;
    line.extend_from_slice(b" limit ")?;
    push_number(&mut line, limit)?;
    line.push(b'\n')?;
    Ok(line)
}

/// Adds what is found of a site, and a space.
fn push_verdict(line: &mut Vec<u8>, verdict: Verdict) -> Result<(), AllocError>
    ensures { OnOk result (line.new.items ≡ line.old.items ++ verdict_words verdict) }
{
    match verdict {
        Verdict::Safe(stage) => push_stage(line, b"safe ", stage),
        Verdict::Unproved => line.extend_from_slice(b"unproved "),
        Verdict::Limit(stage) => push_stage(line, b"limit ", stage),
    }
}

/// Adds a word, the number of a stage, and a space.
fn push_stage(line: &mut Vec<u8>, word: &[u8], stage: u8) -> Result<(), AllocError>
    ensures { OnOk result (line.new.items ≡ line.old.items ++ (word.now ++ decimal stage ++ codes " ")) }
{
    line.extend_from_slice(word)?;
    push_number(line, u32::from(stage))?;
    line.push(b' ')?;
    Ok(())
}

/// Adds a site: its method, its offset and the class of its objects.
fn push_site(line: &mut Vec<u8>, program: &Program, site: TrackedSite) -> Result<(), AllocError>
    requires { IsKnownSite program.now site }
    ensures { OnOk result (line.new.items ≡ line.old.items ++ site_text program.now site) }
{
    push_place(line, program, site)?;
    line.push(b' ')?;
    push_number(line, site.offset)?;
    line.push(b' ')?;
    push_name(line, program.class_name(site.class))?;
    Ok(())
}

/// Adds the method of a site, or what stands for the start of the program.
fn push_place(line: &mut Vec<u8>, program: &Program, site: TrackedSite) -> Result<(), AllocError>
    requires { IsKnownSite program.now site }
    ensures { OnOk result (line.new.items ≡ line.old.items ++ method_text program.now site.method) }
{
    match site.method {
        Some(number) => push_method(line, program, number),
        None => line.extend_from_slice(b"boot"),
    }
}

/// Adds a method: its class, a full stop, its name and its descriptor.
fn push_method(line: &mut Vec<u8>, program: &Program, number: MethodNo) -> Result<(), AllocError>
    requires { IsMethodNumber program.now number.0 }
    ensures { OnOk result (line.new.items ≡ line.old.items ++ method_text program.now (Some number)) }
{
    let view = program.method(number);
    push_name(line, program.class_name(view.class))?;
    line.push(b'.')?;
    push_name(line, view.signature.name)?;
    push_name(line, view.signature.descriptor)?;
    Ok(())
}
