//! The command of a run, and what its parser finds in words.

ghost use Rattle.std.specs.Prelude.{◌≡◌, [], false, map, string_bytes, IfOk, IfErr};
ghost use Rattle.clap.specs.Facts.{args_of, groups_of};
ghost use Rattle.clap.specs.Simple.{app_of};
ghost use Rattle.clap.specs.Values.{kind_of};
ghost use Rattle.clap.specs.Walk.{rule_of};
ghost use Rattle.clap.specs.declared.builder.command.Command.TheViews.{out-Command as fields_of};
ghost use Rattle.command_words.specs.Command.{flag_named, option_named, required_option, options, run_command};
ghost use Rattle.command_words.specs.GivenValues.{Gives, given_of};
ghost use Rattle.command_words.specs.Options.{bare_command, AreMatches, IsFailureBy, IsFormFailure, IsRunCommand};

use crate::fault::{UsageFailure, UsageFault};
use clap::error::ErrorKind;
use clap::{Arg, ArgAction, ArgMatches, Command, Error};
use failure::Failure;
use std::alloc::{AllocError, Global};

/// The values of the options of modes; that of a flag is `true` or `false`.
#[derive(Clone, Copy)]
pub(crate) struct ModeValues<'a> {
    pub trace: Option<&'a str>,
    pub certificate: Option<&'a str>,
    pub sample: Option<&'a str>,
}

/// The values of the options of a run. `start` is that of `--entry`.
#[derive(Clone, Copy)]
pub(crate) struct OptionValues<'a> {
    pub property: &'a str,
    pub start: &'a str,
    pub stubs: Option<&'a str>,
    pub stages: Option<&'a str>,
    pub depth: Option<&'a str>,
    pub fact_limit: Option<&'a str>,
    pub pair_limit: Option<&'a str>,
    pub modes: ModeValues<'a>,
}

/// The values that the words give to the options; or `Words` where they are not of the command's form.
pub(crate) fn values_of<'a>(
    alloc: Global,
    words: &'a [String],
) -> Result<OptionValues<'a>, UsageFailure>
    ensures values { IfOk result (λ v. Gives (map string_bytes words.now) (given_of v)) }
    ensures fault { IfErr result (IsFormFailure (map string_bytes words.now)) }
{
    let matches = matches_of(alloc, words)?;
    let property = matches.get_str("property");
    let start = matches.get_str("entry");
    Ok(OptionValues {
        property: property.unwrap(),
        start: start.unwrap(),
        stubs: matches.get_str("stubs"),
        stages: matches.get_str("stages"),
        depth: matches.get_str("depth"),
        fact_limit: matches.get_str("fact-limit"),
        pair_limit: matches.get_str("pair-limit"),
        modes: ModeValues {
            trace: matches.get_str("trace"),
            certificate: matches.get_str("print-cert"),
            sample: matches.get_str("sample"),
        },
    })
}

/// What the parser finds in the words.
fn matches_of<'a>(alloc: Global, words: &'a [String]) -> Result<ArgMatches<'a>, UsageFailure>
    ensures found { IfOk result (AreMatches (map string_bytes words.now)) }
    ensures fault { IfErr result (IsFormFailure (map string_bytes words.now)) }
{
    let command = run_command(alloc)?;
    match command.try_get_matches_from(words) {
        Ok(matches) => Ok(matches),
        Err(error) => Err(failure_of(&error)),
    }
}

/// What an error of the parser says of the words.
fn failure_of(error: &Error) -> UsageFailure
    ensures { IsFailureBy (kind_of error.now) result }
{
    match error.kind() {
        ErrorKind::OutOfMemory => Failure::OutOfMemory,
        _ => Failure::Cause(UsageFault::Words),
    }
}

/// The command of a run.
fn run_command<'a>(alloc: Global) -> Result<Command<'a>, AllocError>
    ensures app { IfOk result (λ command. app_of command ≡ run_command) }
    ensures made { IfOk result IsRunCommand }
{
    let options = run_options(alloc)?;
    let command = bare_command(alloc).args(options)?;
    Ok(command)
}

/// The command without its options. Its words do not begin with its own name.
fn bare_command<'a>(alloc: Global) -> Command<'a>
    ensures bare { app_of result ≡ bare_command }
    ensures no_arguments { args_of result ≡ [] }
    ensures no_groups { groups_of result ≡ [] }
    ensures no_globals { (fields_of result).has_globals ≡ false }
    ensures no_exception { (fields_of result).subcommand_negates_reqs ≡ false }
{
    Command::new(alloc, "typestate")
        .no_binary_name(true)
        .disable_help_flag(true)
        .disable_version_flag(true)
}

/// The options of a run.
fn run_options<'a>(alloc: Global) -> Result<Vec<Arg<'a>>, AllocError>
    ensures { IfOk result (λ args. map rule_of args.items ≡ options) }
{
    let options = vec![in alloc;
        required_option(alloc, "classes"),
        required_option(alloc, "property"),
        required_option(alloc, "entry"),
        option_named(alloc, "stubs"),
        option_named(alloc, "stages"),
        option_named(alloc, "depth"),
        option_named(alloc, "fact-limit"),
        option_named(alloc, "pair-limit"),
        flag_named(alloc, "trace"),
        flag_named(alloc, "print-cert"),
        option_named(alloc, "sample"),
    ]?;
    Ok(options)
}

/// An option with one value that has to be there.
fn required_option<'a>(alloc: Global, name: &'a str) -> Arg<'a>
    ensures { rule_of result ≡ required_option name.entry.now }
{
    option_named(alloc, name).required(true)
}

/// An option of this long name, with one value.
fn option_named<'a>(alloc: Global, name: &'a str) -> Arg<'a>
    ensures { rule_of result ≡ option_named name.entry.now }
{
    Arg::new(alloc, name).long(name).action(ArgAction::Set)
}

/// An option of this long name, without a value.
fn flag_named<'a>(alloc: Global, name: &'a str) -> Arg<'a>
    ensures { rule_of result ≡ flag_named name.entry.now }
{
    Arg::new(alloc, name).long(name).action(ArgAction::SetTrue)
}
