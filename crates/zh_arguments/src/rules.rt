//! The arguments and commands that clap is given.

ghost use Rattle.std.specs.Prelude.{◌≡◌, [], ◌∷◌, IfOk, codes};
ghost use Rattle.clap.specs.Words.{app_of};
ghost use Rattle.zh_arguments.specs.Commands.{disk_rules};
ghost use Rattle.zh_arguments.specs.Rules.{IsArgument, IsCommand, argument_rule, bare, command_taking, flag_rule};
ghost use Rattle.zh_arguments.specs.Rules.{option_rule};

use clap::{Arg, ArgAction, Command};
use std::alloc::{AllocError, Global};

/// An optional value, after `--name`.
pub(crate) fn option<'a>(alloc: Global, name: &'a str, value: &'a str, help: &'a str) -> Arg<'a>
    ensures { IsArgument result (option_rule name.now) }
{
    Arg::new(alloc, name)
        .long(name)
        .value_name(value)
        .help(help)
}

/// A flag `--name`, which takes no value.
pub(crate) fn flag<'a>(alloc: Global, name: &'a str, help: &'a str) -> Arg<'a>
    ensures { IsArgument result (flag_rule name.now) }
{
    Arg::new(alloc, name)
        .long(name)
        .action(ArgAction::SetTrue)
        .help(help)
}

/// A required value, after `--name`.
pub(crate) fn argument<'a>(alloc: Global, name: &'a str, value: &'a str, help: &'a str) -> Arg<'a>
    ensures { IsArgument result (argument_rule name.now) }
{
    Arg::new(alloc, name)
        .long(name)
        .required(true)
        .value_name(value)
        .help(help)
}

/// A command that requires a set-up.
pub(crate) fn with_setup<'a>(
    alloc: Global,
    name: &'a str,
    about: &'a str,
) -> Result<Command<'a>, AllocError>
    ensures { IfOk result (λ command. IsCommand command (command_taking name.now (argument_rule (codes "setup") ∷ []))) }
{
    Command::new(alloc, name)
        .about(about)
        .arg(argument(alloc, "setup", "FILE", "The set-up, in TOML"))
}

/// A command that requires a set-up and a disk.
pub(crate) fn with_disk<'a>(
    alloc: Global,
    name: &'a str,
    about: &'a str,
) -> Result<Command<'a>, AllocError>
    ensures { IfOk result (λ command. IsCommand command (command_taking name.now disk_rules)) }
{
    with_setup(alloc, name, about)?.arg(argument(
        alloc,
        "disk",
        "FILE",
        "The disk file with the count",
    ))
}

/// The program without its commands.
pub(crate) fn bare<'a>(alloc: Global) -> Result<Command<'a>, AllocError>
    ensures { IfOk result (λ command. app_of command ≡ bare) }
{
    let program = Command::new(alloc, "zhcount").bin_name("zhcount")?;
    program
        .no_binary_name(true)
        .about(
            "The count office of a cantonal parliament. Without a command: a rehearsal that keeps nothing.",
        )
        .arg(flag(alloc, "version", "Print the version"))
}
