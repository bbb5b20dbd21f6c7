ghost use Rattle.std.specs.Prelude.{◌≡◌, IfOk, false, map};
ghost use Rattle.clap.specs.Words.{app_of, rule_of};
ghost use Rattle.option_reader.specs.Rows.{app_with, option_rule};

use clap::builder::ValueParser;
use clap::{Arg, ArgAction, Command};
use std::alloc::{AllocError, Global};

/// The command with an option of each of these names, and any number of arguments.
pub(crate) fn command_with<'a>(
    alloc: Global,
    names: &'a [&'a str],
) -> Result<Command<'a>, AllocError>
    ensures { IfOk result (λ command.
        app_of command ≡ app_with (map (λ name. name.now) names.now)) }
{
    let arguments = Arg::new(alloc, "").action(ArgAction::Append);
    let mut command = Command::new(alloc, "")
        .no_binary_name(true)
        .disable_help_flag(true)
        .arg(arguments)?;
    for name in names {
        command = command.arg(option_named(alloc, name))?;
    }
    Ok(command)
}

/// The option of this name, which occurs at most once and whose value is not empty.
fn option_named<'a>(alloc: Global, name: &'a str) -> Arg<'a>
    ensures rule { rule_of result ≡ option_rule name.now }
    ensures local { result.global ≡ false }
{
    Arg::new(alloc, name)
        .long(name)
        .action(ArgAction::Set)
        .value_parser(ValueParser::NonEmptyString)
}
