//! The command line, as defined for `clap`.
ghost use Rattle.std.specs.Prelude.{◌≡◌, IfOk, IsOkAnd, codes, false};
ghost use Rattle.clap.specs.Words.{AddsSubcommand, app_of, new_app, rule_of};
ghost use Rattle.plist_convert.specs.CommandLine.{IsConvert, IsProgram, check as check_line};
ghost use Rattle.plist_convert.specs.CommandLine.{any_words, file_word, file_words};
ghost use Rattle.plist_convert.specs.CommandLine.{explain as explain_line, one_file, program_top};
ghost use Rattle.plist_convert.specs.CommandLine.{same as same_line, some_files};

use crate::help;
use clap::{Arg, ArgAction, Command};
use std::alloc::{AllocError, Global};

static FORMS: [&str; 2] = ["binary1", "openstep"];

// Returns the command line of the program.
pub(crate) fn program<'a>(alloc: Global) -> Result<Command<'a>, AllocError>
    ensures { IfOk result (λ command. IsProgram (app_of command)) }
{
    let command = with_subcommand(top(alloc), convert(alloc))?;
    let command = with_subcommand(command, same(alloc))?;
    let command = with_subcommand(command, lint(alloc))?;
    let command = with_subcommand(command, check(alloc))?;
    let command = with_subcommand(command, print(alloc))?;
    with_subcommand(command, explain(alloc))
}

// Adds a subcommand.
fn with_subcommand<'a>(
    command: Command<'a>,
    subcommand: Result<Command<'a>, AllocError>,
) -> Result<Command<'a>, AllocError>
    ensures { IfOk result (λ whole. IsOkAnd subcommand.entry (λ added.
        AddsSubcommand command.entry added whole)) }
{
    command.subcommand(subcommand?)
}

fn top<'a>(alloc: Global) -> Command<'a>
    ensures { app_of result ≡ program_top }
{
    described(alloc, "plistconv", help::ABOUT, help::AFTER)
        .version("0.3.0")
        .subcommand_required(true)
}

fn convert<'a>(alloc: Global) -> Result<Command<'a>, AllocError>
    ensures { IfOk result (λ command. IsConvert (app_of command)) }
{
    let form = required(alloc, "FORM", "The form to write").value_parser(FORMS.as_slice());
    described(alloc, "convert", help::CONVERT_ABOUT, help::CONVERT_AFTER)
        .arg(form)?
        .arg(required(alloc, "IN", "The file to read"))?
        .arg(required(alloc, "OUT", "The file to write"))
}

fn same<'a>(alloc: Global) -> Result<Command<'a>, AllocError>
    ensures { IfOk result (λ command. app_of command ≡ same_line) }
{
    described(alloc, "same", help::SAME_ABOUT, help::SAME_AFTER)
        .arg(required(alloc, "A", "The one file"))?
        .arg(required(alloc, "B", "The other file"))
}

fn lint<'a>(alloc: Global) -> Result<Command<'a>, AllocError>
    ensures { IfOk result (λ command. app_of command ≡ some_files (codes "lint")) }
{
    described(alloc, "lint", help::LINT_ABOUT, help::LINT_AFTER).arg(several(
        alloc,
        "IN",
        "The files to read",
    ))
}

fn check<'a>(alloc: Global) -> Result<Command<'a>, AllocError>
    ensures { IfOk result (λ command. app_of command ≡ check_line) }
{
    let named = Arg::new(alloc, "with-filename")
        .long("with-filename")
        .action(ArgAction::SetTrue)
        .help("Print the path of a single file too");
    described(alloc, "check", help::CHECK_ABOUT, help::CHECK_AFTER)
        .arg(several(alloc, "IN", "The files to read"))?
        .arg(named)
}

fn print<'a>(alloc: Global) -> Result<Command<'a>, AllocError>
    ensures { IfOk result (λ command. app_of command ≡ one_file (codes "print")) }
{
    described(alloc, "print", help::PRINT_ABOUT, help::PRINT_AFTER).arg(required(
        alloc,
        "IN",
        "The file to read",
    ))
}

fn explain<'a>(alloc: Global) -> Result<Command<'a>, AllocError>
    ensures { IfOk result (λ command. app_of command ≡ explain_line) }
{
    described(alloc, "explain", help::EXPLAIN_ABOUT, help::EXPLAIN_AFTER).arg(optional(
        alloc,
        "WHAT",
        "A number, a name or a rule",
    ))
}

// Returns a command with its help.
fn described<'a>(alloc: Global, name: &'a str, about: &'a str, after: &'a str) -> Command<'a>
    ensures { app_of result ≡ new_app name.entry.now }
{
    Command::new(alloc, name).about(about).after_help(after)
}

// Returns a required argument.
fn required<'a>(alloc: Global, id: &'a str, text: &'a str) -> Arg<'a>
    ensures rule { rule_of result ≡ file_word id.entry.now }
    ensures local { result.global ≡ false }
{
    Arg::new(alloc, id).required(true).help(text)
}

// Returns a required argument with one value or more.
fn several<'a>(alloc: Global, id: &'a str, text: &'a str) -> Arg<'a>
    ensures rule { rule_of result ≡ file_words id.entry.now }
    ensures local { result.global ≡ false }
{
    Arg::new(alloc, id).required(true).num_args(1..).help(text)
}

// Returns an optional argument with any number of values.
fn optional<'a>(alloc: Global, id: &'a str, text: &'a str) -> Arg<'a>
    ensures rule { rule_of result ≡ any_words id.entry.now }
    ensures local { result.global ≡ false }
{
    Arg::new(alloc, id).num_args(1..).help(text)
}
