//! Parses the command line.
ghost use Rattle.std.specs.Prelude.{◌≡◌, IfOk, IfSome, IsOkAnd, None, map, option_map};
ghost use Rattle.clap.specs.Words.{all_of, app_of, first_of, found_of, rows_of};
ghost use Rattle.clap.specs.Words.{subcommand_rows_of};
ghost use Rattle.plist_convert.specs.Asked.{asked_by, asked_at, asked_unparsed, check_at};
ghost use Rattle.plist_convert.specs.Asked.{convert_at, explain_at, form_of, is_dash_line, is_set};
ghost use Rattle.plist_convert.specs.Asked.{print_at, same_at};
ghost use Rattle.plist_convert.specs.CommandLine.{IsProgram};
ghost use Rattle.plist_convert.specs.Reading.{IsReading};

use crate::commands::program;
use crate::request::Request;
use clap::error::ErrorKind;
use clap::{ArgMatches, Command, Error};
use plist_forms::Form;
use std::alloc::{AllocError, Global};

/// Returns the request of these arguments, of which the first is the program's name. Without
/// another argument, it is the filter. `explain` takes a line that begins with a dash, such as
/// `-: refused 1 TooShort`, as it takes any other.
///
/// # Errors
///
/// Arguments that are not a command, or that ask for help, are an error with the text to print. If
/// out of memory, the kind of the error is `OutOfMemory`.
pub fn read_words<'a>(alloc: Global, words: &'a [&'a str]) -> Result<Request<'a>, Error>
    ensures unparsed { IfSome (asked_unparsed (map (λ word. word.now) words.now))
        (λ asked. IsOkAnd result (λ request. asked_by request ≡ asked)) }
    ensures parsed { asked_unparsed (map (λ word. word.now) words.now) ≡ None
        → IsReading (map (λ word. word.now) words.now) result }
{
    if let Some(request) = unparsed_request(words) {
        return Ok(request);
    }
    let mut command = program(alloc)?;
    read_by(alloc, &mut command, words)
}

// Returns the request of arguments that are not parsed.
fn unparsed_request<'a>(words: &[&'a str]) -> Option<Request<'a>>
    ensures { option_map asked_by result ≡ asked_unparsed (map (λ word. word.now) words.now) }
{
    match words {
        [] | [_] => Some(Request::Filter),
        [_, command, line, ..] if *command == "explain" && is_dash_line(line) => {
            Some(Request::Explain { what: Some(*line) })
        }
        _ => None,
    }
}

// Returns whether the word begins with a dash but is no option, since it has a blank.
fn is_dash_line(word: &str) -> bool
    ensures { result ≡ is_dash_line word.now }
{
    let octets = word.as_bytes();
    octets.starts_with(b"-") && octets.contains(&b' ')
}

// Parses the arguments with the program's command line.
fn read_by<'a>(
    alloc: Global,
    command: &mut Command<'a>,
    words: &'a [&'a str],
) -> Result<Request<'a>, Error>
    ensures { IsProgram (app_of command.old)
        → IsReading (map (λ word. word.now) words.now) result }
{
    let matches = command.try_get_matches_from_mut(words)?;
    match request_of(alloc, &matches)? {
        Some(request) => Ok(request),
        None => Err(command.error(ErrorKind::MissingSubcommand, "a word is missing")?),
    }
}

fn request_of<'a>(
    alloc: Global,
    matches: &ArgMatches<'a>,
) -> Result<Option<Request<'a>>, AllocError>
    ensures { IfOk result (λ request.
        option_map asked_by request ≡ asked_at (subcommand_rows_of matches.now)) }
{
    let Some((word, given)) = matches.subcommand() else {
        return Ok(None);
    };
    match word {
        "convert" => Ok(convert_request(given)),
        "same" => Ok(same_request(given)),
        "lint" => Ok(values(alloc, given, "IN")?.map(|paths| Request::Lint { paths })),
        "check" => check_request(alloc, given),
        "print" => Ok(print_request(given)),
        "explain" => Ok(explain_request(given)),
        _ => Ok(None),
    }
}

fn convert_request<'a>(given: &ArgMatches<'a>) -> Option<Request<'a>>
    ensures { option_map asked_by result ≡ convert_at (rows_of (found_of given.now)) }
{
    Some(Request::Convert {
        form: form_named(value(given, "FORM")?)?,
        from: value(given, "IN")?,
        to: value(given, "OUT")?,
    })
}

fn same_request<'a>(given: &ArgMatches<'a>) -> Option<Request<'a>>
    ensures { option_map asked_by result ≡ same_at (rows_of (found_of given.now)) }
{
    Some(Request::Same {
        first: value(given, "A")?,
        second: value(given, "B")?,
    })
}

fn check_request<'a>(
    alloc: Global,
    given: &ArgMatches<'a>,
) -> Result<Option<Request<'a>>, AllocError>
    ensures { IfOk result (λ request.
        option_map asked_by request ≡ check_at (rows_of (found_of given.now))) }
{
    let named = is_set(given, "with-filename");
    Ok(values(alloc, given, "IN")?.map(|paths| Request::Check { named, paths }))
}

fn print_request<'a>(given: &ArgMatches<'a>) -> Option<Request<'a>>
    ensures { option_map asked_by result ≡ print_at (rows_of (found_of given.now)) }
{
    Some(Request::Print {
        path: value(given, "IN")?,
    })
}

fn explain_request<'a>(given: &ArgMatches<'a>) -> Option<Request<'a>>
    ensures { option_map asked_by result ≡ explain_at (rows_of (found_of given.now)) }
{
    Some(Request::Explain {
        what: value(given, "WHAT"),
    })
}

fn form_named(name: &str) -> Option<Form>
    ensures { result ≡ form_of name.now }
{
    match name {
        "binary1" => Some(Form::Binary1),
        "openstep" => Some(Form::OpenStep),
        _ => None,
    }
}

// Returns the value of this argument.
fn value<'a>(given: &ArgMatches<'a>, id: &str) -> Option<&'a str>
    ensures { option_map (λ text. text.now) result
        ≡ first_of id.now (rows_of (found_of given.now)) }
{
    given.get_str(id)
}

// Returns whether the flag is given.
fn is_set(given: &ArgMatches, name: &str) -> bool
    ensures { result ≡ is_set name.now (rows_of (found_of given.now)) }
{
    match value(given, name) {
        Some(text) => text == "true",
        None => false,
    }
}

// Returns all values of this argument, in the order given.
fn values<'a>(
    alloc: Global,
    given: &ArgMatches<'a>,
    id: &str,
) -> Result<Option<Vec<&'a str>>, AllocError>
    ensures { IfOk result (λ found.
        option_map (λ texts. map (λ text. text.now) texts.items) found
        ≡ all_of id.now (rows_of (found_of given.now))) }
{
    match given.get_strs(id) {
        Some(texts) => Ok(Some(Vec::from_slice(alloc, texts)?)),
        None => Ok(None),
    }
}
