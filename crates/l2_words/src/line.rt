ghost use Rattle.std.specs.Prelude.{◌≡◌, ◌≢◌, [], ◌∷◌, Some, None, codes, false, true, option_map, IfOk, OnOk, IsErrOf};
ghost use Rattle.clap.specs.Words.{app_of, rule_of, kind_of, subcommand_rows_of, new_app, with_rule, with_subcommand};
ghost use Rattle.l2_words.specs.Line.{operand, option, option_or, flag, file, overflow, quiet, bounded_app, deciding_app, check_app, replay_app, show_app, generate_app, bare_app, deciders_app, judges_app, twols_app, texts};
ghost use Rattle.l2_words.specs.Requests.{asked, request_entered, command};

use crate::request::{Request, WordsError};
use crate::values::request_in;
use clap::error::ErrorKind;
use clap::{Arg, ArgAction, ArgMatches, Command, Error};
use std::alloc::{AllocError, Global};

fn operand<'a>(alloc: Global, id: &'a str) -> Arg<'a>
    ensures rule { rule_of result ≡ operand id.entry.now }
    ensures local { result.global ≡ false }
{
    Arg::new(alloc, id).required(true).action(ArgAction::Set)
}

fn option<'a>(alloc: Global, id: &'a str) -> Arg<'a>
    ensures rule { rule_of result ≡ option id.entry.now }
    ensures local { result.global ≡ false }
{
    Arg::new(alloc, id).long(id).action(ArgAction::Set)
}

fn option_or<'a>(alloc: Global, id: &'a str, value: &'a str) -> Arg<'a>
    ensures rule { rule_of result ≡ option_or id.entry.now value.entry.now }
    ensures local { result.global ≡ false }
{
    option(alloc, id).default_value(value)
}

fn flag<'a>(alloc: Global, id: &'a str) -> Arg<'a>
    ensures rule { rule_of result ≡ flag id.entry.now }
    ensures local { result.global ≡ false }
{
    Arg::new(alloc, id).long(id).action(ArgAction::SetTrue)
}

fn file<'a>(alloc: Global) -> Arg<'a>
    ensures rule { rule_of result ≡ file }
    ensures local { result.global ≡ false }
{
    operand(alloc, "file")
}

fn overflow<'a>(alloc: Global) -> Arg<'a>
    ensures rule { rule_of result ≡ overflow }
    ensures local { result.global ≡ false }
{
    flag(alloc, "signed-overflow-check")
}

fn quiet<'a>(alloc: Global, name: &'a str) -> Command<'a>
    ensures { app_of result ≡ quiet (new_app name.entry.now) }
{
    Command::new(alloc, name)
        .disable_help_flag(true)
        .disable_version_flag(true)
}

/// `NAME FILE` with the options that say how far and with which rows.
fn bounded<'a>(alloc: Global, name: &'a str) -> Result<Command<'a>, AllocError>
    ensures { IfOk result (λ c. app_of c ≡ bounded_app name.entry.now) }
{
    quiet(alloc, name)
        .arg(file(alloc))?
        .arg(option_or(alloc, "unwind", "8"))?
        .arg(option_or(alloc, "domain", "intervals"))
}

/// `NAME FILE` with the options of `verify` and `termination`.
fn deciding<'a>(alloc: Global, name: &'a str) -> Result<Command<'a>, AllocError>
    ensures { IfOk result (λ c. app_of c ≡ deciding_app name.entry.now) }
{
    bounded(alloc, name)?
        .arg(overflow(alloc))?
        .arg(option(alloc, "certificate"))
}

/// `check FILE CERT`.
fn check<'a>(alloc: Global) -> Result<Command<'a>, AllocError>
    ensures { IfOk result (λ c. app_of c ≡ check_app) }
{
    quiet(alloc, "check")
        .arg(file(alloc))?
        .arg(operand(alloc, "second"))?
        .arg(option_or(alloc, "jobs", "1"))
}

/// `replay FILE VALUES`.
fn replay<'a>(alloc: Global) -> Result<Command<'a>, AllocError>
    ensures { IfOk result (λ c. app_of c ≡ replay_app) }
{
    quiet(alloc, "replay")
        .arg(file(alloc))?
        .arg(operand(alloc, "second"))?
        .arg(overflow(alloc))
}

/// `show WHAT FILE`.
fn show<'a>(alloc: Global) -> Result<Command<'a>, AllocError>
    ensures { IfOk result (λ c. app_of c ≡ show_app) }
{
    quiet(alloc, "show")
        .arg(operand(alloc, "what"))?
        .arg(file(alloc))?
        .arg(overflow(alloc))
}

/// `generate N`.
fn generate<'a>(alloc: Global) -> Result<Command<'a>, AllocError>
    ensures { IfOk result (λ c. app_of c ≡ generate_app) }
{
    quiet(alloc, "generate")
        .arg(operand(alloc, "n"))?
        .arg(option_or(alloc, "loops", "8"))
}

/// What stands before the commands.
fn bare<'a>(alloc: Global) -> Command<'a>
    ensures { app_of result ≡ bare_app }
{
    Command::new(alloc, "twols")
        .no_binary_name(true)
        .disable_help_flag(true)
        .disable_help_subcommand(true)
        .disable_version_flag(true)
        .subcommand_required(true)
}

/// A command with one more subcommand.
fn with<'a>(above: Command<'a>, below: Command<'a>) -> Result<Command<'a>, AllocError>
    requires { (app_of below).top.is_plain ≡ true }
    ensures { IfOk result (λ c. app_of c ≡ with_subcommand (app_of above.entry) (app_of below.entry).top) }
{
    above.subcommand(below)
}

/// The commands that decide a text.
fn deciders<'a>(alloc: Global) -> Result<Command<'a>, AllocError>
    ensures { IfOk result (λ c. app_of c ≡ deciders_app) }
{
    let one = with(bare(alloc), deciding(alloc, "verify")?)?;
    with(one, deciding(alloc, "termination")?)
}

/// With those that take a second file.
fn judges<'a>(alloc: Global) -> Result<Command<'a>, AllocError>
    ensures { IfOk result (λ c. app_of c ≡ judges_app) }
{
    let one = with(deciders(alloc)?, check(alloc)?)?;
    with(one, replay(alloc)?)
}

/// The command line.
fn twols<'a>(alloc: Global) -> Result<Command<'a>, AllocError>
    ensures { IfOk result (λ c. app_of c ≡ twols_app) }
{
    let one = with(judges(alloc)?, show(alloc)?)?;
    with(one, generate(alloc)?)
}

/// Why the words are refused.
fn cause(error: &Error) -> WordsError
    ensures { result ≡ WordsError.Usage → kind_of error.now ≢ ErrorKind.OutOfMemory }
{
    match error.kind() {
        ErrorKind::OutOfMemory => WordsError::NoMemory,
        _ => WordsError::Usage,
    }
}

/// The request in what `clap` found.
fn request_of<'a>(matches: &ArgMatches<'a>) -> Option<Request<'a>>
    ensures { option_map asked result ≡ request_entered (subcommand_rows_of matches.now) }
{
    let (name, own) = matches.subcommand()?;
    request_in(name, own)
}

/// What the words ask for.
pub fn command<'a>(alloc: Global, words: &'a [String]) -> Result<Request<'a>, WordsError>
    ensures ok { IfOk result (λ r. command (texts words.now) ≡ Some (asked r)) }
    ensures usage { IsErrOf result WordsError.Usage → command (texts words.now) ≡ None }
{
    let line = twols(alloc)?;
    match line.try_get_matches_from(words) {
        Ok(matches) => match request_of(&matches) {
            Some(request) => Ok(request),
            None => Err(WordsError::Usage),
        },
        Err(error) => Err(cause(&error)),
    }
}
