ghost use Rattle.std.specs.Prelude.{◌≡◌, ◌≤◌, option_map};
ghost use Rattle.clap.specs.Words.{rows_of, found_of, first_of};
ghost use Rattle.l2_words.specs.Numbers.{number_between};
ghost use Rattle.l2_words.specs.Requests.{asked, deciding_of, view_of, domain_of, overflow_in, deciding_in, check_in, replay_in, show_in, generate_in, request_in};

use crate::request::{Deciding, DomainName, Request, View};
use clap::ArgMatches;

/// The value of an operand or an option.
fn value<'a>(matches: &ArgMatches<'a>, id: &str) -> Option<&'a str>
    ensures { option_map (λ s. s.now) result ≡ first_of id.now (rows_of (found_of matches.now)) }
{
    matches.get_str(id)
}

/// A number from the least to the most.
fn number_between(least: u32, most: u32, text: &str) -> Option<u32>
    ensures { result ≡ number_between least most text.now }
{
    let Ok(number) = text.parse::<u32>() else {
        return None;
    };
    if least <= number && number <= most {
        Some(number)
    } else {
        None
    }
}

fn view_of(word: &str) -> Option<View>
    ensures { result ≡ view_of word.now }
{
    if word == "goto" {
        Some(View::Goto)
    } else if word == "loops" {
        Some(View::Loops)
    } else {
        None
    }
}

fn domain_of(word: &str) -> Option<DomainName>
    ensures { result ≡ domain_of word.now }
{
    if word == "none" {
        Some(DomainName::NoRows)
    } else if word == "equalities" {
        Some(DomainName::Equalities)
    } else if word == "intervals" {
        Some(DomainName::Intervals)
    } else if word == "zones" {
        Some(DomainName::Zones)
    } else if word == "octagons" {
        Some(DomainName::Octagons)
    } else {
        None
    }
}

/// Whether signed overflow is checked.
fn overflow_in(matches: &ArgMatches<'_>) -> bool
    ensures { result ≡ overflow_in (rows_of (found_of matches.now)) }
{
    match value(matches, "signed-overflow-check") {
        Some(text) => text == "true",
        None => false,
    }
}

fn deciding_in<'a>(matches: &ArgMatches<'a>) -> Option<Deciding<'a>>
    ensures { option_map deciding_of result ≡ deciding_in (rows_of (found_of matches.now)) }
{
    let file = value(matches, "file")?;
    let unwind = number_between(1, 64, value(matches, "unwind")?)?;
    let domain = domain_of(value(matches, "domain")?)?;
    Some(Deciding {
        file,
        unwind,
        domain,
        overflow: overflow_in(matches),
        certificate: value(matches, "certificate"),
    })
}

fn check_in<'a>(matches: &ArgMatches<'a>) -> Option<Request<'a>>
    ensures { option_map asked result ≡ check_in (rows_of (found_of matches.now)) }
{
    let file = value(matches, "file")?;
    let certificate = value(matches, "second")?;
    let jobs = number_between(1, 64, value(matches, "jobs")?)?;
    Some(Request::Check {
        file,
        certificate,
        jobs,
    })
}

fn replay_in<'a>(matches: &ArgMatches<'a>) -> Option<Request<'a>>
    ensures { option_map asked result ≡ replay_in (rows_of (found_of matches.now)) }
{
    let file = value(matches, "file")?;
    let values = value(matches, "second")?;
    Some(Request::Replay {
        file,
        values,
        overflow: overflow_in(matches),
    })
}

fn show_in<'a>(matches: &ArgMatches<'a>) -> Option<Request<'a>>
    ensures { option_map asked result ≡ show_in (rows_of (found_of matches.now)) }
{
    let view = view_of(value(matches, "what")?)?;
    let file = value(matches, "file")?;
    Some(Request::Show {
        view,
        file,
        overflow: overflow_in(matches),
    })
}

fn generate_in<'a>(matches: &ArgMatches<'a>) -> Option<Request<'a>>
    ensures { option_map asked result ≡ generate_in (rows_of (found_of matches.now)) }
{
    let seed = number_between(0, u32::MAX, value(matches, "n")?)?;
    let loops = number_between(1, 64, value(matches, "loops")?)?;
    Some(Request::Generate { seed, loops })
}

/// The request of a command with its operands and options.
pub fn request_in<'a>(name: &str, matches: &ArgMatches<'a>) -> Option<Request<'a>>
    ensures { option_map asked result ≡ request_in name.now (rows_of (found_of matches.now)) }
{
    if name == "verify" {
        Some(Request::Verify(deciding_in(matches)?))
    } else if name == "termination" {
        Some(Request::Termination(deciding_in(matches)?))
    } else if name == "check" {
        check_in(matches)
    } else if name == "replay" {
        replay_in(matches)
    } else if name == "show" {
        show_in(matches)
    } else if name == "generate" {
        generate_in(matches)
    } else {
        None
    }
}
