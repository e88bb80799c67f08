ghost use Rattle.std.specs.Prelude.{◌≡◌, Some, None, option_map, IfOk, IsErrOf};
ghost use Rattle.l2_words.specs.Line.{texts};
ghost use Rattle.l2_words.specs.Requests.{asked as all_asked, deciding_of};
ghost use Rattle.l2_request.specs.Requests.{IsWithin, asked, built, command, plainly};

use crate::request::Request;
use l2_kiki::Mode;
use l2_words::{Deciding, Request as Asked, WordsError};
use std::alloc::Global;

/// How a text is decided, where overflow is no check.
fn plainly<'a>(mode: Mode, deciding: Deciding<'a>) -> Option<Request<'a>>
    ensures { option_map asked result ≡ plainly mode deciding.entry.overflow (deciding_of deciding.entry) }
{
    if deciding.overflow {
        return None;
    }
    Some(Request::Decide {
        mode,
        file: deciding.file,
        unwind: deciding.unwind,
        domain: deciding.domain,
        certificate: deciding.certificate,
    })
}

/// The same request, where its command is built.
fn built<'a>(request: Asked<'a>) -> Option<Request<'a>>
    ensures { option_map asked result ≡ built (all_asked request.entry) }
{
    match request {
        Asked::Verify(deciding) => plainly(Mode::Safety, deciding),
        Asked::Termination(deciding) => plainly(Mode::Termination, deciding),
        Asked::Replay {
            file,
            values,
            overflow: false,
        } => Some(Request::Replay { file, values }),
        Asked::Show {
            view,
            file,
            overflow: false,
        } => Some(Request::Show { view, file }),
        Asked::Check {
            file,
            certificate,
            jobs,
        } => Some(Request::Check {
            file,
            certificate,
            jobs,
        }),
        Asked::Generate { seed, loops } => Some(Request::Generate { seed, loops }),
        _ => None,
    }
}

/// What the words ask for.
pub fn command<'a>(alloc: Global, words: &'a [String]) -> Result<Request<'a>, WordsError>
    ensures ok { IfOk result (λ r. command (texts words.now) ≡ Some (asked r)) }
    ensures within { IfOk result (λ r. IsWithin (asked r)) }
    ensures usage { IsErrOf result WordsError.Usage → command (texts words.now) ≡ None }
{
    match l2_words::command(alloc, words) {
        Ok(request) => match built(request) {
            Some(request) => Ok(request),
            None => Err(WordsError::Usage),
        },
        Err(error) => Err(error),
    }
}
