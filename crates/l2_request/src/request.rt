ghost use Rattle.std.specs.Prelude.{◌≡◌};
ghost use Rattle.l2_limits.specs.Limits.{text_limit, file_limit};
ghost use Rattle.l2_inputs.specs.Inputs.{input_of};
ghost use Rattle.l2_request.specs.Requests.{text, values_file, certificate_file};

use l2_inputs::Input;
use l2_kiki::Mode;
use l2_limits::{FILE_LIMIT, TEXT_LIMIT};
use l2_words::{DomainName, View};

/// What a line of words asks for.
#[derive(Clone, Copy, Debug)]
pub enum Request<'a> {
    /// `verify FILE`, `termination FILE`
    Decide {
        mode: Mode,
        file: &'a str,
        /// The most copies of a loop's turn.
        unwind: u32,
        domain: DomainName,
        /// The file into which the certificate is written.
        certificate: Option<&'a str>,
    },
    /// `replay FILE VALUES`
    Replay {
        file: &'a str,
        values: &'a str,
    },
    /// `show goto FILE`, `show loops FILE`
    Show {
        view: View,
        file: &'a str,
    },
    /// `check FILE CERT`
    Check {
        file: &'a str,
        certificate: &'a str,
        /// In how many runs at most the goals are checked at once.
        jobs: u32,
    },
    /// `generate N`
    Generate {
        seed: u32,
        loops: u32,
    },
}

/// FILE, a C text.
pub fn text(name: &str) -> Input<'_>
    ensures { input_of result ≡ text name.now }
{
    Input {
        name,
        limit: TEXT_LIMIT,
    }
}

/// VALUES, a values file.
pub fn values_file(name: &str) -> Input<'_>
    ensures { input_of result ≡ values_file name.now }
{
    Input {
        name,
        limit: FILE_LIMIT,
    }
}

/// CERT, a certificate.
pub fn certificate_file(name: &str) -> Input<'_>
    ensures { input_of result ≡ certificate_file name.now }
{
    Input {
        name,
        limit: FILE_LIMIT,
    }
}
