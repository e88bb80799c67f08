ghost use Rattle.std.specs.Prelude.{◌≡◌, option_map};
ghost use Rattle.l2_inputs.specs.Inputs.{input_of};
ghost use Rattle.l2_sat.specs.Commands.{asked, command, command_of, input, texts};

use l2_inputs::Input;
use l2_limits::FILE_LIMIT;

/// What words ask for.
#[derive(Clone, Copy, Debug)]
pub enum Command<'a> {
    /// `solve FILE PROOF`
    Solve { file: &'a str, proof: &'a str },
    /// `check FILE PROOF`
    Check { file: &'a str, proof: &'a str },
}

/// What a command of this name asks for.
fn named<'a>(name: &str, file: &'a str, proof: &'a str) -> Option<Command<'a>>
    ensures { option_map asked result ≡ command_of name.now file.now proof.now }
{
    if name == "solve" {
        Some(Command::Solve { file, proof })
    } else if name == "check" {
        Some(Command::Check { file, proof })
    } else {
        None
    }
}

/// What the words behind the program's name ask for.
pub fn asked_by(words: &[String]) -> Option<Command<'_>>
    ensures { option_map asked result ≡ command (texts words.now) }
{
    if words.len() != 3 {
        return None;
    }
    named(words[0].as_str(), words[1].as_str(), words[2].as_str())
}

/// FILE or PROOF.
pub fn input(name: &str) -> Input<'_>
    ensures { input_of result ≡ input name.now }
{
    Input {
        name,
        limit: FILE_LIMIT,
    }
}
