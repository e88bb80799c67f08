ghost use Rattle.l2_answer.specs.Stores.{IsAlone};

use l2_status::Answer;
use std::alloc::AllocError;

/// A file that is to be written.
#[derive(Debug, Drop)]
pub struct Stored<'a> {
    pub name: &'a str,
    pub bytes: Vec<u8>,
}

/// What a run is to do.
#[derive(Debug, Drop)]
pub struct Told<'a> {
    pub answer: Answer,
    /// What is written before the answer is printed.
    pub stored: Option<Stored<'a>>,
}

/// An answer where nothing is stored.
pub fn alone<'a>(answer: Result<Answer, AllocError>) -> Result<Told<'a>, AllocError>
    ensures { IsAlone answer result }
{
    match answer {
        Ok(answer) => Ok(Told {
            answer,
            stored: None,
        }),
        Err(error) => Err(error),
    }
}
