ghost use Rattle.std.specs.Prelude.{◌≡◌, ◌≤◌, Some, length, IfOk, IfErr};
ghost use Rattle.l2_limits.specs.Limits.{text_limit};
ghost use Rattle.l2_program.specs.Programs.{program_tree};
ghost use Rattle.l2_meaning.specs.Lawful.{IsLawful};
ghost use Rattle.l2_parse_unit.specs.Reading.{OnRefusal};
ghost use Rattle.l2_front.specs.Programs.{IsProgram, IsNoProgram, IsRefusalOf};
ghost use Rattle.l2_front.specs.Codes.{IsEmpty, IsLoaded};

use crate::program::program_of;
use l2_bits::List;
use l2_code::{Code, Sets};
use l2_lower::{LowerError, lower};
use l2_points::points;
use l2_program::Program;
use l2_syntax::TextFault;
use std::alloc::{AllocError, Global};
use std::marker::Model;

/// A program with its code.
#[derive(Drop)]
pub struct Loaded {
    pub program: Program,
    /// None where the code is too large; then there are no sets.
    pub code: Option<Code>,
    pub sets: Sets,
}

impl Model for Loaded {
    ghost use Rattle.std.specs.Coded.{codes};
    ghost use Rattle.l2_program.specs.contracts.program.Program as program_type;
    ghost use Rattle.l2_code.specs.contracts.code.Code as code_type;
    ghost use Rattle.l2_front.specs.Codes.{Kept, IsLoaded};

    ghost Value = { Kept };

    ghost coded = { Prim.hlevel (codes, program_type.the_row.coded, code_type.the_row.coded) };

    ghost view = { λ l. record { program = l.program; code = l.code; sets = l.sets } };

    ghost invariant = { λ l. IsLoaded (record { program = l.program; code = l.code; sets = l.sets }) };
}

impl Loaded {
    /// The program is lawful, and the code and the sets are its own.
    pub fn whole(&self)
        ensures { IsLoaded self.now }
    {
        let _ = self.code.is_some();
    }
}

/// No set, of no object and no temporary.
fn no_sets(alloc: Global) -> Sets
    ensures { IsEmpty result }
{
    Sets {
        sets: List::new(Vec::new(alloc)),
        objects: List::new(Vec::new(alloc)),
        temps: List::new(Vec::new(alloc)),
    }
}

/// A program with its code.
fn with_code(alloc: Global, program: Program) -> Result<Loaded, AllocError>
    requires { IsLawful (program_tree program) }
    ensures { IfOk result (λ l. program_tree l.program ≡ program_tree program) }
{
    match lower(alloc, &program) {
        Ok(code) => {
            let sets = points(alloc, &code)?;
            Ok(Loaded {
                program,
                code: Some(code),
                sets,
            })
        }
        Err(LowerError::TooLarge) => Ok(Loaded {
            program,
            code: None,
            sets: no_sets(alloc),
        }),
        Err(LowerError::NoMemory) => Err(AllocError),
    }
}

/// The program of a text with its code, or why it has none.
pub fn load(alloc: Global, text: &[u8]) -> Result<Loaded, TextFault>
    requires { length text.now ≤ text_limit }
    ensures ok { IfOk result (λ l. IsProgram text.now (program_tree l.program)) }
    ensures refused { IfErr result (λ e. OnRefusal e (λ f. IsNoProgram text.now × IsRefusalOf text.now f)) }
{
    let program = program_of(alloc, text)?;
    Ok(with_code(alloc, program)?)
}
