// The externals of a text that was read.
ghost use Rattle.std.specs.Prelude.{◌≡◌, map, IfOk};
ghost use Rattle.l2_grammar.specs.Law.{IsUnit};
ghost use Rattle.l2_reader.specs.Parts.{tree_of};
ghost use Rattle.l2_tree.specs.Units.{external_tree};
ghost use Rattle.l2_tree.specs.Spelling.{Keeps, run_unit};

use l2_build::BuildError;
use l2_build_unit::unit_of;
use l2_reader::Open;
use l2_tree::External;
use l2_tree_laws::{unit_built_law, unit_run_law};
use std::alloc::{AllocError, Global};

/// The parts of a text that was read whole.
pub fn externals(alloc: Global, text: &Open) -> Result<Vec<External>, AllocError>
    requires unit { IsUnit (tree_of text.now) }
    requires keeps { Keeps (tree_of text.now) }
    ensures { IfOk result (λ xs. run_unit (map external_tree xs.items) ≡ tree_of text.now) }
{
    unit_built_law();
    unit_run_law();
    match unit_of(alloc, &text.parts) {
        Ok(parts) => Ok(parts),
        Err(fault) => match fault {
            BuildError::NoMemory => Err(AllocError),
            BuildError::Misfit => unreachable!(),
        },
    }
}
