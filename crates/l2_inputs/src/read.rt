ghost use Rattle.std.specs.Prelude.{◌≡◌, ◌≤◌, [], ◌∷◌, IfOk, IsErrOf};
ghost use Rattle.l2_outside.specs.Outside.{Rose};
ghost use Rattle.l2_inputs.specs.Inputs.{input_of, AreRead, IsTooLong, HasFault};

use crate::input::{Input, InputError};
use l2_outside::{ReadError, Shelf};
use std::alloc::Global;

/// The content of a file.
pub fn read_one<H: Shelf>(
    alloc: Global,
    input: Input<'_>,
    shelf: &mut H,
) -> Result<Vec<u8>, InputError>
    ensures ok { IfOk result (λ bytes. AreRead (H.files shelf.old) (input_of input.entry ∷ []) (bytes.items ∷ [])) }
    ensures fault { IsErrOf result InputError.Fault →
        HasFault (H.files shelf.old) (Rose (H.read_faults shelf.old) (H.read_faults shelf.new)) (input_of input.entry ∷ []) }
    ensures too_long { IsErrOf result InputError.TooLong → IsTooLong (H.files shelf.old) (input_of input.entry ∷ []) }
    ensures files { H.files shelf.new ≡ H.files shelf.old }
    ensures read_faults { H.read_faults shelf.old ≤ H.read_faults shelf.new }
    ensures write_faults { H.write_faults shelf.new ≡ H.write_faults shelf.old }
{
    match shelf.read(alloc, input.name, input.limit + 1) {
        Ok(bytes) => {
            if bytes.len() as u64 > input.limit {
                Err(InputError::TooLong)
            } else {
                Ok(bytes)
            }
        }
        Err(ReadError::Failed) => Err(InputError::Fault),
        Err(ReadError::NoMemory) => Err(InputError::NoMemory),
    }
}

/// The contents of two files, read in this order.
pub fn read_two<H: Shelf>(
    alloc: Global,
    first: Input<'_>,
    second: Input<'_>,
    shelf: &mut H,
) -> Result<(Vec<u8>, Vec<u8>), InputError>
    ensures ok { IfOk result (λ r. AreRead (H.files shelf.old) (input_of first.entry ∷ input_of second.entry ∷ []) (r.0.items ∷ r.1.items ∷ [])) }
    ensures fault { IsErrOf result InputError.Fault →
        HasFault (H.files shelf.old) (Rose (H.read_faults shelf.old) (H.read_faults shelf.new)) (input_of first.entry ∷ input_of second.entry ∷ []) }
    ensures too_long { IsErrOf result InputError.TooLong → IsTooLong (H.files shelf.old) (input_of first.entry ∷ input_of second.entry ∷ []) }
    ensures files { H.files shelf.new ≡ H.files shelf.old }
    ensures read_faults { H.read_faults shelf.old ≤ H.read_faults shelf.new }
    ensures write_faults { H.write_faults shelf.new ≡ H.write_faults shelf.old }
{
    match read_one(alloc, first, shelf) {
        Ok(content) => match read_one(alloc, second, shelf) {
            Ok(other) => Ok((content, other)),
            Err(error) => Err(error),
        },
        Err(error) => Err(error),
    }
}
