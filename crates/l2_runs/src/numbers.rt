ghost use Rattle.std.specs.Prelude.{◌≡◌};
ghost use Rattle.l2_runs.specs.Numbers.{index_of};

/// The index of the object, function, loop or check of this number in its list. They are numbered from 1: 0 has none.
pub fn index_of(number: u32) -> Option<usize>
    ensures { result ≡ index_of number }
{
    if number == 0 {
        None
    } else {
        Some(number as usize - 1)
    }
}
