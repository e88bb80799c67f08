//! Circuits over words that show whole numbers.
ghost use Rattle.l2_operator_laws.specs.Law.{ValuesTell, ConstantsTell, LeftShiftsShow, RightShiftsShow, QuotientsShow, BitByBitShows, ResizedShow, ConversionsShow};

/// A word that shows a value of a type has room for it.
pub fn values_tell()
    ensures { ValuesTell }
{}

/// 66 bits have room for the values of all types.
pub fn constants_tell()
    ensures { ConstantsTell }
{}

/// A word times 2 to the power of an amount below its width.
pub fn left_shifts_show()
    ensures { LeftShiftsShow }
{}

/// A word divided by 2 to the power of an amount below its width, rounded down.
pub fn right_shifts_show()
    ensures { RightShiftsShow }
{}

/// A quotient truncated towards zero, and what it leaves.
pub fn quotients_show()
    ensures { QuotientsShow }
{}

/// `and`, `or` and `xor` bit by bit.
pub fn bit_by_bit_shows()
    ensures { BitByBitShows }
{}

/// A longer word or a shorter one.
pub fn resized_show()
    ensures { ResizedShow }
{}

/// A number as one of another type; in `_Bool` whether it isn't 0.
pub fn conversions_show()
    ensures { ConversionsShow }
{}
