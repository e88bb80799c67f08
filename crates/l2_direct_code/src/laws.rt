//! What holds of a program's code: functions without effect whose contracts are the laws.
ghost use Rattle.l2_direct_code.specs.Law.{CodeIsDirect, StaysDirect};

/// Reads and writes of a lawful program's code at constant addresses are of the cells' types, and it tests no left shift for overflow.
pub fn code_is_direct()
    ensures { CodeIsDirect }
{}

/// Such code is still such code with one label at each place.
pub fn stays_direct()
    ensures { StaysDirect }
{}
