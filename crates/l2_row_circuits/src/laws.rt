//! What rows and rankings give: functions without effect whose contracts are the laws.
ghost use Rattle.l2_row_circuits.specs.Law.{FormsShow, RowsAre, RanksAre, RowsAreMade};

/// The value of a form, exact.
pub fn forms_show()
    ensures { FormsShow }
{}

/// Whether a row holds.
pub fn rows_are()
    ensures { RowsAre }
{}

/// Whether a ranking is lower afterwards.
pub fn ranks_are()
    ensures { RanksAre }
{}

/// Rows and rankings over words that are there are made.
pub fn rows_are_made()
    ensures { RowsAreMade }
{}
