// Where statements stand.
ghost use Rattle.std.specs.Prelude.{◌≡◌};
ghost use Rattle.l2_types_statements.specs.Parts.{inside, behind_label, apart, looping, switching};

use crate::checked::{Cases, Setting};

/// The items of a block.
pub fn inside(w: Setting) -> Setting
    ensures { result ≡ inside w }
{
    Setting {
        breaks: w.breaks,
        continues: w.continues,
        cases: w.opens,
        opens: Cases::Absent,
        result: w.result,
    }
}

/// A statement behind a label.
pub fn behind_label(w: Setting) -> Setting
    ensures { result ≡ behind_label w }
{
    Setting {
        breaks: w.breaks,
        continues: w.continues,
        cases: w.cases,
        opens: Cases::Absent,
        result: w.result,
    }
}

/// The statement of a branch.
pub fn apart(w: Setting) -> Setting
    ensures { result ≡ apart w }
{
    Setting {
        breaks: w.breaks,
        continues: w.continues,
        cases: Cases::Absent,
        opens: Cases::Absent,
        result: w.result,
    }
}

/// The statement of a loop.
pub fn looping(w: Setting) -> Setting
    ensures { result ≡ looping w }
{
    Setting {
        breaks: true,
        continues: true,
        cases: Cases::Absent,
        opens: Cases::Absent,
        result: w.result,
    }
}

/// The statement of a switch.
pub fn switching(cases: Cases, w: Setting) -> Setting
    ensures { result ≡ switching cases w }
{
    Setting {
        breaks: true,
        continues: w.continues,
        cases: Cases::Absent,
        opens: cases,
        result: w.result,
    }
}
