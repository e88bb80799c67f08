//! What holds of the definitions: functions without effect whose contracts are the laws.
ghost use Rattle.std.specs.Prelude.{◌↔◌, IsTrue, ℤ, List};
ghost use Rattle.l2_templates.specs.declared.form.Form.{Form};
ghost use Rattle.l2_templates.specs.declared.point.LoopPoint.{LoopPoint};
ghost use Rattle.l2_templates.specs.Forms.{IsLower, lower_than};
ghost use Rattle.l2_templates.specs.Points.{AreAlike, Holds, IsStronger, holds, meet};

/// What a point says of a loop holds where each row's value is at most its bound.
pub fn holds_law()
    ensures { (p : LoopPoint) (values : List ℤ) → IsTrue (holds p values) ↔ Holds p values }
{}

/// A ranking is lower afterwards where some component differs and the first that does is smaller.
pub fn lower_law()
    ensures { (r : List Form) (before after : List ℤ) → IsTrue (lower_than r before after) ↔ IsLower r before after }
{}

/// The meet of two points is at least as strong as both, and each point that is so is at least as strong as it.
pub fn meet_law()
    ensures first { (p q : List LoopPoint) → AreAlike p q → IsStronger (meet p q) p }
    ensures second { (p q : List LoopPoint) → AreAlike p q → IsStronger (meet p q) q }
    ensures greatest { (p q r : List LoopPoint) → AreAlike p q → IsStronger r p → IsStronger r q → IsStronger r (meet p q) }
{}
