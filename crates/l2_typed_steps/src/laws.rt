//! What holds of the equations of a code: a function without effect whose contract is the law.
ghost use Rattle.l2_typed_steps.specs.Law.{StepsAreTyped};

/// Each equation's operands have the sorts that it asks, and events are truth values.
pub fn steps_are_typed()
    ensures { StepsAreTyped }
{}
