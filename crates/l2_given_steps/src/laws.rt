//! What holds of choices: a function without effect whose contract is the law.
ghost use Rattle.l2_given_steps.specs.Law.{ChoicesMatch};

/// For each supply that enters some values of the names that choices give are such that names which have them match the supply.
pub fn choices_match()
    ensures { ChoicesMatch }
{}
