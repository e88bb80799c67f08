//! What holds of the definitions: functions without effect whose contracts are the laws.
ghost use Rattle.std.specs.Prelude.{◌≡◌, ◌≤◌, [], ◌∷◌, Some, length};
ghost use Rattle.l2_small.specs.SmallTrees.{Block, SmallUnitTree};
ghost use Rattle.l2_program.specs.Programs.{ProgramTree};
ghost use Rattle.l2_meaning.specs.Lawful.{IsLawful};
ghost use Rattle.l2_small_check.specs.Elaboration.{program_of, most_cells};
ghost use Rattle.l2_small_check.specs.Spelling.{plain_items, spelt_bodies, AreApart};

/// A program says what its text says: with each number looked up in the program's lists it is the text again, but for
/// parentheses and for the places of the names that expressions and assignments use.
#[tactic(auto, using(crate::proofs::LawfulPrograms::unit_says))]
pub fn programs_say_what_texts_say()
    ensures { (u : SmallUnitTree) (p : ProgramTree) → program_of u ≡ Some p → spelt_bodies p ≡ Block (plain_items u.items) ∷ [] }
{}

/// Each name is declared once, and there are at most 65,536 cells.
#[tactic(auto, using(crate::proofs::Spelt::names_apart, crate::proofs::Spelt::few_objects))]
pub fn names_are_declared_once()
    ensures once { (u : SmallUnitTree) (p : ProgramTree) → program_of u ≡ Some p → AreApart p.objects }
    ensures cells { (u : SmallUnitTree) (p : ProgramTree) → program_of u ≡ Some p → length p.objects ≤ most_cells }
{}

/// A program is typed, names what is in scope, and has the objects, loops and checks that its lists say.
#[tactic(auto, using(crate::proofs::LawfulPrograms::program_lawful))]
pub fn programs_are_lawful()
    ensures { (u : SmallUnitTree) (p : ProgramTree) → program_of u ≡ Some p → IsLawful p }
{}
