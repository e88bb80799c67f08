//! What holds of the definitions for every type: functions without effect whose contracts are the laws.
ghost use Rattle.std.specs.Prelude.{◌≡◌, ◌≢◌, ℕ, ◌<◌, ℤ, pos, ◌+ℤ◌, ◌*ℤ◌, ◌≤ℤ◌, ◌<ℤ◌, ◌⊎◌, ◌↔◌, true, unsigned_abs};
ghost use Rattle.l2_bits.specs.declared.types.Ty.{Ty};
ghost use Rattle.l2_bits.specs.Values.{IsValue, IsWrapOf, wrap};
ghost use Rattle.l2_bits.specs.Bits.{bit};
ghost use Rattle.l2_bits.specs.Operators.{quotient, remainder, breaks_division, breaks_shift, floor_div};

/// A whole number is congruent modulo 2^width to exactly one value of a type, which `wrap` names.
pub fn wrap_is_the_only_value()
    ensures exists { (ty : Ty) (v : ℤ) → IsWrapOf ty v (wrap ty v) }
    ensures only { (ty : Ty) (v u : ℤ) → IsWrapOf ty v u → u ≡ wrap ty v }
{}

/// Two values of a type with the same bits below its width are one.
pub fn bits_tell_a_value()
    ensures { (ty : Ty) (u v : ℤ) → IsValue ty u → IsValue ty v → ((i : ℕ) → i < ty.width → bit u i ≡ bit v i) → u ≡ v }
{}

/// What a quotient leaves is nearer to 0 than the divisor, and on the dividend's side of 0: it truncates towards 0.
pub fn quotient_truncates()
    ensures parts { (a b : ℤ) → (b *ℤ quotient a b) +ℤ remainder a b ≡ a }
    ensures smaller { (a b : ℤ) → b ≢ pos 0 → unsigned_abs (remainder a b) < unsigned_abs b }
    ensures above { (a b : ℤ) → pos 0 ≤ℤ a → pos 0 ≤ℤ remainder a b }
    ensures below { (a b : ℤ) → a ≤ℤ pos 0 → remainder a b ≤ℤ pos 0 }
{}

/// A right shift rounds down: the greatest whole number of which n times is at most a.
pub fn floor_rounds_down()
    ensures at_most { (a : ℤ) (n : ℕ) → 0 < n → (floor_div a n *ℤ pos n) ≤ℤ a }
    ensures next { (a : ℤ) (n : ℕ) → 0 < n → a <ℤ ((floor_div a n *ℤ pos n) +ℤ pos n) }
{}

/// When an operator has no answer: division by 0 or with a quotient that is no value of the type, and a shift by a
/// negative amount or by at least the width.
pub fn checks_break()
    ensures division { (ty : Ty) (a b : ℤ) → (breaks_division ty a b ≡ true) ↔ ((b ≡ pos 0) ⊎ (¬ IsValue ty (quotient a b))) }
    ensures shift { (ty : Ty) (n : ℤ) → (breaks_shift ty n ≡ true) ↔ ((n <ℤ pos 0) ⊎ (pos ty.width ≤ℤ n)) }
{}
