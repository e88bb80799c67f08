//! What holds of the definitions: functions without effect whose contracts are the laws.
ghost use Rattle.std.specs.Prelude.{ℕ, ◌<◌, pos, ◌<ℤ◌, List, length, slice_index_or, Contains};
ghost use Rattle.l2_syntax.specs.declared.token.Token.{Token};
ghost use Rattle.l2_meaning.specs.Thresholds.{thresholds_of};

/// Thresholds rise, and 0 is one of them.
pub fn thresholds_rise()
    ensures rise { (tokens : List Token) → (i j : ℕ) → i < j → j < length (thresholds_of tokens) → slice_index_or (thresholds_of tokens) i (pos 0) <ℤ slice_index_or (thresholds_of tokens) j (pos 0) }
    ensures zero { (tokens : List Token) → Contains (thresholds_of tokens) (pos 0) }
{}
