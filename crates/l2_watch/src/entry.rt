ghost use Rattle.std.specs.Prelude.{◌≡◌, ◌<◌, ◌^◌, nat_abs};

use l2_cnf::Lit;
use std::marker::Model;

/// A literal in 4 bytes. Contracts see it as they see a `Lit`.
#[derive(Debug, PartialEq, Eq)]
pub struct ShortLit {
    // Twice the variable, and one more where it is negative.
    code: u32,
}

impl Model for ShortLit {
    ghost use Rattle.std.specs.Prelude.{ℤ, ◌≤◌};
    ghost use Rattle.std.specs.Coded.{coded_ℤ};
    ghost use Rattle.l2_cnf.specs.Lit.{code_of, literal_of, code_of-literal_of};

    ghost Value = { ℤ };

    ghost coded = { coded_ℤ };

    ghost view = { λ a. literal_of a.code };

    ghost invariant = { λ a. 2 ≤ a.code };

    ghost inverse = { λ z. record { code = code_of z } };

    ghost inverse_ok = { λ a h i. record { code = code_of-literal_of a.code h i } };
}

impl Clone for ShortLit {
    fn clone(&self) -> Result<Self, std::alloc::AllocError> {
        Ok(*self)
    }
}

impl Copy for ShortLit {}

impl ShortLit {
    pub fn of(literal: Lit) -> ShortLit
        requires { nat_abs literal < 2 ^ 31 }
        ensures { result ≡ literal }
    {
        ShortLit {
            code: literal.code() as u32,
        }
    }

    pub fn literal(self) -> Lit
        ensures { result ≡ self }
    {
        let code = u64::from(self.code);
        Lit::new(code / 2, code % 2 == 0)
    }
}

/// What the list of a literal has for a clause that it watches: the clause's index, and a literal of it. While that one is
/// true, the clause needs no look.
#[derive(Clone, Copy)]
pub struct Entry {
    pub blocker: ShortLit,
    pub clause: u32,
}
