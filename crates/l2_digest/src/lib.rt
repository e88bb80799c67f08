//! Digests of lists of clauses, by which formulas made in two ways are compared.
#![tactic(auto)]

ghost use Rattle.std.specs.Prelude.{◌≡◌, ◌++◌};
ghost use Rattle.l2_digest.specs.Digests.{after_clause, after_list, digest_of, mixed, number_of};

use l2_cnf::{ClauseList, Lit};

/// A digest that goes on by one number.
fn mixed(digest: u64, number: u64) -> u64
    ensures { result ≡ mixed digest number }
{
    (digest ^ number).wrapping_mul(1_099_511_628_211)
}

fn number(literal: Lit) -> u64
    ensures { result ≡ number_of literal }
{
    if literal.is_positive() {
        literal.var()
    } else {
        u64::MAX - (literal.var() - 1)
    }
}

fn after_clause(start: u64, clause: &[Lit]) -> u64
    ensures { result ≡ after_clause start clause.now }
{
    let mut digest = start;
    for literal in clause {
        digest = mixed(digest, number(*literal));
    }
    mixed(digest, 0)
}

fn after_list(start: u64, list: &ClauseList) -> u64
    ensures { result ≡ after_list start list.now }
{
    let mut digest = start;
    for i in 0..list.len() {
        digest = after_clause(digest, list.clause(i));
    }
    digest
}

/// The digest of the clauses of two lists, one behind the other.
pub fn digest(first: &ClauseList, second: &ClauseList) -> u64
    ensures { result ≡ digest_of (first.now ++ second.now) }
{
    after_list(after_list(14_695_981_039_346_656_037, first), second)
}
