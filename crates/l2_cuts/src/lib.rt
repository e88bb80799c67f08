//! Cut runs of programs: what a point says at the heads of loops, and what it is to infer, to prove and to bound turns.
//! The definitions stand in `specs/`.
#![tactic(auto)]
