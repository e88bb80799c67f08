//! The laws of cut runs: what a point that infers, proves or has rankings says of every execution of a lawful program.
//! They are functions without effect whose contracts are the laws.
#![tactic(auto)]

pub mod laws;
