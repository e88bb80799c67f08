//! What shifts, quotients, operators bit by bit and conversions make of words that show numbers: functions without effect whose
//! contracts are the laws.
#![tactic(auto)]

pub mod laws;
