//! What a model of a formula of a code's short runs finds.
#![tactic(auto)]

pub mod laws;
