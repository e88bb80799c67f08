//! What is answered of a program: definitions alone.
#![tactic(auto)]
