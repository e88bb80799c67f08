//! What holds of runs and loops under limits: how cut runs follow real ones, what runs change, how many turns they take.
#![tactic(auto)]
