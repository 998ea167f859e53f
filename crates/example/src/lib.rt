// The net that the program plays, and that tests play.
#![tactic(auto)]

pub mod nets;
