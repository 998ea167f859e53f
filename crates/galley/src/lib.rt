// Galleys: a galley stands on a net and plays it.
#![tactic(auto)]

pub mod galleys;
