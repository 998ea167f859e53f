// Net texts there and back.
#![tactic(auto)]

pub mod copying;
pub mod refusals;
