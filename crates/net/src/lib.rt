#![tactic(auto)]

pub mod arcs;
pub mod cells;
pub mod filling;
pub mod nets;

pub use theory::limits;
