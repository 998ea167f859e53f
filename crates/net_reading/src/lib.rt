// Reading net texts.
#![tactic(auto)]

mod cells;
mod heads;
mod names;
mod nets;
mod places;
pub mod reading;
