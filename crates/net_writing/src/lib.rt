// Write: the text of a net and the names of its styles.
#![tactic(auto)]

mod cursors;
mod names;
mod numbers;
mod places;
pub mod refusals;
mod text;
pub mod writing;
