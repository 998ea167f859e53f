// Arithmetic modulo k: what a wheel is, and the wheels of two, three and four.
#![tactic(auto)]

pub mod dividing;
pub mod four;
pub mod orders;
#[cfg(test)]
mod tests;
pub mod three;
pub mod turning;
pub mod two;
