// What the readers of texts share: reading the front of the bytes that are left, and what can be wrong with a text.
// Each reader takes the bytes and answers those that are left, and none carries them: where a line is not of its form
// nothing has been read, and so no clause has to say where a reader then stands.
#![tactic(auto)]

pub mod faults;
pub mod keys;
pub mod literals;
pub mod numbers;
pub mod words;
