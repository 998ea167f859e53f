// Tests of sheets, Read and Write on small texts.
#![tactic(auto)]

#[cfg(test)]
mod nets;
#[cfg(test)]
mod sheets;
#[cfg(test)]
mod vectors;
