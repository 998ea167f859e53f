// Tests of nets and galleys on small examples.
#![tactic(auto)]

#[cfg(test)]
mod galleys;
#[cfg(test)]
mod makers;
#[cfg(test)]
mod nets;
