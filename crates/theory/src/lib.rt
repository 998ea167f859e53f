// The mathematics of the engine: definitions in specs/, and their laws in proofs/.
// A law that speaks of definitions alone is the contract of a function here, so that the check asks for its proof.
#![tactic(auto)]

ghost use Rattle.theory.specs.Playing.{AcceptedAreLetThrough};

pub mod limits;

pub fn accepted_runs_are_let_through()
    ensures accepted_exactly_when_let_through { AcceptedAreLetThrough }
{}
