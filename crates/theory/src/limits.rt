// The limits of nets and of the runs that are handed in.
ghost use Rattle.theory.specs.Limits.{style_limit, place_limit, run_limit};
ghost use Rattle.std.specs.Prelude.{◌≡◌, [], ◌∷◌};

// The most styles that a net has.
pub const STYLE_LIMIT: usize = 16;

// The most places that a net has.
pub const PLACE_LIMIT: usize = 256;

// The most styles of a run that Try takes.
pub const RUN_LIMIT: usize = 4096;

// The three of them, which are those that definitions speak of.
pub fn limits_of_nets_and_runs() -> [usize; 3]
    ensures are_those_of_the_definitions { result ≡ style_limit ∷ place_limit ∷ run_limit ∷ [] }
{
    [STYLE_LIMIT, PLACE_LIMIT, RUN_LIMIT]
}
