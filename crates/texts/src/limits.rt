// The limits of texts.
ghost use Rattle.texts.specs.Limits.{text_limit, name_limit};
ghost use Rattle.std.specs.Prelude.{◌≡◌, [], ◌∷◌};

// The most bytes of a text.
pub const TEXT_LIMIT: usize = 65536;

// The most bytes of a style name.
pub const NAME_LIMIT: usize = 12;

// Both of them, which are those that definitions speak of.
pub fn limits_of_texts() -> [usize; 2]
    ensures are_those_of_the_definitions { result ≡ text_limit ∷ name_limit ∷ [] }
{
    [TEXT_LIMIT, NAME_LIMIT]
}
