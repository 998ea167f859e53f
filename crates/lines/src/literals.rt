// Bytes that a text must have.
ghost use Rattle.std.specs.Prelude.{◌≡◌, ℕ, List, ◌++◌, MatchOption, ◌≢◌};

// The bytes after the key, where the bytes open with it.
pub fn literal<'a>(bytes: &'a [u8], key: &[u8]) -> Option<&'a [u8]>
    ensures gives_what_follows_the_key { MatchOption result ((rest : List ℕ) → bytes.now ≢ key.now ++ rest) (λ x. bytes.now ≡ key.now ++ x.now) }
{
    bytes.strip_prefix(key)
}
