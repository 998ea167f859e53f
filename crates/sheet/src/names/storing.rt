// Storing bytes as a name, and reading them back.
ghost use Rattle.sheet.specs.Stored.{bytes_of};
ghost use Rattle.texts.specs.Names.{NameForm};
ghost use Rattle.std.specs.Prelude.{◌≡◌, [], ◌∷◌, MatchOption};

use crate::names::Name;
use crate::names::forms::is_name;
use texts::limits::NAME_LIMIT;

impl Name {
    // A name for where none is stored yet. (An `Option` in each slot would say the count a second time.)
    pub(crate) fn unused() -> Name
        ensures is_one_hyphen { bytes_of result ≡ 45 ∷ [] }
    {
        Name {
            bytes: [b'-'; NAME_LIMIT],
            len: 1,
        }
    }

    // The name of these bytes, if they have the name form.
    pub(crate) fn new(bytes: &[u8]) -> Option<Name>
        ensures stores_the_bytes_of_a_name { MatchOption result (NameForm bytes.now → ⊥) (λ name. NameForm bytes.now × (bytes_of name ≡ bytes.now)) }
    {
        if !is_name(bytes) {
            return None;
        }
        let len = bytes.len();
        let mut stored = [0; NAME_LIMIT];
        stored[..len].copy_from_slice(bytes);
        Some(Name { bytes: stored, len })
    }

    // The name's bytes.
    pub fn bytes(&self) -> &[u8]
        ensures are_the_bytes_stored { result.now ≡ bytes_of self.now }
    {
        &self.bytes[..self.len]
    }
}
