// The form of a name.
ghost use Rattle.std.specs.Prelude.{Decides};
ghost use Rattle.texts.specs.Names.{NameForm};

use lines::words::word;

// Whether the bytes are one name: the first word is all of them.
pub(super) fn is_name(bytes: &[u8]) -> bool
    ensures decides_the_name_form { Decides result (NameForm bytes.now) }
{
    word(bytes).is_some_and(|(_, rest)| rest.is_empty())
}
