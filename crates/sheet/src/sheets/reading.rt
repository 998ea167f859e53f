// Reading a sheet.
ghost use Rattle.std.specs.Prelude.{◌≡◌, ℕ, ◌<◌, ◌≤◌, [], map, length, MatchOption, ◌≢◌, slice_index_or};
ghost use Rattle.sheet.specs.Stored.{bytes_of};
ghost use Rattle.sheet.specs.Views.{names_of};
ghost use Rattle.texts.specs.Names.{Sheet as Proper};
ghost use Rattle.theory.specs.Limits.{style_limit};

use crate::names::Name;
use crate::sheets::Sheet;

impl Sheet {
    // The names, in order.
    pub fn names(&self) -> &[Name]
        ensures are_the_names_in_order { map bytes_of result.now ≡ names_of self.now }
    {
        &self.names[..self.count]
    }

    // How many names there are.
    pub fn count(&self) -> usize
        ensures counts_the_names { result ≡ length (names_of self.now) }
        ensures names_are_formed_and_different { Proper (names_of self.now) }
        ensures at_most_sixteen_names { length (names_of self.now) ≤ style_limit }
    {
        self.count
    }

    // The name of a style, if there is such a style.
    pub fn name(&self, style: usize) -> Option<&[u8]>
        ensures is_the_name_of_the_style { MatchOption result (length (names_of self.now) ≤ style) (λ x. (style < length (names_of self.now)) × (x.now ≡ slice_index_or (names_of self.now) style [])) }
    {
        self.names().get(style).map(Name::bytes)
    }

    // The style of a name, if a style has it.
    pub fn find(&self, name: &[u8]) -> Option<usize>
        ensures is_the_style_of_the_name { MatchOption result ((i : ℕ) → i < length (names_of self.now) → slice_index_or (names_of self.now) i [] ≢ name.now) (λ i. (i < length (names_of self.now)) × (slice_index_or (names_of self.now) i [] ≡ name.now)) }
    {
        self.names()
            .iter()
            .position(|stored| stored.bytes() == name)
    }
}
