// A guard that restores the shown values.
ghost use Rattle.std.specs.Prelude.{◌≡◌, length, vec_len};

use wheel::turning::Wheel;

// While it lives, the shown values are changed through it; when it ends, they are the saved ones again.
// A slice in place of the vector was tried: the proof of `longest_prefix` does not close, since it no longer knows what a
// slice holds that is lent from the guard in a loop.
pub struct Restoring<'a, W: Wheel> {
    pub shown: &'a mut Vec<W>,
    pub saved: &'a [W],
}

impl<W: Wheel> Drop for Restoring<'_, W> {
    fn drop(self)
        requires a_saved_value_for_each { length self.saved.now ≡ vec_len self.shown.now }
        ensures shows_what_was_saved { self.exit.0.now.items ≡ self.entry.saved.now }
        ensures as_many_as_before { vec_len self.exit.0.now ≡ vec_len self.entry.shown.now }
    {
        let Restoring { shown, saved } = self;
        shown.copy_from_slice(saved);
    }
}
