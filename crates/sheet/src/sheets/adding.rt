// Making sheets, name by name.
ghost use Rattle.sheet.specs.Adding.{AddOwes};
ghost use Rattle.sheet.specs.Views.{names_of};
ghost use Rattle.std.specs.Prelude.{◌≡◌, true, [], is_err};

use crate::names::Name;
use crate::sheets::Sheet;
use crate::sheets::errors::SheetError;
use theory::limits::STYLE_LIMIT;

impl Sheet {
    // No names.
    pub fn blank() -> Sheet
        ensures has_no_name { names_of result ≡ [] }
    {
        Sheet {
            names: [Name::unused(); STYLE_LIMIT],
            count: 0,
        }
    }

    // Gives the next style its name.
    pub fn add(&mut self, name: &[u8]) -> Result<(), SheetError>
        ensures added_last_or_refused { AddOwes (names_of self.old) name.now (names_of self.new) result }
        ensures refused_calls_change_nothing { is_err result ≡ true → self.new ≡ self.old }
    {
        let Some(stored) = Name::new(name) else {
            return Err(SheetError::NotAName);
        };
        if let Some(style) = self.find(name) {
            return Err(SheetError::Repeated(style));
        }
        if self.count == STYLE_LIMIT {
            return Err(SheetError::Full);
        }
        self.names[self.count] = stored;
        self.count += 1;
        Ok(())
    }
}
