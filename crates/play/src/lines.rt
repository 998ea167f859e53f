// The lines that are printed.
ghost use Rattle.std.specs.Prelude.{◌<◌, Some};
ghost use Rattle.play.specs.Lines.{answer_bytes, offer_bytes, menu_bytes};

use crate::styles::STYLES;
use galley::galleys::refusals::SetRefusal;
use std::fmt;

// What Set answered for a word.
#[derive(Clone, Copy)]
pub struct Answer<'a> {
    pub word: &'a str,
    pub answer: Result<(), SetRefusal>,
}

impl fmt::Display for Answer<'_> {
    ghost output = { λ it. Some (answer_bytes it.word.now it.answer) };

    fn fmt<W: fmt::Write>(&self, f: &mut fmt::Formatter<W>) -> fmt::Result {
        let word = self.word;
        match self.answer {
            Ok(()) => write!(f, "{word}: set"),
            Err(refusal) => write!(f, "{word}: refused, {refusal}"),
        }
    }
}

// A style's name where the menu offers it, and nothing else.
#[derive(Clone, Copy)]
struct Offer<'a> {
    menu: u16,
    style: u8,
    name: &'a str,
    ghost the_menu_has_such_a_bit: { style < 16 },
}

impl fmt::Display for Offer<'_> {
    ghost output = { λ it. Some (offer_bytes it.menu it.style it.name.now) };

    fn fmt<W: fmt::Write>(&self, f: &mut fmt::Formatter<W>) -> fmt::Result {
        let name = self.name;
        if (self.menu >> self.style) % 2 == 1 {
            write!(f, " {name}")?;
        }
        Ok(())
    }
}

// The styles that a menu offers. They are written out as the definition has them: with a `for` over the names, which was
// tried, the check does not find the proof.
#[derive(Clone, Copy)]
pub struct Menu {
    pub offers: u16,
}

impl fmt::Display for Menu {
    ghost output = { λ it. Some (menu_bytes it.offers) };

    fn fmt<W: fmt::Write>(&self, f: &mut fmt::Formatter<W>) -> fmt::Result {
        let menu = self.offers;
        let head = Offer {
            menu,
            style: 0,
            name: STYLES[0],
        };
        let body = Offer {
            menu,
            style: 1,
            name: STYLES[1],
        };
        let quote = Offer {
            menu,
            style: 2,
            name: STYLES[2],
        };
        write!(f, "  may follow:{head}{body}{quote}")
    }
}
