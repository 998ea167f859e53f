// Why a call on a galley was refused.
ghost use Rattle.galley.specs.Texts.{reason_bytes};
ghost use Rattle.std.specs.Prelude.{Some};

use std::fmt;

// A place that refuses a style, what it shows and what it wants.
#[derive(Clone, Copy, Debug, PartialEq, Eq)]
pub struct Refusing {
    pub place: usize,
    pub shown: u8,
    pub wanted: u8,
}

#[derive(Clone, Copy, Debug, PartialEq, Eq)]
pub enum SetRefusal {
    // The style is not below the style count.
    UnknownStyle,
    PlaceRefuses(Refusing),
}

impl fmt::Display for SetRefusal {
    ghost output = { λ refusal. Some (reason_bytes refusal) };

    fn fmt<W: fmt::Write>(&self, f: &mut fmt::Formatter<W>) -> fmt::Result {
        match self {
            SetRefusal::UnknownStyle => f.write_str("not a style of the net"),
            SetRefusal::PlaceRefuses(
                Refusing {
                    place,
                    shown,
                    wanted,
                },
            ) => { write!(f, "place {place} shows {shown} and wants {wanted}") }
        }
    }
}

#[derive(Clone, Copy, Debug, PartialEq, Eq)]
pub enum TryRefusal {
    // The length of the run, which is over 4,096.
    RunTooLong(usize),
    // The first step whose style is not below the style count.
    UnknownStyle(usize),
}
