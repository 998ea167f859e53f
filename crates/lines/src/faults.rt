// What can be wrong with a text.
ghost use Rattle.lines.specs.declared.faults.Cause.TheVariants.{Form, Name};
ghost use Rattle.lines.specs.declared.faults.TextFault.TheVariants.{Line, OutOfMemory};
ghost use Rattle.std.specs.Prelude.{◌≡◌};

use std::alloc::AllocError;

// What is wrong with a line.
#[derive(Clone, Copy, Debug, PartialEq, Eq)]
pub enum Cause {
    // Not of its form, missing or extra.
    Form,
    // A name that is repeated or unknown, and its byte in the line.
    Name { byte: u32 },
}

// The first line that is out of order. Lines count from 1.
#[derive(Clone, Copy, Debug, PartialEq, Eq)]
pub struct LineFault {
    pub line: u32,
    pub cause: Cause,
}

#[derive(Clone, Copy, Debug, PartialEq, Eq)]
pub enum TextFault {
    Line(LineFault),
    // The number of bytes, which is more than a text may have.
    TooLong(usize),
    // The order of the wheel, which is not the one wanted.
    OtherWheel(u8),
    OutOfMemory,
}

impl From<LineFault> for TextFault {
    ghost from_gives = { λ fault r. r ≡ Line fault };

    fn from(fault: LineFault) -> TextFault {
        TextFault::Line(fault)
    }
}

impl From<AllocError> for TextFault {
    ghost from_gives = { λ _ r. r ≡ OutOfMemory };

    fn from(_e: AllocError) -> TextFault {
        TextFault::OutOfMemory
    }
}

impl LineFault {
    // A line that is not of its form, missing or extra.
    pub fn form(line: u32) -> LineFault
        ensures is_a_fault_of_form { result ≡ record { line = line; cause = Form } }
    {
        LineFault {
            line,
            cause: Cause::Form,
        }
    }

    // A line whose name at this byte is repeated or unknown.
    pub fn name(line: u32, byte: u32) -> LineFault
        ensures is_a_fault_of_a_name { result ≡ record { line = line; cause = Name byte } }
    {
        LineFault {
            line,
            cause: Cause::Name { byte },
        }
    }
}
