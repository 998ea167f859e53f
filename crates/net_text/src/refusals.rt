// Why a net was not copied by its text.
ghost use Rattle.net_text.specs.declared.refusals.CopyRefusal.TheVariants.{Write, Read};
ghost use Rattle.std.specs.Prelude.{◌≡◌};

use lines::faults::TextFault;
use net_writing::refusals::WriteRefusal;

#[derive(Clone, Copy, Debug, PartialEq, Eq)]
pub enum CopyRefusal {
    Write(WriteRefusal),
    Read(TextFault),
}

impl From<WriteRefusal> for CopyRefusal {
    ghost from_gives = { λ refusal r. r ≡ Write refusal };

    fn from(refusal: WriteRefusal) -> CopyRefusal {
        CopyRefusal::Write(refusal)
    }
}

impl From<TextFault> for CopyRefusal {
    ghost from_gives = { λ fault r. r ≡ Read fault };

    fn from(fault: TextFault) -> CopyRefusal {
        CopyRefusal::Read(fault)
    }
}
