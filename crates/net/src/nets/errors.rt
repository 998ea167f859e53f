// Why a net was not made, or a place not put.
ghost use Rattle.net.specs.declared.nets.errors.NetError.TheVariants.{OutOfMemory};
ghost use Rattle.std.specs.Prelude.{◌≡◌};

use std::alloc::AllocError;

#[derive(Clone, Copy, Debug, PartialEq, Eq)]
pub enum NetError {
    // The number of styles, which is not 1 to 16.
    StyleCount(usize),
    // The number of places, which is over 256.
    PlaceCount(usize),
    OutOfMemory,
}

impl From<AllocError> for NetError {
    ghost from_gives = { λ _ r. r ≡ OutOfMemory };

    fn from(_e: AllocError) -> NetError {
        NetError::OutOfMemory
    }
}

#[derive(Clone, Copy, Debug, PartialEq, Eq)]
pub enum PlaceError {
    // The net has no place of that number.
    NoSuchPlace,
    // Not one cell for each style.
    CellCount,
}
