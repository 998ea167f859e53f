// The example: a net of the styles head, body and quote on the wheel of two.
ghost use Rattle.std.specs.Prelude.{◌≡◌, IfOk};
ghost use Rattle.net.specs.Views.{view};
ghost use Rattle.example.specs.Sample.{sample};
ghost use Rattle.example.specs.declared.nets.SampleError.TheVariants.{Making, Putting};
ghost use Rattle.wheel.specs.contracts.two.TwoWheel.TheImpl.{ghosts as of_two};

use net::cells::Cell;
use net::nets::Net;
use net::nets::errors::{NetError, PlaceError};
use std::alloc::Global;
use wheel::turning::Wheel;
use wheel::two::Two;

#[derive(Clone, Copy, Debug, PartialEq, Eq)]
pub enum SampleError {
    Making(NetError),
    Putting(PlaceError),
}

impl From<NetError> for SampleError {
    ghost from_gives = { λ e r. r ≡ Making e };

    fn from(e: NetError) -> SampleError {
        SampleError::Making(e)
    }
}

impl From<PlaceError> for SampleError {
    ghost from_gives = { λ e r. r ≡ Putting e };

    fn from(e: PlaceError) -> SampleError {
        SampleError::Putting(e)
    }
}

pub fn sample_net(heap: Global) -> Result<Net<Two>, SampleError>
    ensures is_the_sample { IfOk result (λ n. view of_two n ≡ sample) }
{
    let zero = Two::from_digit(0);
    let mut net = Net::idle(heap, 3, 3)?;
    net.put_place(
        0,
        zero,
        &[
            Cell::from_digits(Some(0), 1),
            Cell::from_digits(Some(1), 1),
            Cell::from_digits(None, 0),
        ],
    )?;
    net.put_place(
        1,
        zero,
        &[
            Cell::from_digits(Some(0), 0),
            Cell::from_digits(Some(0), 0),
            Cell::from_digits(None, 1),
        ],
    )?;
    net.put_place(
        2,
        zero,
        &[
            Cell::from_digits(None, 0),
            Cell::from_digits(None, 0),
            Cell::from_digits(Some(1), 0),
        ],
    )?;
    Ok(net)
}
