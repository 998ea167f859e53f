use crate::nets::one_place;
use example::nets::sample_net;
use galley::galleys::Galley;
use galley::galleys::refusals::{Refusing, SetRefusal, TryRefusal};
use net::cells::Cell;
use std::test::Fail;
use wheel::four::Four;
use wheel::three::Three;
use wheel::turning::Wheel;

#[test]
fn four_accepts_once(rt: HostRuntime) -> Result<(), Fail> {
    let net = one_place(
        rt.alloc(),
        Four::from_digit(2),
        &[Cell::from_digits(Some(2), 2)],
    )?;
    let mut galley = Galley::stand(rt.alloc(), &net)?;
    assert_eq!(rt; galley.set(0), Ok(()));
    assert_eq!(rt; galley.may(), 0);
    let refusing = Refusing {
        place: 0,
        shown: 0,
        wanted: 2,
    };
    assert_eq!(rt; galley.set(0), Err(SetRefusal::PlaceRefuses(refusing)));
    Ok(())
}

#[test]
fn three_turns_round(rt: HostRuntime) -> Result<(), Fail> {
    let net = one_place(
        rt.alloc(),
        Three::from_digit(1),
        &[Cell::from_digits(Some(1), 2)],
    )?;
    let mut galley = Galley::stand(rt.alloc(), &net)?;
    assert_eq!(rt; galley.set(0), Ok(()));
    let refusing = Refusing {
        place: 0,
        shown: 0,
        wanted: 1,
    };
    assert_eq!(rt; galley.set(0), Err(SetRefusal::PlaceRefuses(refusing)));
    Ok(())
}

#[test]
fn tries_two_of_three(rt: HostRuntime) -> Result<(), Fail> {
    let net = sample_net(rt.alloc())?;
    let mut galley = Galley::stand(rt.alloc(), &net)?;
    assert_eq!(rt; galley.may(), 1);
    assert_eq!(rt; galley.try_run(&[0, 1, 1])?, 2);
    assert_eq!(rt; galley.try_run(&[])?, 0);
    assert_eq!(rt; galley.may(), 1);
    assert_eq!(rt; galley.set(0), Ok(()));
    assert_eq!(rt; galley.may(), 2);
    assert_eq!(rt; galley.try_run(&[1, 0, 1])?, 3);
    Ok(())
}

#[test]
fn refuses_what_is_no_style(rt: HostRuntime) -> Result<(), Fail> {
    let net = sample_net(rt.alloc())?;
    let mut galley = Galley::stand(rt.alloc(), &net)?;
    assert_eq!(rt; galley.set(3), Err(SetRefusal::UnknownStyle));
    assert_eq!(rt; galley.set(255), Err(SetRefusal::UnknownStyle));
    assert_eq!(rt;
        galley.try_run(&[0, 1, 3, 9]),
        Err(TryRefusal::UnknownStyle(2))
    );
    let long = vec![in rt.alloc(); 9u8; 4097]?;
    assert_eq!(rt;
        galley.try_run(long.as_slice()),
        Err(TryRefusal::RunTooLong(4097))
    );
    let whole = vec![in rt.alloc(); 1u8; 4096]?;
    assert_eq!(rt; galley.try_run(whole.as_slice())?, 0);
    Ok(())
}
