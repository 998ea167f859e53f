use net::arcs::Arc;
use net::cells::Cell;
use net::nets::Net;
use net::nets::errors::{NetError, PlaceError};
use std::alloc::Global;
use std::test::Fail;
use wheel::turning::Wheel;
use wheel::two::Two;

fn idle(heap: Global, styles: usize, places: usize) -> Result<Net<Two>, NetError> {
    Net::idle(heap, styles, places)
}

#[test]
fn blank_has_one_style(rt: HostRuntime) {
    let net: Net<Two> = Net::blank(rt.alloc());
    assert_eq!(rt; net.styles(), 1);
    assert_eq!(rt; net.places(), 0);
    assert!(rt; net.start(0).is_none() && net.cell(0, 0).is_none());
}

#[test]
fn limits_are_kept(rt: HostRuntime) -> Result<(), Fail> {
    let heap = rt.alloc();
    assert_eq!(rt; idle(heap, 0, 0).err(), Some(NetError::StyleCount(0)));
    assert_eq!(rt; idle(heap, 17, 0).err(), Some(NetError::StyleCount(17)));
    assert_eq!(rt; idle(heap, 16, 257).err(), Some(NetError::PlaceCount(257)));
    let mut net = idle(heap, 16, 256)?;
    assert_eq!(rt; net.places(), 256);
    let zero = Two::from_digit(0);
    assert_eq!(rt;
        net.put_place(256, zero, &[Cell::from_digits(None, 0)]),
        Err(PlaceError::NoSuchPlace)
    );
    assert_eq!(rt;
        net.put_place(255, zero, &[Cell::from_digits(None, 0)]),
        Err(PlaceError::CellCount)
    );
    Ok(())
}

#[test]
fn cells_are_the_six_arcs(rt: HostRuntime) {
    let none: Cell<Two> = Cell::from_digits(None, 0);
    assert_eq!(rt; none.arc(), Arc::NoArc);
    assert_eq!(rt; Cell::from_digits(Some(0), 0).arc(), Arc::TestZero);
    assert_eq!(rt; Cell::from_digits(Some(1), 0).arc(), Arc::TestOne);
    assert_eq!(rt; Cell::from_digits(None, 1).arc(), Arc::Complement);
    assert_eq!(rt; Cell::from_digits(Some(0), 1).arc(), Arc::Fill);
    assert_eq!(rt; Cell::from_digits(Some(1), 1).arc(), Arc::Empty);
}
