// Nets to test with.
use net::cells::Cell;
use net::nets::Net;
use std::alloc::Global;
use std::test::Fail;
use wheel::turning::Wheel;

// One style and one place.
pub(crate) fn one_place<W: Wheel>(
    heap: Global,
    start: W,
    cells: &[Cell<W>],
) -> Result<Net<W>, Fail> {
    let mut net = Net::idle(heap, 1, 1)?;
    net.put_place(0, start, cells)?;
    Ok(net)
}
