use crate::vectors::{ON_FOUR, ON_THREE, ON_TWO};
use lines::faults::{LineFault, TextFault};
use net::nets::Net;
use net_reading::reading::read;
use net_writing::refusals::WriteRefusal;
use net_writing::writing::write;
use sheet::sheets::Sheet;
use std::alloc::Global;
use std::process::Abort;
use std::test::Fail;
use wheel::four::Four;
use wheel::three::Three;
use wheel::turning::Wheel;
use wheel::two::Two;

// The example: three styles and three places.
const EXAMPLE: &[u8] =
    b"net=1\nwheel=2\nstyles=3\nstyle=head\nstyle=body\nstyle=quote\nplaces=3\nplace=0 01 11 .0\nplace=0 00 00 .1\nplace=0 .0 .0 10\nend=net\n";

#[test]
fn the_example_is_read_and_written_again(rt: HostRuntime) -> Result<(), Fail> {
    let mut net: Net<Two> = Net::blank(rt.alloc());
    let mut sheet = Sheet::blank();
    assert_eq!(rt; read(rt.alloc(), EXAMPLE, &mut net, &mut sheet), Ok(()));
    assert_eq!(rt; net.styles(), 3);
    assert_eq!(rt; net.places(), 3);
    assert!(rt; sheet.name(2) == Some(b"quote".as_slice()));
    let mut buffer = [7; 200];
    assert_eq!(rt; write(&net, &sheet, &mut buffer), Ok(EXAMPLE.len()));
    assert!(rt; buffer.starts_with(EXAMPLE));
    assert_eq!(rt; buffer[EXAMPLE.len()], 7);
    assert_eq!(rt; buffer[199], 7);
    Ok(())
}

// Reads each text into a blank net and sheet on the wheel, and writes again what is read.
fn answers<W: Wheel>(
    rt: &impl Abort,
    heap: Global,
    texts: &[(&[u8], Result<(), TextFault>)],
) -> Result<(), Fail> {
    for (text, answer) in texts {
        let mut net: Net<W> = Net::blank(heap);
        let mut sheet = Sheet::blank();
        assert_eq!(rt; read(heap, text, &mut net, &mut sheet), *answer);
        if answer.is_ok() {
            let mut buffer = [7; 800];
            assert_eq!(rt; write(&net, &sheet, &mut buffer), Ok(text.len()));
            assert!(rt; buffer.starts_with(text));
        } else {
            assert_eq!(rt; net.styles(), 1);
            assert_eq!(rt; net.places(), 0);
            assert_eq!(rt; sheet.count(), 0);
        }
    }
    Ok(())
}

#[test]
fn texts_on_the_wheel_of_two(rt: HostRuntime) -> Result<(), Fail> {
    answers::<Two>(&rt, rt.alloc(), &ON_TWO)
}

#[test]
fn texts_on_the_wheel_of_three(rt: HostRuntime) -> Result<(), Fail> {
    answers::<Three>(&rt, rt.alloc(), &ON_THREE)
}

#[test]
fn texts_on_the_wheel_of_four(rt: HostRuntime) -> Result<(), Fail> {
    answers::<Four>(&rt, rt.alloc(), &ON_FOUR)
}

#[test]
fn long_texts_are_told_by_their_length(rt: HostRuntime) -> Result<(), Fail> {
    let mut net: Net<Two> = Net::blank(rt.alloc());
    let mut sheet = Sheet::blank();
    let mut text = vec![in rt.alloc(); b'n'; 65536]?;
    assert_eq!(rt;
        read(rt.alloc(), &text, &mut net, &mut sheet),
        Err(TextFault::Line(LineFault::form(1)))
    );
    text.push(b'n')?;
    assert_eq!(rt;
        read(rt.alloc(), &text, &mut net, &mut sheet),
        Err(TextFault::TooLong(65537))
    );
    Ok(())
}

#[test]
fn what_cannot_be_written_is_refused(rt: HostRuntime) {
    let net: Net<Two> = Net::blank(rt.alloc());
    let mut sheet = Sheet::blank();
    let mut buffer = [7; 42];
    assert_eq!(rt;
        write(&net, &sheet, &mut buffer),
        Err(WriteRefusal::StyleCounts { sheet: 0, net: 1 })
    );
    assert_eq!(rt; sheet.add(b"a"), Ok(()));
    assert_eq!(rt;
        write(&net, &sheet, &mut buffer[..41]),
        Err(WriteRefusal::BufferTooShort(48))
    );
    assert!(rt; buffer == [7; 42]);
}
