// Net texts, and what Read answers on a net of each wheel. A program that shares no code with the engine gave the answers.
use lines::faults::{Cause, LineFault, TextFault};

// On the wheel of two.
pub(crate) const ON_TWO: [(&[u8], Result<(), TextFault>); 103] = [
    (
        b"net=1\nwheel=2\nstyles=2\nstyle=a\nstyle=b\nplaces=2\nplace=0 01 11\nplace=1 .1 .0\nend=net\n ",
        Err(TextFault::Line(LineFault {
            line: 10,
            cause: Cause::Form,
        })),
    ),
    (
        b"net=1\nwheel=2\nstyles=2\nstyle=a\nstyle=b\nplaces=2\nplace=0 01 11\nplace=1 .1 .0\nend=net\nx\n",
        Err(TextFault::Line(LineFault {
            line: 10,
            cause: Cause::Form,
        })),
    ),
    (
        b"net=1\nwheel=2\nstyles=2\nstyle=a\nstyle=b\nplaces=2\nplace=0 01 11\nplace=1 .1 .0\nend=net\n\0",
        Err(TextFault::Line(LineFault {
            line: 10,
            cause: Cause::Form,
        })),
    ),
    (
        b"net=1\nwheel=2\nstyles=2\nstyle=a\nstyle=b\nplaces=2\nplace=0 01 11\nplace=1 .1 .0\nend=net\nplace=0 01 11\n",
        Err(TextFault::Line(LineFault {
            line: 10,
            cause: Cause::Form,
        })),
    ),
    (
        b"net=1\n\nstyles=2\nstyle=a\nstyle=b\nplaces=2\nplace=0 01 11\nplace=1 .1 .0\nend=net\n",
        Err(TextFault::Line(LineFault {
            line: 2,
            cause: Cause::Form,
        })),
    ),
    (
        b"net=1\nwheel=2\nstyles=2\nstyle=a\n\nplaces=2\nplace=0 01 11\nplace=1 .1 .0\nend=net\n",
        Err(TextFault::Line(LineFault {
            line: 5,
            cause: Cause::Form,
        })),
    ),
    (
        b"net=1\nwheel=2\nstyles=2\nstyle=a\nstyle=b\n\nplace=0 01 11\nplace=1 .1 .0\nend=net\n",
        Err(TextFault::Line(LineFault {
            line: 6,
            cause: Cause::Form,
        })),
    ),
    (
        b"net=1\nwheel=2\nstyles=2\nstyle=a\nstyle=b\nplaces=2\nplace=0 01 11\nplace=1 .1 .0\n\n",
        Err(TextFault::Line(LineFault {
            line: 9,
            cause: Cause::Form,
        })),
    ),
    (
        b"net=1\r\nwheel=2\nstyles=2\nstyle=a\nstyle=b\nplaces=2\nplace=0 01 11\nplace=1 .1 .0\nend=net\n",
        Err(TextFault::Line(LineFault {
            line: 1,
            cause: Cause::Form,
        })),
    ),
    (
        b"net=1\nwheel=2\r\nstyles=2\nstyle=a\nstyle=b\nplaces=2\nplace=0 01 11\nplace=1 .1 .0\nend=net\n",
        Err(TextFault::Line(LineFault {
            line: 2,
            cause: Cause::Form,
        })),
    ),
    (
        b"net=1\nwheel=2\nstyles=2\r\nstyle=a\nstyle=b\nplaces=2\nplace=0 01 11\nplace=1 .1 .0\nend=net\n",
        Err(TextFault::Line(LineFault {
            line: 3,
            cause: Cause::Form,
        })),
    ),
    (
        b"net=1\nwheel=2\nstyles=2\nstyle=a\nstyle=b\r\nplaces=2\nplace=0 01 11\nplace=1 .1 .0\nend=net\n",
        Err(TextFault::Line(LineFault {
            line: 5,
            cause: Cause::Form,
        })),
    ),
    (
        b"net=1\nwheel=2\nstyles=2\nstyle=a\nstyle=b\nplaces=2\r\nplace=0 01 11\nplace=1 .1 .0\nend=net\n",
        Err(TextFault::Line(LineFault {
            line: 6,
            cause: Cause::Form,
        })),
    ),
    (
        b"net=1",
        Err(TextFault::Line(LineFault {
            line: 1,
            cause: Cause::Form,
        })),
    ),
    (
        b"net=1\nwheel=2\n",
        Err(TextFault::Line(LineFault {
            line: 3,
            cause: Cause::Form,
        })),
    ),
    (
        b"net=1\nwheel=2",
        Err(TextFault::Line(LineFault {
            line: 2,
            cause: Cause::Form,
        })),
    ),
    (
        b"net=1\nwheel=2\nstyles=2\n",
        Err(TextFault::Line(LineFault {
            line: 4,
            cause: Cause::Form,
        })),
    ),
    (
        b"net=1\nwheel=2\nstyles=2\nstyle=a",
        Err(TextFault::Line(LineFault {
            line: 4,
            cause: Cause::Form,
        })),
    ),
    (
        b"net=1\nwheel=2\nstyles=2\nstyle=a\nstyle=b\nplaces=2\n",
        Err(TextFault::Line(LineFault {
            line: 7,
            cause: Cause::Form,
        })),
    ),
    (
        b"net=1\nwheel=2\nstyles=2\nstyle=a\nstyle=b\nplaces=2\nplace=0 01 11\n",
        Err(TextFault::Line(LineFault {
            line: 8,
            cause: Cause::Form,
        })),
    ),
    (
        b"net=1\nwheel=2\nstyles=2\nstyle=a\nstyle=b\nplaces=2\nplace=0 01 11",
        Err(TextFault::Line(LineFault {
            line: 7,
            cause: Cause::Form,
        })),
    ),
    (
        b"net=1\nwheel=2\nstyles=2\nstyle=a\nstyle=b\nplaces=2\nplace=0 01 11\nplace=1 .1 .0\nend=net\n",
        Ok(()),
    ),
    (
        b"net=1\nwheel=2\nstyles=2\nstyle=a\nstyle=b\nplaces=2\nplace=0 01 11\nplace=1 .1 .0\nend=net",
        Err(TextFault::Line(LineFault {
            line: 9,
            cause: Cause::Form,
        })),
    ),
    (
        b"net=1\n",
        Err(TextFault::Line(LineFault {
            line: 2,
            cause: Cause::Form,
        })),
    ),
    (
        b"net=1\nwheel=2\nstyles=5\nEND=NET\nstyle=aa\nstyle=aaa\nstyle=aaaa\nstyle=aaaaa\nplaces=3\nplace=0 11 11 00 10 01\nplace=0 11 .1 01 00 .1\nplace=0 01 11 00 01 10\nstyle=a\n",
        Err(TextFault::Line(LineFault {
            line: 4,
            cause: Cause::Form,
        })),
    ),
    (
        b"\net=1\nwheel\r2\nstyles=3\nstyle=a\nstyle=b\nstyle=c\nplaces=1\nplace=1 .0 11 10\nend=net\n",
        Err(TextFault::Line(LineFault {
            line: 1,
            cause: Cause::Form,
        })),
    ),
    (
        b"net=1\r\nwheel=2\r\nstyles=15\r\nstyle=style-0\r\nstyle=style-1\r\nstyle=style-2\r\nstyle=style-3\r\nstyle=style-4\r\nstyle=style-5\r\nstyle=style-6\r\nstyle=style-7\r\nstyle=style-8\r\nstyle=style-9\r\nstyle=style-10\r\nstyle=style-11\r\nstyle=style-12\r\nstyle=style-13\r\nstyle=style-14\r\nplaces=1\r\nplace=1 11 10 01 01 10 01 10 00 10 11 01 10 10 10 00\r\nend=net\r\n",
        Err(TextFault::Line(LineFault {
            line: 1,
            cause: Cause::Form,
        })),
    ),
    (
        b"net=1 \nwheel=2\nst\nyles=5\nstyle=a00a\nstyle=a-0a\nstyle=-00a-0aa\nstyle=0a0a0aa\nstyle=a\nplaces=0\nend=net\n",
        Err(TextFault::Line(LineFault {
            line: 1,
            cause: Cause::Form,
        })),
    ),
    (
        b"net=1\nwheel=2\nstyles=5\nstyle=tostnxykv4c5\nstyle=wiklx-b7vaf8\nstyle=2-au16wqiqro\nstyle=l97wg2u-q7k3\nstyle=f3dmlt35jf81\nplaces=2\nplace=0 00 .0 .1 .1 .1\nplace=\nend=net\n",
        Err(TextFault::Line(LineFault {
            line: 11,
            cause: Cause::Form,
        })),
    ),
    (
        b"net=1\nwheel=2\nstyles=2\nstyle=a\nstyle=aa\nplaces=\nend=net\n",
        Err(TextFault::Line(LineFault {
            line: 6,
            cause: Cause::Form,
        })),
    ),
    (
        b"net=1\nwheel=2\nstyles=5\nstyle=ymabyyx-ikp6\nstyle=9gj01v1asnbw\nstyle=cfo7zyu8raq7\nstyle=4bbjhua8vw5d\nstyle=6de329oyfp4c\nplaces=600\nplace=1 11 10 01 00 11\nEND=NET\n",
        Err(TextFault::Line(LineFault {
            line: 9,
            cause: Cause::Form,
        })),
    ),
    (
        b"net=1\nwheel=2\nstyles=16\nstyle=a\nstyle=b\nstyle=c\nstyle=d\nstyle=e\nstyle=f\nstyle=g\nstyle=h\nstyle=i\nstyle=j\nst\rle=k\nstyle=l\nstyle=m\nstyle=n\nstyle=o\nstyle=p\nplaces=3\nplace=0 01 00 10 10 00 11 01 10 00 10 11 01 11 00 01 10\nplace=0 .0 .0 .0 .1 01 .1 .1 11 .0 10 .1 .0 .0 .0 .1\nplace=0 00 01 00 11 11 01 00 .1 01 00 11 11 .0 00 11 10\nend=net\n",
        Err(TextFault::Line(LineFault {
            line: 14,
            cause: Cause::Form,
        })),
    ),
    (
        b"net=1\nwheel=2\nstyles=2\nstyle=a\nstyle=b\nplaces=1\nplace=2 00 00\nend=net\n",
        Err(TextFault::Line(LineFault {
            line: 7,
            cause: Cause::Form,
        })),
    ),
    (
        b"net=1\nwheel=2\nstyles=2\nstyle=a\nstyle=b\nplaces=1\nplace=0 02 00\nend=net\n",
        Err(TextFault::Line(LineFault {
            line: 7,
            cause: Cause::Form,
        })),
    ),
    (
        b"net=1\nwheel=2\nstyles=2\nstyle=a\nstyle=b\nplaces=1\nplace=0 00 20\nend=net\n",
        Err(TextFault::Line(LineFault {
            line: 7,
            cause: Cause::Form,
        })),
    ),
    (
        b"net=1\nwheel=2\nstyles=2\nstyle=a\nstyle=b\nplaces=2\nplace=0 01 11\nplace=0 01 11\nend=net\n",
        Ok(()),
    ),
    (
        b"net=2\nwheel=2\nstyles=2\nstyle=a\nstyle=b\nplaces=2\nplace=0 01 11\nplace=1 .1 .0\nend=net\n",
        Err(TextFault::Line(LineFault {
            line: 1,
            cause: Cause::Form,
        })),
    ),
    (
        b"net=01\nwheel=2\nstyles=2\nstyle=a\nstyle=b\nplaces=2\nplace=0 01 11\nplace=1 .1 .0\nend=net\n",
        Err(TextFault::Line(LineFault {
            line: 1,
            cause: Cause::Form,
        })),
    ),
    (
        b"case=1\nwheel=2\nstyles=2\nstyle=a\nstyle=b\nplaces=2\nplace=0 01 11\nplace=1 .1 .0\nend=net\n",
        Err(TextFault::Line(LineFault {
            line: 1,
            cause: Cause::Form,
        })),
    ),
    (
        b"net=\nwheel=2\nstyles=2\nstyle=a\nstyle=b\nplaces=2\nplace=0 01 11\nplace=1 .1 .0\nend=net\n",
        Err(TextFault::Line(LineFault {
            line: 1,
            cause: Cause::Form,
        })),
    ),
    (
        b"NET=1\nwheel=2\nstyles=2\nstyle=a\nstyle=b\nplaces=2\nplace=0 01 11\nplace=1 .1 .0\nend=net\n",
        Err(TextFault::Line(LineFault {
            line: 1,
            cause: Cause::Form,
        })),
    ),
    (
        b"net=1 \nwheel=2\nstyles=2\nstyle=a\nstyle=b\nplaces=2\nplace=0 01 11\nplace=1 .1 .0\nend=net\n",
        Err(TextFault::Line(LineFault {
            line: 1,
            cause: Cause::Form,
        })),
    ),
    (
        b"chart=1\nwheel=2\nstyles=2\nstyle=a\nstyle=b\nplaces=2\nplace=0 01 11\nplace=1 .1 .0\nend=net\n",
        Err(TextFault::Line(LineFault {
            line: 1,
            cause: Cause::Form,
        })),
    ),
    (
        b"net=1\nwheel=2\nstyles=2\nstyle=a\nstyle=b\nplaces=2\nplace=0 .0 .2\nplace=0 .0 .0\nend=net\n",
        Err(TextFault::Line(LineFault {
            line: 7,
            cause: Cause::Form,
        })),
    ),
    (
        b"net=1\nwheel=2\nstyles=2\nstyle=a\nstyle=b\nplaces=2\nplace=0 .0 .0\nplace=1 01 .0\nend=net\n",
        Ok(()),
    ),
    (
        b"net=1\nwheel=2\nstyles=2\nstyle=a\nstyle=b\nplaces=2\nplace=0 .0 .0\nplace=0 .0 .2\nend=net\n",
        Err(TextFault::Line(LineFault {
            line: 8,
            cause: Cause::Form,
        })),
    ),
    (
        b"net=1\nwheel=2\nstyles=2\nstyle=a\nstyle=b\nplaces=1\nplace=0 .0 .0\nend=net\nx",
        Err(TextFault::Line(LineFault {
            line: 9,
            cause: Cause::Form,
        })),
    ),
    (
        b"net=1\nwheel=2\nstyles=2\nstyle=a\nstyle=b\nplaces=2\nplace=0 01 11\nplace=1 .1 .0\nend=net\n",
        Ok(()),
    ),
    (
        b"net=1\nwheel=2\nstyles=2\nstyle=a\0\nstyle=b\nplaces=2\nplace=0 01 11\nplace=1 .1 .0\nend=net\n",
        Err(TextFault::Line(LineFault {
            line: 4,
            cause: Cause::Form,
        })),
    ),
    (
        b"net=1\nwheel=2\nstyles=2\nstyle=a\nstyle=b\nplaces=2\0\nplace=0 01 11\nplace=1 .1 .0\nend=net\n",
        Err(TextFault::Line(LineFault {
            line: 6,
            cause: Cause::Form,
        })),
    ),
    (
        b"net=1\nwheel=2\nstyles=2\nstyle=a\nstyle=b\nplaces=2\nplace=0 01 11\nplace=1 .1 .0\0\nend=net\n",
        Err(TextFault::Line(LineFault {
            line: 8,
            cause: Cause::Form,
        })),
    ),
    (
        b"net=1\nwheel=3\nstyles=1\nstyle=a\nplaces=1\nplace=0 00\nend=net\n",
        Err(TextFault::OtherWheel(3)),
    ),
    (
        b"net=1\nwheel=2\nstyles=2\nstyle=a\nstyle=b\nplaces=2\nplace=\nplace=1 .1 .0\nend=net\n",
        Err(TextFault::Line(LineFault {
            line: 7,
            cause: Cause::Form,
        })),
    ),
    (
        b"net=1\nwheel=2\nstyles=2\nstyle=a\nstyle=b\nplaces=2\nplace=0\nplace=1 .1 .0\nend=net\n",
        Err(TextFault::Line(LineFault {
            line: 7,
            cause: Cause::Form,
        })),
    ),
    (
        b"net=1\nwheel=2\nstyles=2\nstyle=a\nstyle=b\nplaces=2\nplace=0 .. 11\nplace=1 .1 .0\nend=net\n",
        Err(TextFault::Line(LineFault {
            line: 7,
            cause: Cause::Form,
        })),
    ),
    (
        b"net=1\nwheel=2\nstyles=2\nstyle=a\nstyle=b\nplaces=2\nplace=0 01 1\nplace=1 .1 .0\nend=net\n",
        Err(TextFault::Line(LineFault {
            line: 7,
            cause: Cause::Form,
        })),
    ),
    (
        b"net=1\nwheel=2\nstyles=2\nstyle=a\nstyle=b\nplaces=2\nplace=0 01 111\nplace=1 .1 .0\nend=net\n",
        Err(TextFault::Line(LineFault {
            line: 7,
            cause: Cause::Form,
        })),
    ),
    (
        b"net=1\nwheel=2\nstyles=2\nstyle=a\nstyle=b\nplaces=2\nplace=0 0 1 11\nplace=1 .1 .0\nend=net\n",
        Err(TextFault::Line(LineFault {
            line: 7,
            cause: Cause::Form,
        })),
    ),
    (
        b"net=1\nwheel=2\nstyles=2\nstyle=a\nstyle=b\nplaces=2\nplace=2 01 11\nplace=1 .1 .0\nend=net\n",
        Err(TextFault::Line(LineFault {
            line: 7,
            cause: Cause::Form,
        })),
    ),
    (
        b"net=1\nwheel=2\nstyles=2\nstyle=a\nstyle=b\nplaces=2\nplace=0 02 11\nplace=1 .1 .0\nend=net\n",
        Err(TextFault::Line(LineFault {
            line: 7,
            cause: Cause::Form,
        })),
    ),
    (
        b"net=1\nwheel=2\nstyles=2\nstyle=a\nstyle=b\nplaces=2\nplace=0 01 .2\nplace=1 .1 .0\nend=net\n",
        Err(TextFault::Line(LineFault {
            line: 7,
            cause: Cause::Form,
        })),
    ),
    (
        b"net=1\nwheel=2\nstyles=2\nstyle=a\nstyle=b\nplaces=2\nplace=0,01,11\nplace=1 .1 .0\nend=net\n",
        Err(TextFault::Line(LineFault {
            line: 7,
            cause: Cause::Form,
        })),
    ),
    (
        b"net=1\nwheel=2\nstyles=2\nstyle=a\nstyle=b\nplaces=2\nPlace=0 01 11\nplace=1 .1 .0\nend=net\n",
        Err(TextFault::Line(LineFault {
            line: 7,
            cause: Cause::Form,
        })),
    ),
    (
        b"net=1\nwheel=2\nstyles=2\nstyle=a\nstyle=b\nplaces=2\nend=net\nplace=1 .1 .0\nend=net\n",
        Err(TextFault::Line(LineFault {
            line: 7,
            cause: Cause::Form,
        })),
    ),
    (
        b"net=1\nwheel=2\nstyles=2\nstyle=a\nstyle=b\nplaces=2\nplace= 0 01 11\nplace=1 .1 .0\nend=net\n",
        Err(TextFault::Line(LineFault {
            line: 7,
            cause: Cause::Form,
        })),
    ),
    (
        b"net=1\nwheel=2\nstyles=2\nstyle=a\nstyle=b\nplaces=2\nplace=0 01 11 \nplace=1 .1 .0\nend=net\n",
        Err(TextFault::Line(LineFault {
            line: 7,
            cause: Cause::Form,
        })),
    ),
    (
        b"net=1\nwheel=2\nstyles=2\nstyle=a\nstyle=b\nplaces=2\nplace=00 01 11\nplace=1 .1 .0\nend=net\n",
        Err(TextFault::Line(LineFault {
            line: 7,
            cause: Cause::Form,
        })),
    ),
    (
        b"net=1\nwheel=2\nstyles=2\nstyle=a\nstyle=b\nplaces=0\nplace=0 01 11\nplace=1 .1 .0\nend=net\n",
        Err(TextFault::Line(LineFault {
            line: 7,
            cause: Cause::Form,
        })),
    ),
    (
        b"net=1\nwheel=2\nstyles=2\nstyle=a\nstyle=b\nplaces=1\nplace=0 01 11\nplace=1 .1 .0\nend=net\n",
        Err(TextFault::Line(LineFault {
            line: 8,
            cause: Cause::Form,
        })),
    ),
    (
        b"net=1\nwheel=2\nstyles=2\nstyle=a\nstyle=b\nplaces=577\nplace=0 01 11\nplace=1 .1 .0\nend=net\n",
        Err(TextFault::Line(LineFault {
            line: 6,
            cause: Cause::Form,
        })),
    ),
    (
        b"net=1\nwheel=2\nstyles=2\nstyle=a\nstyle=b\nplaces= 2\nplace=0 01 11\nplace=1 .1 .0\nend=net\n",
        Err(TextFault::Line(LineFault {
            line: 6,
            cause: Cause::Form,
        })),
    ),
    (
        b"net=1\nwheel=2\nstyles=2\nstyle=a\nstyle=b\nplaces=2 \nplace=0 01 11\nplace=1 .1 .0\nend=net\n",
        Err(TextFault::Line(LineFault {
            line: 6,
            cause: Cause::Form,
        })),
    ),
    (
        b"net=1\nwheel=2\nstyles=2\nstyle=a\nstyle=b\nplaces=-1\nplace=0 01 11\nplace=1 .1 .0\nend=net\n",
        Err(TextFault::Line(LineFault {
            line: 6,
            cause: Cause::Form,
        })),
    ),
    (
        b"net=1\nwheel=2\nstyles=2\nstyle=a\nstyle=b\nplaces=999\nplace=0 01 11\nplace=1 .1 .0\nend=net\n",
        Err(TextFault::Line(LineFault {
            line: 6,
            cause: Cause::Form,
        })),
    ),
    (
        b"net=1\nwheel=2\nstyles=2\nstyle=a\nstyle=b\nplaces=01\nplace=0 01 11\nplace=1 .1 .0\nend=net\n",
        Err(TextFault::Line(LineFault {
            line: 6,
            cause: Cause::Form,
        })),
    ),
    (
        b"net=1\nwheel=2\nstyles=2\nstyle=a\nstyle=b\nplaces=576\nplace=0 01 11\nplace=1 .1 .0\nend=net\n",
        Err(TextFault::Line(LineFault {
            line: 6,
            cause: Cause::Form,
        })),
    ),
    (
        b"net=1\nwheel=2\nstyles=3\nstyle=a---0-\nstyle=a0-00aaa0\nstyle=-a\nplaces=1\nplace=0 .0 .0 .0\nend=net\n",
        Ok(()),
    ),
    (
        b"net=1\nwheel=2\nstyles=15\nstyle=xeddortgdzud\nstyle=fh-po1rjqrdj\nstyle=pwx86lohvmwj\nstyle=s6sz9f3wg6-v\nstyle=ok0hvel-wv30\nstyle=6bgkjkm7434j\nstyle=u1643r7qd9fm\nstyle=mg-a3ah1y587\nstyle=1emxbzfh367q\nstyle=sb61vsui0epw\nstyle=dduknj3pnmht\nstyle=k46oxi-gzhtb\nstyle=ial09xa5pu7w\nstyle=hqap5at4uypx\nstyle=upocoom5wnjy\nplaces=1\nplace=0 .1 .0 .1 .0 .0 .1 .0 .1 .1 .1 .0 .1 .0 .1 .0\nend=net\n",
        Ok(()),
    ),
    (
        b"net=1\nwheel=2\nstyles=2\nstyle=a\nstyle=aa\nplaces=10\nplace=1 .0 11\nplace=0 01 00\nplace=0 10 .1\nplace=0 01 .0\nplace=0 .0 .0\nplace=0 .1 .1\nplace=1 10 11\nplace=1 .1 11\nplace=0 01 11\nplace=1 .1 .1\nend=net\n",
        Ok(()),
    ),
    (
        b"net=1\nwheel=2\nstyles=3\nstyle=pigd-1e4iarl\nstyle=jovvja770jn4\nstyle=egd94jxx4c6m\nplaces=0\nend=net\n",
        Ok(()),
    ),
    (
        b"net=1\nwheel=2\nstyles=1\nstyle=a\nplaces=10\nplace=0 .0\nplace=0 .1\nplace=0 00\nplace=1 11\nplace=1 00\nplace=0 01\nplace=1 01\nplace=1 11\nplace=0 10\nplace=1 01\nend=net\n",
        Ok(()),
    ),
    (
        b"net=1\nwheel=2\nstyles=2\nstyle=qqj1uimejgyw\nstyle=c3mlozr7sr12\nplaces=10\nplace=0 01 .0\nplace=0 01 10\nplace=1 00 .1\nplace=0 11 00\nplace=1 .0 .1\nplace=0 00 .0\nplace=1 .1 .0\nplace=0 .1 .0\nplace=1 10 00\nplace=1 01 .0\nend=net\n",
        Ok(()),
    ),
    (
        b"net=1\nwheel=2 \nstyles=2\nstyle=a\nstyle=b\nplaces=2\nplace=0 01 11\nplace=1 .1 .0\nend=net\n",
        Err(TextFault::Line(LineFault {
            line: 2,
            cause: Cause::Form,
        })),
    ),
    (
        b"net=1\nwheel=2\nstyles=2\nstyle=a \nstyle=b\nplaces=2\nplace=0 01 11\nplace=1 .1 .0\nend=net\n",
        Err(TextFault::Line(LineFault {
            line: 4,
            cause: Cause::Form,
        })),
    ),
    (
        b"net=1\nwheel=2\nstyles=2\nstyle=a\nstyle=b\nplaces=2 \nplace=0 01 11\nplace=1 .1 .0\nend=net\n",
        Err(TextFault::Line(LineFault {
            line: 6,
            cause: Cause::Form,
        })),
    ),
    (
        b"net=1\nwheel=2\nstyles=2\nstyle=a\nstyle=b\nplaces=2\nplace=0 01 11 \nplace=1 .1 .0\nend=net\n",
        Err(TextFault::Line(LineFault {
            line: 7,
            cause: Cause::Form,
        })),
    ),
    (
        b"net=1\nwheel=2\nstyles=2\nstyle=a\nstyle=b\nplaces=2\nplace=0 01 11\nplace=1 .1 .0 \nend=net\n",
        Err(TextFault::Line(LineFault {
            line: 8,
            cause: Cause::Form,
        })),
    ),
    (
        b"net=1\nwheel=2\nstyles=2\nstyle=a\nstyle=b\nplaces=2\nplace=0 01 11\nplace=1 .1 .0\nend=net \n",
        Err(TextFault::Line(LineFault {
            line: 9,
            cause: Cause::Form,
        })),
    ),
    (
        b"net=1\nwheel=2\nstyles=0\nstyle=a\nstyle=b\nplaces=2\nplace=0 01 11\nplace=1 .1 .0\nend=net\n",
        Err(TextFault::Line(LineFault {
            line: 3,
            cause: Cause::Form,
        })),
    ),
    (
        b"net=1\nwheel=2\nstyles=3\nstyle=a\nstyle=b\nplaces=2\nplace=0 01 11\nplace=1 .1 .0\nend=net\n",
        Err(TextFault::Line(LineFault {
            line: 6,
            cause: Cause::Form,
        })),
    ),
    (
        b"net=1\nwheel=2\nstyles=02\nstyle=a\nstyle=b\nplaces=2\nplace=0 01 11\nplace=1 .1 .0\nend=net\n",
        Err(TextFault::Line(LineFault {
            line: 3,
            cause: Cause::Form,
        })),
    ),
    (
        b"net=1\nwheel=2\nstyles=\nstyle=a\nstyle=b\nplaces=2\nplace=0 01 11\nplace=1 .1 .0\nend=net\n",
        Err(TextFault::Line(LineFault {
            line: 3,
            cause: Cause::Form,
        })),
    ),
    (
        b"net=1\nwheel=2\nwheel=2\nstyles=2\nstyle=a\nstyle=b\nplaces=2\nplace=0 01 11\nplace=1 .1 .0\nend=net\n",
        Err(TextFault::Line(LineFault {
            line: 3,
            cause: Cause::Form,
        })),
    ),
    (
        b"net=1\nwheel=2\nstyles=2\nstyle=a\nstyle=a\nstyle=b\nplaces=2\nplace=0 01 11\nplace=1 .1 .0\nend=net\n",
        Err(TextFault::Line(LineFault {
            line: 5,
            cause: Cause::Name { byte: 6 },
        })),
    ),
    (
        b"net=1\nwheel=2\nstyles=2\nstyle=a\nstyle=b\nstyle=b\nplaces=2\nplace=0 01 11\nplace=1 .1 .0\nend=net\n",
        Err(TextFault::Line(LineFault {
            line: 6,
            cause: Cause::Form,
        })),
    ),
    (
        b"net=1\nwheel=10\nstyles=2\nstyle=a\nstyle=b\nplaces=2\nplace=0 01 11\nplace=1 .1 .0\nend=net\n",
        Err(TextFault::Line(LineFault {
            line: 2,
            cause: Cause::Form,
        })),
    ),
    (
        b"net=1\nwheel=\nstyles=2\nstyle=a\nstyle=b\nplaces=2\nplace=0 01 11\nplace=1 .1 .0\nend=net\n",
        Err(TextFault::Line(LineFault {
            line: 2,
            cause: Cause::Form,
        })),
    ),
    (
        b"net=3\nwheel=3\n",
        Err(TextFault::Line(LineFault {
            line: 1,
            cause: Cause::Form,
        })),
    ),
    (
        b"net=1\nwheel=2\nstyles=2\nstyle=b\nplaces=2\nplace=0 01 11\nplace=1 .1 .0\nend=net\n",
        Err(TextFault::Line(LineFault {
            line: 5,
            cause: Cause::Form,
        })),
    ),
    (
        b"net=1\nwheel=2\nstyles=2\nstyle=a\nstyle=b\nplace=0 01 11\nplace=1 .1 .0\nend=net\n",
        Err(TextFault::Line(LineFault {
            line: 6,
            cause: Cause::Form,
        })),
    ),
    (
        b"net=1\nwheel=2\nstyles=2\nstyle=a\nstyle=b\nplaces=2\nplace=1 .1 .0\nend=net\n",
        Err(TextFault::Line(LineFault {
            line: 8,
            cause: Cause::Form,
        })),
    ),
    (
        b"net=1\nwheel=2\nstyles=2\nstyle=a\nstyle=b\nplaces=2\nplace=0 01 11\nend=net\n",
        Err(TextFault::Line(LineFault {
            line: 8,
            cause: Cause::Form,
        })),
    ),
    (
        b"net=1\nwheel=2\nstyles=2\nstyle=a\nstyle=b\nplaces=2\nplace=0 01 11\nplace=1 .1 .0\n",
        Err(TextFault::Line(LineFault {
            line: 9,
            cause: Cause::Form,
        })),
    ),
];

// On the wheel of three.
pub(crate) const ON_THREE: [(&[u8], Result<(), TextFault>); 18] = [
    (
        b"net=1\nwheel=3\nstyles=3\nstyle=9pvkah4gcbbd\nstyle=y60i2aum2n02\nstyle=shz44mbdcbot\nplaces=10\nstyle=9pvkah4gcbbd\nplace=2 .0 12 10\nplace=0 12 20 21\nplace=0 .0 .0 00\nplace=2 22 20 00\nplace=1 .0 .2 .2\nplace=0 02 12 22\nplace=1 .2 .2 .0\nplace=0 01 12 11\nplace=2 10 00 2\nend=net\n",
        Err(TextFault::Line(LineFault {
            line: 8,
            cause: Cause::Form,
        })),
    ),
    (
        b"net=1\nwheel=3\nstyles=2\nstyle=-a\nstyle=a-\nplaces=1\nplace=0 20 0\nend=net\n",
        Err(TextFault::Line(LineFault {
            line: 7,
            cause: Cause::Form,
        })),
    ),
    (
        b"net=1\nwheel=3\nstyles=1\nstyle=style-0\nplaces=3\nplace=2 21\nplace=0\nplace=2 20\nend=net\n",
        Err(TextFault::Line(LineFault {
            line: 7,
            cause: Cause::Form,
        })),
    ),
    (
        b"net=1\nwheel=3\nstyles=16\nstyle=a\nstyle=b\nstyle=c\nstyle=d\nstyle=e\nstyle=g\nstyle=h\nstyle=i\nstyle=j\nstyle=k\nstyle=l\nstyle=m\nstyle=n\nstyle=o\nstyle=p\nplaces=0\nend=net\n",
        Err(TextFault::Line(LineFault {
            line: 19,
            cause: Cause::Form,
        })),
    ),
    (
        b"net=1\nwheel=3\nstyles=1\nstyle=a\nplaces=3\nplace=2 21\nplace=  00\nplace=2 .0\nend=net\n",
        Err(TextFault::Line(LineFault {
            line: 7,
            cause: Cause::Form,
        })),
    ),
    (
        b"net=1\nwheel=3\nstyles=1\nstyle=a\nplaces=3\nplace=1 01\nplace=0 01\nend=net\n",
        Err(TextFault::Line(LineFault {
            line: 8,
            cause: Cause::Form,
        })),
    ),
    (
        b"net=1\nwheel=3\nstyles=3\nstyle=-0-a0-0-0-a-\nstyle=-a00-0a0-0\nstyle=-0-a0-0-0-a-\nplaces=2\nplace=2  .1 10 .2\nplace=1 .0 .2 .2\nend=net\n",
        Err(TextFault::Line(LineFault {
            line: 6,
            cause: Cause::Name { byte: 6 },
        })),
    ),
    (
        b"net=1\nwheel=3\nstyles=2\nstyle=a\nstyle=b\nplaces=1\nplace=0 03 00\nend=net\n",
        Err(TextFault::Line(LineFault {
            line: 7,
            cause: Cause::Form,
        })),
    ),
    (
        b"net=1\nwheel=3\nstyles=2\nstyle=a\nstyle=b\nplaces=1\nplace=0 00 30\nend=net\n",
        Err(TextFault::Line(LineFault {
            line: 7,
            cause: Cause::Form,
        })),
    ),
    (
        b"net=1\nwheel=3\nstyles=1\nstyle=a\nplaces=0\nend=net\n",
        Ok(()),
    ),
    (
        b"net=1\nwheel=2\nstyles=1\nstyle=a\nplaces=1\nplace=0 00\nend=net\n",
        Err(TextFault::OtherWheel(2)),
    ),
    (
        b"net=1\nwheel=3\nstyles=16\nstyle=000a0\nstyle=-a0aaa0--a\nstyle=0a0--0-aaa\nstyle=aa--\nstyle=-00--0-a\nstyle=a----aaa0\nstyle=-0-0a--a0a00\nstyle=-00a--\nstyle=aa-aaa-00aa-\nstyle=--000a-a\nstyle=a0a0aaaa-0a0\nstyle=00\nstyle=0a0-a0\nstyle=a\nstyle=0--\nstyle=-a00-a0-a-\nplaces=2\nplace=1 .0 12 .2 .2 .2 .0 .0 .0 .2 .0 .0 .2 .1 .0 .0 .0\nplace=0 02 02 11 22 21 12 21 22 11 11 21 00 21 00 01 01\nend=net\n",
        Ok(()),
    ),
    (
        b"net=1\nwheel=3\nstyles=15\nstyle=-0a0---a\nstyle=----a0\nstyle=00\nstyle=0-0-0-a-0-\nstyle=0--\nstyle=aa-000\nstyle=a0a00-\nstyle=0-a---0-a0\nstyle=a\nstyle=000000-a-\nstyle=00-a00-\nstyle=--aa000\nstyle=-00-a-00a-\nstyle=0--a-000a0-\nstyle=---00a-0-a--\nplaces=0\nend=net\n",
        Ok(()),
    ),
    (
        b"net=1\nwheel=3\nstyles=5\nstyle=a\nstyle=aa\nstyle=aaa\nstyle=aaaa\nstyle=aaaaa\nplaces=10\nplace=2 10 21 01 20 12\nplace=0 22 10 20 22 20\nplace=1 10 02 22 12 .1\nplace=0 .1 22 02 .1 01\nplace=1 02 .0 01 00 10\nplace=2 01 02 12 .0 .1\nplace=1 .2 .2 .0 10 .1\nplace=2 01 20 00 10 .2\nplace=1 .0 .2 .0 .0 .2\nplace=0 20 20 11 12 12\nend=net\n",
        Ok(()),
    ),
    (
        b"net=1\nwheel=3\nstyles=1\nstyle=2kk38rlr7chh\nplaces=0\nend=net\n",
        Ok(()),
    ),
    (
        b"net=1\nwheel=3\nstyles=15\nstyle=style-0\nstyle=style-1\nstyle=style-2\nstyle=style-3\nstyle=style-4\nstyle=style-5\nstyle=style-6\nstyle=style-7\nstyle=style-8\nstyle=style-9\nstyle=style-10\nstyle=style-11\nstyle=style-12\nstyle=style-13\nstyle=style-14\nplaces=3\nplace=2 12 22 .2 00 .1 11 22 21 00 22 22 .0 .2 .1 10\nplace=0 20 11 11 02 01 01 02 22 10 10 21 11 21 22 01\nplace=2 .0 00 21 .0 11 .2 20 .1 .2 22 10 .0 01 11 02\nend=net\n",
        Ok(()),
    ),
    (
        b"net=1\nwheel=3\nstyles=1\nstyle=a0--a0-0a0\nplaces=3\nplace=1 20\nplace=0 00\nplace=2 .2\nend=net\n",
        Ok(()),
    ),
    (
        b"net=1\nwheel=3\nstyles=1\nstyle=a-0aa0a0\nplaces=3\nplace=1 .1\nplace=2 .1\nplace=1 .1\nend=net\n",
        Ok(()),
    ),
];

// On the wheel of four.
pub(crate) const ON_FOUR: [(&[u8], Result<(), TextFault>); 12] = [
    (
        b"net=1\nwheel=4\nstyles=16\nstyle=a\nstyle=b\nstyle=c\nstyle=d\nstyle=e\nstyle=f\nstyle=g\nstyle=h\nstyle=i\nstyle=j\nstyle=k\nstyle=l\nplaces=0\nstyle=n\nstyle=o\nstyle=p\nplaces=10\nplace=1 03 00 21 11 20 03 03 01 23 31 32 31 03 21 32 03\nplace=0 22 03 30 31 12 21 30 03 32 11 01 31 30 12 03 33\nplace=1 .2 .1 01 03 00 22 30 .3 23 .3 .2 23 .1 33 11 22\nplace=0 03 .0 22 32 21 20 .1 .3 22 11 01 23 .1 31 11 .2\nplace=0 31 10 .2 .1 00 32 12 01 00 10 21 20 .2 30 .0 02\nplace=3 03 31 02 02 31 22 02 21 22 03 31 01 13 23 11 33\nplace=2 .3 23 10 .2 30 02 23 00 11 02 32 .2 .2 01 .3 .3\nplace=0 30 30 02 00 12 03 03 21 02 11 30 22 03 33 02 03\nplace=3 .0 .2 .1 03 .3 .3 .2 .3 .2 .0 .2 .0 .1 .2 .1 .1\nplace=1 .3 .3 .1 .2 30 .3 .2 .3 .2 .1 .0 .0 .0 .1 .1 .1\nend=net\n",
        Err(TextFault::Line(LineFault {
            line: 16,
            cause: Cause::Form,
        })),
    ),
    (
        b"net=1\nwheel= 4\nstyles=2\nstyle=9m7irb17b33i\nstyle=ofh5vtbkmiaj\nplaces=10\nend=case\nplace=3 .3 .2\nplace=1 .0 13\nplace=0 .2 .3\nplace=0 .0 .3\nplace=2 02 .1\nplace=1 23 22\nplace=2 .0 11\nplace=3 23 30\nplace=2 .3 .0\nend=net\n",
        Err(TextFault::Line(LineFault {
            line: 2,
            cause: Cause::Form,
        })),
    ),
    (
        b"net=1\nwheel=4\nstyles=15\nstyle=pdvqxsncxhew\nstyle=9v1sfiq5o2zl\nstyle=m5751g05tn2f\nstyle=w349dt9g1foj\nstyle=doyi69m999va\nstyle=enlf7vcjctlr\nstyle=5nis5j0fao5t\nstyle=i5u67o07w3xf\nstyle=mq-7mj7lrh76\nstyle=cyyqka-l0eyz\nstyle=tcj6r14au1pm\nstyle=lx2z1lpplr-d\r\nstyle=l4fnsppnhrlo\nstyle=kmkhiitlz0f0\nstyle=5840gzdyflq9\nplaces=3\nplace=0 .2 .2 .2 .3 .2 .3 .3 .1 .1 .1 .3 .1 .2 .2 .2\nplace=2 22 22 13 32 02 02 02 30 13 33 20 31 21 10 02\nplace=2 02 23 32 22 30 02 20 21 03 10 13 32 03 03 23\nend=net\n",
        Err(TextFault::Line(LineFault {
            line: 15,
            cause: Cause::Form,
        })),
    ),
    (
        b"net=1\nwheel=4\nstyles=2\nstyle=a\nstyle=b\nplaces=1\nplace=1 20 11 .\nend=net\n",
        Err(TextFault::Line(LineFault {
            line: 7,
            cause: Cause::Form,
        })),
    ),
    (
        b"net=1\nwheel=4\nstyles=3\nstyle=a\nstyle=aa\nstyle=aaa\nplaces=3\nplace=0 .3 33 .1\nplace=2 23 10\xff20\nplace=3 00 .2 11\nend=net\n",
        Err(TextFault::Line(LineFault {
            line: 9,
            cause: Cause::Form,
        })),
    ),
    (
        b"net=1\nwheel=4\nstyles=16\nstyle=style-0\nstyle=style-1\nstyle=style-2\nstyle=style-3\nstyle=style-4\nstyle=style-5\nstyle=style-6\nstyle=style-7\nstyle=style-8\nstyle=style-9\nstyle=style-10\nstyle=style-11\nstyle=style-12\nstyle=style-13\nstyle=style-14\nstyle=style-15\nplaces=1\nplace=1 .0 21 10 .3 22 .3 20 .1 .3 01 13 32 02 01 33 12\nend=net\n ",
        Err(TextFault::Line(LineFault {
            line: 23,
            cause: Cause::Form,
        })),
    ),
    (
        b"net=1\nwheel=4\nstyles=5\nstyle=a\nstyle=b\nstyle=c\nstyle=d\nstyle=e\nplaces=1\nplace=2 32 .0X31 .0 .2\nend=net\n",
        Err(TextFault::Line(LineFault {
            line: 10,
            cause: Cause::Form,
        })),
    ),
    (
        b"net=1\nwheel=4\nstyles=5\nstyle=zg9ppskxqulg\nstyle=fnpzmjo24wir\nstyle=rjjku3pf6s6u\nstyle=snjke6t019mh\nstyle=0l8dy4urn16u\nplaces=2\nplace=0 .1 20 00 31 .1\nplace=2 .2 .1 .2 .2 .3\nend=net\n",
        Ok(()),
    ),
    (
        b"net=1\nwheel=4\nstyles=2\nstyle=a\nstyle=b\nplaces=1\nplace=0 00 40\nend=net\n",
        Err(TextFault::Line(LineFault {
            line: 7,
            cause: Cause::Form,
        })),
    ),
    (
        b"net=1\nwheel=4\nstyles=3\nstyle=style-0\nstyle=style-1\nstyle=style-2\nplaces=3\nplace=2 00 03 30\nplace=2 12 03 02\nplace=0 32 13 03\nend=net\n",
        Ok(()),
    ),
    (
        b"net=1\nwheel=4\nstyles=3\nstyle=f-lodmtv3kzp\nstyle=fss5i6xpxr5b\nstyle=tiypkrsp71gg\nplaces=10\nplace=1 .0 11 .1\nplace=2 01 03 20\nplace=1 .0 .3 .2\nplace=2 .2 .2 .0\nplace=0 11 22 30\nplace=3 31 32 31\nplace=1 02 31 10\nplace=2 30 00 01\nplace=3 22 13 11\nplace=1 31 11 20\nend=net\n",
        Ok(()),
    ),
    (
        b"net=1\nwheel=4\nstyles=16\nstyle=a\nstyle=b\nstyle=c\nstyle=d\nstyle=e\nstyle=f\nstyle=g\nstyle=h\nstyle=i\nstyle=j\nstyle=k\nstyle=l\nstyle=m\nstyle=n\nstyle=o\nstyle=p\nplaces=0\nend=net\n",
        Ok(()),
    ),
];
