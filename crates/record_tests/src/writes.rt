// Writes that fit to the last byte, and writes that are refused and leave the buffer as it was.
use model::{Cell, Event};
use record::{ByteFault, ByteRefusal, Writer};

// The largest number. A test's values are written out, and not taken from the code.
const LARGEST: u64 = 0x7fff_ffff_ffff_ffff;

// An event of four bytes, if the block is small.
fn writing(block: u64) -> Event<Cell> {
    let cell = Cell { mailbox: 1, block };
    Event::Write { task: 0, cell }
}

// Written out, as a test's values are.
fn refused<T>(fault: ByteFault, place: usize) -> Result<T, ByteRefusal> {
    Err(ByteRefusal { fault, place })
}

// The place of a writer after `call`, or what refused it.
fn after<F: FnOnce(&mut Writer<'_>) -> Result<(), ByteRefusal>>(
    mut writer: Writer<'_>,
    call: F,
) -> Result<usize, ByteRefusal>
    requires { F.IsAlwaysCallable call }
{
    call(&mut writer)?;
    Ok(writer.place())
}

#[test]
fn events(rt: HostRuntime) {
    let write = writing(5);
    let huge = writing(LARGEST + 1);
    let table = [
        (write, 0, Ok(4)),
        (write, 2, Ok(6)),
        (write, 3, refused(ByteFault::NoRoom, 3)),
        (write, 6, refused(ByteFault::NoRoom, 6)),
        (write, 7, refused(ByteFault::NoRoom, 7)),
        (write, usize::MAX, refused(ByteFault::NoRoom, usize::MAX)),
        (huge, 0, refused(ByteFault::TooLarge, 0)),
        (huge, 7, refused(ByteFault::TooLarge, 7)),
        (
            Event::Spawn {
                task: LARGEST + 1,
                child: 0,
            },
            0,
            refused(ByteFault::TooLarge, 0),
        ),
        (
            Event::End { task: u64::MAX },
            0,
            refused(ByteFault::TooLarge, 0),
        ),
    ];
    for (event, at, expected) in table {
        let mut buf = [9; 6];
        let answer = after(Writer::new(&mut buf, at), |writer| writer.event(event));
        assert_eq!(rt; buf == [9; 6], answer.is_err());
        assert_eq!(rt; answer, expected);
    }
}

#[test]
fn headings_and_jobs(rt: HostRuntime) {
    let mut buf = [9; 6];
    assert_eq!(rt;
        after(Writer::new(&mut buf, 3), |writer| writer.heading()),
        refused(ByteFault::NoRoom, 3)
    );
    assert_eq!(rt;
        after(Writer::new(&mut buf, 0), |writer| writer.job(LARGEST + 1)),
        refused(ByteFault::TooLarge, 0)
    );
    assert_eq!(rt;
        after(Writer::new(&mut buf, 5), |writer| writer.job(300)),
        refused(ByteFault::NoRoom, 5)
    );
    assert_eq!(rt; buf, [9; 6]);
    assert_eq!(rt;
        after(Writer::new(&mut buf, 0), |writer| writer.heading()),
        Ok(4)
    );
    assert_eq!(rt;
        after(Writer::new(&mut buf, 4), |writer| writer.job(300)),
        Ok(6)
    );
    assert_eq!(rt; &buf, b"AFT1\xac\x02");
}

// A refusal leaves the writer where it stood, and it goes on from there.
#[test]
fn goes_on(rt: HostRuntime) {
    let mut buf = [9; 6];
    let mut writer = Writer::new(&mut buf, 0);
    assert_eq!(rt; writer.heading(), Ok(()));
    assert_eq!(rt; writer.job(LARGEST + 1), refused(ByteFault::TooLarge, 4));
    assert_eq!(rt; writer.place(), 4);
    assert_eq!(rt; writer.job(300), Ok(()));
    assert_eq!(rt; writer.job(0), refused(ByteFault::NoRoom, 6));
    assert_eq!(rt; writer.place(), 6);
    assert_eq!(rt; &buf, b"AFT1\xac\x02");
}
