// Numbers against their forms, and bytes that are no number.
use record::{ByteFault, Writer, read_number};
use std::process::Abort;
use std::test::Fail;

// A number is written as its form, and the form is read back, whatever follows it.
fn both_ways(rt: &impl Abort, number: u64, form: &[u8]) -> Result<(), Fail> {
    let mut buf = [0xee; 12];
    let mut writer = Writer::new(&mut buf, 1);
    writer.job(number)?;
    let end = writer.place();
    assert_eq!(rt; end, 1 + form.len());
    assert!(rt; end <= 12);
    assert_eq!(rt; &buf[1..end], form);
    assert_eq!(rt; buf[0], 0xee);
    assert_eq!(rt; buf[11], 0xee);
    let (value, rest) = read_number(&buf[1..12])?;
    assert_eq!(rt; value, number);
    assert_eq!(rt; rest.len(), 11 - form.len());
    Ok(())
}

// Numbers of one, two, three, eight and nine bytes, the smallest and the largest among them.
const FORMS: [(u64, &[u8]); 12] = [
    (0, b"\x00"),
    (1, b"\x01"),
    (127, b"\x7f"),
    (128, b"\x80\x01"),
    (300, b"\xac\x02"),
    (16_383, b"\xff\x7f"),
    (16_384, b"\x80\x80\x01"),
    (0x00ff_ffff_ffff_ffff, b"\xff\xff\xff\xff\xff\xff\xff\x7f"),
    (
        0x0100_0000_0000_0000,
        b"\x80\x80\x80\x80\x80\x80\x80\x80\x01",
    ),
    (
        0x4000_0000_0000_0000,
        b"\x80\x80\x80\x80\x80\x80\x80\x80\x40",
    ),
    (
        0x7fff_ffff_ffff_fffe,
        b"\xfe\xff\xff\xff\xff\xff\xff\xff\x7f",
    ),
    (
        0x7fff_ffff_ffff_ffff,
        b"\xff\xff\xff\xff\xff\xff\xff\xff\x7f",
    ),
];

#[test]
fn forms(rt: HostRuntime) -> Result<(), Fail> {
    for (number, form) in FORMS {
        both_ways(&rt, number, form)?;
    }
    Ok(())
}

// Bytes that run out after none, one and eight, and bytes that are no form.
const REFUSED: [(&[u8], ByteFault); 12] = [
    (b"", ByteFault::Short),
    (b"\x80", ByteFault::Short),
    (b"\xff", ByteFault::Short),
    (b"\x80\x80\x80\x80\x80\x80\x80\x80", ByteFault::Short),
    (b"\x80\x00", ByteFault::BadNumber),
    (b"\xff\x00\x05", ByteFault::BadNumber),
    (b"\x80\x80\x00", ByteFault::BadNumber),
    (
        b"\x80\x80\x80\x80\x80\x80\x80\x80\x00",
        ByteFault::BadNumber,
    ),
    (
        b"\x80\x80\x80\x80\x80\x80\x80\x80\x80",
        ByteFault::BadNumber,
    ),
    (
        b"\xff\xff\xff\xff\xff\xff\xff\xff\xff",
        ByteFault::BadNumber,
    ),
    (
        b"\xff\xff\xff\xff\xff\xff\xff\xff\xff\x01",
        ByteFault::BadNumber,
    ),
    (
        b"\xff\xff\xff\xff\xff\xff\xff\xff\x80\x01",
        ByteFault::BadNumber,
    ),
];

#[test]
fn refused(rt: HostRuntime) -> Result<(), Fail> {
    for (bytes, fault) in REFUSED {
        assert_eq!(rt; read_number(bytes).err(), Some(fault));
    }
    Ok(())
}
