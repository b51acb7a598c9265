// Whole files against the text of their listings.
use listing::lines;
use std::alloc::Global;
use std::fmt::Write;
use std::process::Abort;
use std::test::Fail;

// The lines of a file, each with its line feed. It takes what `lines` takes.
fn text(alloc: Global, bytes: &[u8]) -> Result<String, Fail> {
    let mut out = String::new(alloc);
    for line in lines(alloc, bytes)? {
        writeln!(out, "{line}")?;
    }
    Ok(out)
}

fn check_all(rt: &impl Abort, alloc: Global, table: &[(&[u8], &str)]) -> Result<(), Fail> {
    for (bytes, expected) in table {
        let found = text(alloc, bytes)?;
        assert_eq!(rt; found.as_str(), *expected);
    }
    Ok(())
}

// The heading and the job number, each byte of them wrong or missing in turn.
const HEADINGS: [(&[u8], &str); 15] = [
    (b"", "refused 2 layer bytes byte 0\n"),
    (b"A", "refused 2 layer bytes byte 0\n"),
    (b"AFT", "refused 2 layer bytes byte 0\n"),
    (b"B", "refused 1 layer bytes byte 0\n"),
    (b"AFU", "refused 1 layer bytes byte 0\n"),
    (b"BFT1", "refused 1 layer bytes byte 0\n"),
    (b"AFT2", "refused 1 layer bytes byte 0\n"),
    (b"AFT2\x07", "refused 1 layer bytes byte 0\n"),
    (b"AFT1", "refused 2 layer bytes byte 4\n"),
    (b"AFT1\x80", "refused 2 layer bytes byte 4\n"),
    (b"AFT1\x80\x00", "refused 3 layer bytes byte 4\n"),
    (
        b"AFT1\xff\xff\xff\xff\xff\xff\xff\xff\xff",
        "refused 3 layer bytes byte 4\n",
    ),
    (
        b"AFT1\x00",
        "job 0\n0 events, 5 bytes, written again: equal\n",
    ),
    (
        b"AFT1\xac\x02",
        "job 300\n0 events, 6 bytes, written again: equal\n",
    ),
    (
        b"AFT1\xff\xff\xff\xff\xff\xff\xff\xff\x7f",
        "job 9223372036854775807\n0 events, 13 bytes, written again: equal\n",
    ),
];

#[test]
fn headings(rt: HostRuntime) -> Result<(), Fail> {
    check_all(&rt, rt.alloc(), &HEADINGS)
}

// Each kind of event, and numbers of one, two and nine bytes.
const KINDS: [(&[u8], &str); 6] = [
    (
        b"AFT1\x07\x01\x00\x01\x06\x01\x01\x05\x06\x00\x01\x05",
        "job 7\n0 spawn 0 1\n1 write 1 1/5\n2 write 0 1/5\n3 events, 16 bytes, written again: equal\n",
    ),
    (
        b"AFT1\x07\x01\x7f\x80\x01",
        "job 7\n0 spawn 127 128\n1 events, 9 bytes, written again: equal\n",
    ),
    (
        b"AFT1\x07\x02\x01",
        "job 7\n0 end 1\n1 events, 7 bytes, written again: equal\n",
    ),
    (
        b"AFT1\x07\x03\x00\x04\x00",
        "job 7\n0 open 0\n1 close 0\n2 events, 9 bytes, written again: equal\n",
    ),
    (
        b"AFT1\x07\x05\x00\xac\x02\xff\xff\xff\xff\xff\xff\xff\xff\x7f",
        "job 7\n0 read 0 300/9223372036854775807\n1 events, 18 bytes, written again: equal\n",
    ),
    (
        b"AFT1\x07\x06\xff\xff\xff\xff\xff\xff\xff\xff\x7f\xff\xff\xff\xff\xff\xff\xff\xff\x7f\xff\xff\xff\xff\xff\xff\xff\xff\x7f",
        "job 7\n0 write 9223372036854775807 9223372036854775807/9223372036854775807\n1 events, 33 bytes, written again: equal\n",
    ),
];

#[test]
fn kinds(rt: HostRuntime) -> Result<(), Fail> {
    check_all(&rt, rt.alloc(), &KINDS)
}

// An event that is refused, at its first byte and at its last; what stands before it is listed.
const FAULTS: [(&[u8], &str); 12] = [
    (b"AFT1\x07\x00", "job 7\nrefused 4 layer bytes byte 5\n"),
    (b"AFT1\x07\x07", "job 7\nrefused 4 layer bytes byte 5\n"),
    (
        b"AFT1\x07\xff\x80\x00",
        "job 7\nrefused 4 layer bytes byte 5\n",
    ),
    (
        b"AFT1\x07\x02\x01\x07",
        "job 7\n0 end 1\nrefused 4 layer bytes byte 7\n",
    ),
    (b"AFT1\x07\x01", "job 7\nrefused 2 layer bytes byte 5\n"),
    (b"AFT1\x07\x01\x00", "job 7\nrefused 2 layer bytes byte 5\n"),
    (
        b"AFT1\x07\x01\x00\x80",
        "job 7\nrefused 2 layer bytes byte 5\n",
    ),
    (
        b"AFT1\x07\x05\x80\x00",
        "job 7\nrefused 3 layer bytes byte 5\n",
    ),
    (
        b"AFT1\x07\x05\x00\x00\x80\x80\x80\x80\x80\x80\x80\x80\x00",
        "job 7\nrefused 3 layer bytes byte 5\n",
    ),
    (
        b"AFT1\x07\x06\x00\x01\xff\xff\xff\xff\xff\xff\xff\xff\xff",
        "job 7\nrefused 3 layer bytes byte 5\n",
    ),
    (
        b"AFT1\x07\x04\x00\x06\x00\x01",
        "job 7\n0 close 0\nrefused 2 layer bytes byte 7\n",
    ),
    (
        b"AFT1\x07\x02\x80\x80\x80\x80\x80\x80\x80\x80",
        "job 7\nrefused 2 layer bytes byte 5\n",
    ),
];

#[test]
fn faults(rt: HostRuntime) -> Result<(), Fail> {
    check_all(&rt, rt.alloc(), &FAULTS)
}

// A file of 65,536 bytes is read, and one byte more is refused unread.
#[test]
fn longest(rt: HostRuntime) -> Result<(), Fail> {
    let alloc = rt.alloc();
    let mut bytes = vec![in alloc; 0u8; 65_536]?;
    assert_eq!(rt;
        text(alloc, bytes.as_slice())?.as_str(),
        "refused 1 layer bytes byte 0\n"
    );
    bytes.push(0)?;
    assert_eq!(rt;
        text(alloc, bytes.as_slice())?.as_str(),
        "refused 5 layer bytes byte 65536\n"
    );
    Ok(())
}
