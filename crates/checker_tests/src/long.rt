// Long record files: those that fill a limit, and those that go past it by one.
use checker::check;
use std::alloc::{AllocError, Global};
use std::fmt::Write;
use std::process::Abort;
use std::test::Fail;

// Adds a number below 2^14.
fn push_number(out: &mut Vec<u8>, number: u16) -> Result<(), AllocError> {
    if number >= 128 {
        out.push(128 + (number % 128) as u8)?;
        out.push((number / 128 % 128) as u8)?;
    } else {
        out.push(number as u8)?;
    }
    Ok(())
}

// The file of job 7 with so many events. Event i has the bytes `before`, and then the number i + 1 if that is wanted.
fn file_of(
    alloc: Global,
    events: u16,
    before: &[u8],
    numbered: bool,
) -> Result<Vec<u8>, AllocError> {
    let mut out = Vec::new(alloc);
    for byte in b"AFT1\x07" {
        out.push(*byte)?;
    }
    for i in 0..events {
        for byte in before {
            out.push(*byte)?;
        }
        if numbered {
            push_number(&mut out, i.saturating_add(1))?;
        }
    }
    Ok(out)
}

fn check_line(rt: &impl Abort, alloc: Global, bytes: &[u8], expected: &str) -> Result<(), Fail> {
    let mut found = String::new(alloc);
    write!(found, "{}", check(alloc, bytes)?)?;
    assert_eq!(rt; found.as_str(), expected);
    Ok(())
}

// 1,001 steps: step 0, and one for each open.
#[test]
fn steps(rt: HostRuntime) -> Result<(), Fail> {
    let full = file_of(rt.alloc(), 1_000, b"\x03\x00", false)?;
    check_line(&rt, rt.alloc(), full.as_slice(), "job 7 clean events 1000")?;
    let over = file_of(rt.alloc(), 1_001, b"\x03\x00", false)?;
    check_line(
        &rt,
        rt.alloc(),
        over.as_slice(),
        "job 7 withdrawn refused 17 layer order byte 2005",
    )
}

// 512 cells: reads of 1/1, 1/2 and so on.
#[test]
fn cells(rt: HostRuntime) -> Result<(), Fail> {
    let full = file_of(rt.alloc(), 512, b"\x05\x00\x01", true)?;
    check_line(&rt, rt.alloc(), full.as_slice(), "job 7 clean events 512")?;
    let over = file_of(rt.alloc(), 513, b"\x05\x00\x01", true)?;
    check_line(
        &rt,
        rt.alloc(),
        over.as_slice(),
        "job 7 withdrawn refused 18 layer cells byte 2438",
    )
}

// 256 names: spawns of the tasks 1, 2 and so on.
#[test]
fn names(rt: HostRuntime) -> Result<(), Fail> {
    let full = file_of(rt.alloc(), 256, b"\x01\x00", true)?;
    check_line(&rt, rt.alloc(), full.as_slice(), "job 7 clean events 256")?;
    let over = file_of(rt.alloc(), 257, b"\x01\x00", true)?;
    check_line(
        &rt,
        rt.alloc(),
        over.as_slice(),
        "job 7 withdrawn refused 9 layer run byte 902",
    )
}

// 65,536 bytes are judged, and no more.
#[test]
fn bytes(rt: HostRuntime) -> Result<(), Fail> {
    let mut file = file_of(rt.alloc(), 0, b"", false)?;
    for _zero in 5..65_536 {
        file.push(0)?;
    }
    check_line(
        &rt,
        rt.alloc(),
        file.as_slice(),
        "job 7 withdrawn refused 4 layer bytes byte 5",
    )?;
    file.push(0)?;
    check_line(
        &rt,
        rt.alloc(),
        file.as_slice(),
        "refused 5 layer bytes byte 65536",
    )
}
