// Listings and recordings as a program's own code has them, not as lines.
use listing::{ListError, Recording, list};
use model::Event;
use record::{ByteFault, ByteRefusal};
use std::test::Fail;

#[test]
fn listed(rt: HostRuntime) -> Result<(), Fail> {
    let listing = list(rt.alloc(), b"AFT1\x07\x02\x01\x03\x00\x07")?;
    assert_eq!(rt; listing.job, 7);
    assert_eq!(rt;
        listing.events.as_slice(),
        [Event::End { task: 1 }, Event::Open { task: 0 }].as_slice()
    );
    let refusal = ByteRefusal {
        fault: ByteFault::UnknownKind,
        place: 9,
    };
    assert_eq!(rt; listing.refusal, Some(refusal));
    assert_eq!(rt; listing.recording().events.len(), 2);
    Ok(())
}

#[test]
fn not_listed(rt: HostRuntime) -> Result<(), Fail> {
    let alloc = rt.alloc();
    let error = ListError::Refused(ByteRefusal {
        fault: ByteFault::Short,
        place: 4,
    });
    assert_eq!(rt; list(alloc, b"AFT1\x80").err(), Some(error));
    assert_eq!(rt;
        format!(in alloc; "{error}")?.as_str(),
        "refused 2 layer bytes byte 4"
    );
    Ok(())
}

// A recording against its own form, against other bytes, and against too few.
#[test]
fn written_again(rt: HostRuntime) -> Result<(), Fail> {
    let alloc = rt.alloc();
    let recording = Recording {
        job: 7,
        events: &[Event::End { task: 1 }],
    };
    assert!(rt; recording.written_again(alloc, b"AFT1\x07\x02\x01")?);
    assert!(rt; !recording.written_again(alloc, b"AFT1\x07\x02\x02")?);
    assert!(rt; !recording.written_again(alloc, b"AFT1\x07\x02")?);
    Ok(())
}
