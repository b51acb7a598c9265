// The heading of a record file.
ghost use Rattle.record.specs.Heading.{HeadingRead, HeadingRefused};
ghost use Rattle.record.specs.Answers.{RestAnswer, OnlyRest};

use crate::fault::ByteFault;

pub const HEADING: [u8; 4] = *b"AFT1";

// The bytes after the heading at the front of `bytes`: there is no value to hand on beside them.
pub fn read_heading(bytes: &[u8]) -> Result<&[u8], ByteFault>
    ensures answered { RestAnswer HeadingRead HeadingRefused bytes.now result }
    ensures only { OnlyRest HeadingRead HeadingRefused bytes.now result }
{
    match bytes.strip_prefix(&HEADING) {
        Some(rest) => Ok(rest),
        None if HEADING.starts_with(bytes) => Err(ByteFault::Short),
        None => Err(ByteFault::WrongHeading),
    }
}
