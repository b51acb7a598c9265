// Numbers: groups of seven bits, lowest first, in the shortest form.
ghost use Rattle.record.specs.Numbers.{NumberRead, NumberRefused};
ghost use Rattle.record.specs.Answers.{Answer, OnlyAnswer};
ghost use Rattle.record.specs.Laws.{NumbersApart};
ghost use Rattle.record.specs.Examples.{NumberExamples};

use crate::fault::ByteFault;

// The most bytes that a number has.
pub(crate) const LONGEST: usize = 9;

// A byte from here on has its high bit set, and another follows it.
pub(crate) const GOES_ON: u8 = 128;

// How many values a group of seven bits has: what a weight grows by, and no bit of a byte as `GOES_ON` is.
pub(crate) const GROUP: u64 = 128;

// The number at the front of `bytes`, and the bytes after it.
pub fn read_number(bytes: &[u8]) -> Result<(u64, &[u8]), ByteFault>
    ensures answered { Answer NumberRead NumberRefused bytes.now result }
    ensures only { OnlyAnswer NumberRead NumberRefused bytes.now result }
    ensures apart { NumbersApart }
    ensures examples { NumberExamples }
{
    let front = &bytes[..LONGEST.min(bytes.len())];
    let mut value = 0;
    let mut weight = 1;
    for (i, byte) in front.iter().enumerate() {
        value += u64::from(byte % GOES_ON) * weight;
        if *byte < GOES_ON {
            if *byte == 0 && i > 0 {
                return Err(ByteFault::BadNumber);
            }
            return Ok((value, &bytes[i + 1..]));
        }
        weight *= GROUP;
    }
    if bytes.len() < LONGEST {
        Err(ByteFault::Short)
    } else {
        Err(ByteFault::BadNumber)
    }
}
