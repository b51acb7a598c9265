// Checks a record from standard input, and prints its report.
#![tactic(auto)]

use checker::check;
use listing::LIMIT;
use std::io;
use std::io::Read;

fn main(rt: HostRuntime) -> io::Result<()> {
    let alloc = rt.alloc();
    let mut input = Vec::new(alloc);
    // One byte more than a file may have shows that it is too long. `as`: no `From` leads from `usize` to `u64`.
    rt.stdin().take(LIMIT as u64 + 1).read_to_end(&mut input)?;
    rt.println(check(alloc, input.as_slice())?)
}
