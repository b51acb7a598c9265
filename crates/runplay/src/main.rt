// Makes lists of calls on runs over both order keepers and both cell stores, and prints what each call is answered.
#![tactic(auto)]

mod log;
mod memory;
mod pair;
mod room;
mod scenario;
mod scenarios;
mod tokens;

use pair::{JOB, OTHER_JOB, Pair};
use room::Room;
use scenarios::SCENARIOS;
use std::io;

fn main(rt: HostRuntime) -> io::Result<()> {
    let alloc = rt.alloc();
    for scenario in SCENARIOS {
        println!(rt; "{scenario}")?;
        for pair in Pair::ALL {
            let log = scenario.play(alloc, pair)?;
            println!(rt; "{pair}: {log}")?;
        }
    }
    let room = Room::PLENTY;
    println!(rt;
        "{room}: the tokens of the jobs {OTHER_JOB}, {JOB} and {OTHER_JOB} on a run of job {JOB}"
    )?;
    for pair in Pair::ALL {
        let exchange = pair.spend_tokens(alloc, room)?;
        println!(rt; "{pair}: {exchange}")?;
    }
    Ok(())
}
