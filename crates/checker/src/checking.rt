// Whole files, checked.
ghost use Rattle.std.specs.Prelude.{IfOk};
ghost use Rattle.run.specs.Runs.{opening};
ghost use Rattle.checker.specs.Checks.{Checked, OnlyReport, JobRead, check_limits};

use crate::fault::FileFault;
use crate::feeding::finish;
use crate::report::Report;
use cells::{CellRecord, NameRecord, Record, Store, Table};
use listing::LIMIT;
use model::{Cell, History};
use order::{Keeper, OrderRecord, TreeKeeper};
use record::{ByteFault, ByteRefusal, Reader};
use run::Run;
use std::alloc::{AllocError, Global};

// How many events a run takes at most, and how many records its parts are lent.
const EVENTS: u64 = 65_535;

const STEPS: usize = 4_000;

const CELLS: usize = 512;

const NAMES: usize = 256;

// The heading and the job number.
fn read_job(reader: &mut Reader<'_>) -> Result<u64, ByteRefusal>
    ensures { JobRead reader.old result reader.new }
{
    reader.heading()?;
    reader.job()
}

// Checks a file over any parts: reads it, feeds its events to a run that may take at most so many, up to the first race or to what
// is refused, and seals the run or withdraws its token. Of a file that is too long nothing is read.
pub fn check_over<
    K: Keeper + Drop,
    S: Store<Key = Cell, Value = History> + Drop,
    N: Store<Key = u64, Value = u64> + Drop,
>(bytes: &[u8], event_limit: u64, keeper: K, store: S, names: N) -> Report
    ensures checked { Checked (opening K.meaning S.meaning N.meaning 0 event_limit keeper store names).limits bytes.now result }
    ensures only { OnlyReport (opening K.meaning S.meaning N.meaning 0 event_limit keeper store names).limits bytes.now result }
{
    if bytes.len() > LIMIT {
        return Report::Unopened(FileFault::from(ByteFault::NoRoom).at(LIMIT));
    }
    let mut reader = Reader::new(bytes);
    match read_job(&mut reader) {
        Err(refusal) => Report::Unopened(refusal.into()),
        Ok(job) => {
            let (mut run, token) = Run::open(job, event_limit, keeper, store, names);
            finish(&mut reader, &mut run, token)
        }
    }
}

// Checks a file over the tree keeper and the probing table, with room for 65,535 events, 1,001 steps, 512 cells and 256 names.
pub fn check(alloc: Global, bytes: &[u8]) -> Result<Report, AllocError>
    ensures checked { IfOk result (λ report. Checked check_limits bytes.now report) }
    ensures only { IfOk result (λ report. OnlyReport check_limits bytes.now report) }
{
    let mut steps = vec![in alloc; OrderRecord::BLANK; STEPS]?;
    let mut cells = vec![in alloc; CellRecord::BLANK; CELLS]?;
    let mut names = vec![in alloc; NameRecord::BLANK; NAMES]?;
    Ok(check_over(
        bytes,
        EVENTS,
        TreeKeeper::new(steps.as_mut_slice()),
        Table::new(cells.as_mut_slice()),
        Table::new(names.as_mut_slice()),
    ))
}
