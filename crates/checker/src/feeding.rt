// The events of a file, fed to a run.
ghost use Rattle.checker.specs.Feeding.{FedUpTo, Finished};

use crate::fault::{FileFault, FileRefusal};
use crate::report::Report;
use cells::Store;
use model::{Cell, History};
use order::Keeper;
use record::Reader;
use run::{Answer, Run, Token};

// Feeds the events before which the reader stands, up to the first race, or to what is refused.
pub(crate) fn feed_all<
    K: Keeper,
    S: Store<Key = Cell, Value = History>,
    N: Store<Key = u64, Value = u64>,
>(reader: &mut Reader<'_>, run: &mut Run<K, S, N>) -> Result<(), FileRefusal>
    ensures fed { FedUpTo K.meaning S.meaning N.meaning reader.old run.old result run.new }
{
    loop {
        let byte = reader.place();
        match reader.next_event()? {
            None => return Ok(()),
            Some(event) => match run.take(event) {
                Ok(Answer::Taken(None)) => {}
                Ok(Answer::Taken(Some(_))) => return Ok(()),
                Ok(Answer::Stopped(_)) => return Ok(()),
                Err(refusal) => return Err(FileFault::from(refusal.fault).at(byte)),
            },
        }
    }
}

// Feeds the events that are left, and seals the run, or withdraws its token at what is refused.
pub(crate) fn finish<
    K: Keeper,
    S: Store<Key = Cell, Value = History>,
    N: Store<Key = u64, Value = u64>,
>(reader: &mut Reader<'_>, run: &mut Run<K, S, N>, token: Token) -> Report
    ensures finished { Finished K.meaning S.meaning N.meaning reader.old run.old token.job result }
{
    match feed_all(reader, run) {
        Ok(()) => match run.seal(token) {
            Ok(verdict) => Report::Sealed(verdict),
            // A run that was only fed is not sealed, and the token is its own.
            Err((refusal, token)) => Report::Withdrawn(
                token.withdraw(),
                FileFault::from(refusal.fault).at(reader.place()),
            ),
        },
        Err(refusal) => Report::Withdrawn(token.withdraw(), refusal),
    }
}
