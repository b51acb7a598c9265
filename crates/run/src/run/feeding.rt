// What a run does with an event and with a seal, by its stage.
ghost use Rattle.std.specs.Prelude.{◌≡◌};
ghost use Rattle.model.specs.declared.Call.TheVariants.{Feed, Seal};
ghost use Rattle.run.specs.Tokens.{GivenBack};
ghost use Rattle.run.specs.Runs.{held_in, answer_of, left_by, fed_at, sealed_at, Answered, fed, sealed, reply_of};

use super::{Answer, Run};
use crate::fault::{Refusal, RunFault};
use crate::log::Reply;
use crate::token::Token;
use crate::verdict::Verdict;
use cells::Store;
use model::{Call, Cell, Event, History, Stage};
use order::Keeper;

impl<K: Keeper, S: Store<Key = Cell, Value = History>, N: Store<Key = u64, Value = u64>> Run<
    K,
    S,
    N,
> {
    fn feed(&mut self, event: Event<Cell>) -> Result<Answer, RunFault>
        ensures answered { fed_at self.old.parts.taken result ≡ answer_of K.meaning S.meaning N.meaning self.old (Feed event) }
        ensures kept { held_in K.meaning S.meaning N.meaning self.new ≡ left_by K.meaning S.meaning N.meaning self.old (Feed event) }
        ensures job { self.new.job ≡ self.old.job }
        ensures limit { self.new.limit ≡ self.old.limit }
    {
        match (&mut self.stage, event) {
            (Stage::Sealed(_), _) => Err(RunFault::Sealed),
            (Stage::Raced(race), _) => Ok(Answer::Stopped(*race)),
            (stage @ Stage::Feeding, event) => {
                let race = self.parts.take(self.limit, event)?;
                if let Some(race) = race {
                    *stage = Stage::Raced(race);
                }
                Ok(Answer::Taken(race))
            }
        }
    }

    fn seal_as(&mut self, job: u64) -> Result<Verdict, RunFault>
        ensures answered { sealed_at self.old.parts.taken result ≡ answer_of K.meaning S.meaning N.meaning self.old (Seal job) }
        ensures kept { held_in K.meaning S.meaning N.meaning self.new ≡ left_by K.meaning S.meaning N.meaning self.old (Seal job) }
        ensures job { self.new.job ≡ self.old.job }
        ensures limit { self.new.limit ≡ self.old.limit }
    {
        let race = match self.stage {
            Stage::Sealed(_) => return Err(RunFault::Sealed),
            Stage::Raced(race) => Some(race),
            Stage::Feeding => None,
        };
        if job != self.job {
            return Err(RunFault::OtherJob);
        }
        self.stage = Stage::Sealed(race);
        Ok(Verdict {
            job,
            race,
            events: self.parts.taken,
        })
    }

    // The next event, with its place if it is refused.
    pub(super) fn take_placed(&mut self, event: Event<Cell>) -> Result<Answer, Refusal>
        ensures answered { Answered K.meaning S.meaning N.meaning self.old (Feed event) (fed result) self.new }
    {
        let place = self.parts.taken;
        match self.feed(event) {
            Ok(answer) => Ok(answer),
            Err(fault) => Err(fault.at(place)),
        }
    }

    // A seal, likewise. The token is spent, or handed back.
    pub(super) fn seal_placed(&mut self, token: Token) -> Result<Verdict, (Refusal, Token)>
        ensures answered { Answered K.meaning S.meaning N.meaning self.old (Seal token.job) (sealed result) self.new }
        ensures handed_back { GivenBack token result }
    {
        let place = self.parts.taken;
        match self.seal_as(token.job()) {
            Ok(verdict) => {
                token.spend();
                Ok(verdict)
            }
            Err(fault) => Err((fault.at(place), token)),
        }
    }

    // A call of either kind, a seal by the job of a token.
    pub(crate) fn call(&mut self, call: Call<Cell>) -> Reply
        ensures answered { Answered K.meaning S.meaning N.meaning self.old call (reply_of result) self.new }
    {
        let place = self.parts.taken;
        match call {
            Call::Feed(event) => match self.feed(event) {
                Ok(answer) => Reply::Answered(answer),
                Err(fault) => Reply::Refused(fault.at(place)),
            },
            Call::Seal(job) => match self.seal_as(job) {
                Ok(verdict) => Reply::Sealed(verdict),
                Err(fault) => Reply::Refused(fault.at(place)),
            },
        }
    }
}
