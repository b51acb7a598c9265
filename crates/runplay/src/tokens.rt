// Tokens as they are spent: a run and its own token, and the token of another run.
ghost use Rattle.std.specs.Prelude.{◌≡◌, ◌≢◌, Some};
ghost use Rattle.runplay.specs.Tokens.{exchanged, handed_text, exchange_shown};

use cells::Store;
use model::{Cell, History};
use order::Keeper;
use run::{Opening, Refusal, Verdict, Withdrawn};
use std::fmt;

// A seal that is refused, and the job of the token that comes back.
#[derive(Clone, Copy, PartialEq, Eq, Debug)]
pub struct HandedBack {
    pub refusal: Refusal,
    pub job: u64,
}

// What a run says to a token of another job, to its own, and to the other one again, which is then withdrawn.
#[derive(Clone, Copy, PartialEq, Eq, Debug)]
pub struct Exchange {
    pub early: HandedBack,
    pub own: Verdict,
    pub late: HandedBack,
    pub withdrawn: Withdrawn,
}

// Opens two runs, and seals the first with the token of the second, with its own, and with that of the second again.
pub fn spend_tokens<
    K: Keeper + Drop,
    S: Store<Key = Cell, Value = History> + Drop,
    N: Store<Key = u64, Value = u64> + Drop,
>(first: Opening<K, S, N>, second: Opening<K, S, N>) -> Exchange
    requires { first.job ≢ second.job }
    ensures { result ≡ exchanged first.job second.job }
{
    let (mut run, own) = first.open();
    let (_other, token) = second.open();
    let Err((early, token)) = run.seal(token) else {
        unreachable!()
    };
    let early_job = token.job();
    let Ok(own) = run.seal(own) else {
        unreachable!()
    };
    let Err((late, token)) = run.seal(token) else {
        unreachable!()
    };
    let late_job = token.job();
    Exchange {
        early: HandedBack {
            refusal: early,
            job: early_job,
        },
        own,
        late: HandedBack {
            refusal: late,
            job: late_job,
        },
        withdrawn: token.withdraw(),
    }
}

impl fmt::Display for HandedBack {
    ghost output = { λ h. Some (handed_text h) };

    fn fmt<W: fmt::Write>(&self, f: &mut fmt::Formatter<W>) -> fmt::Result {
        write!(f, "{}, token of job {} back", self.refusal, self.job)
    }
}

impl fmt::Display for Exchange {
    ghost output = { exchange_shown };

    fn fmt<W: fmt::Write>(&self, f: &mut fmt::Formatter<W>) -> fmt::Result {
        write!(
            f,
            "{}; {}; {}; {}",
            self.early, self.own, self.late, self.withdrawn
        )
    }
}
