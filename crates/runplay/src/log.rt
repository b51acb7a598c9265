// A list of calls with what each is answered, and how both are shown.
ghost use Rattle.std.specs.Prelude.{◌≡◌, IfOk, map};
ghost use Rattle.runplay.specs.Logs.{unmade, lead_at, call_shown, told_shown, calls_shown, log_shown};

use model::{Call, Cell};
use run::{Asked, Reply};
use std::alloc::{AllocError, Global};
use std::fmt;

#[derive(Drop)]
pub struct Log {
    pub asked: Vec<Asked>,
}

impl Log {
    // The calls, of which none is made yet.
    pub fn new(alloc: Global, calls: &[Call<Cell>]) -> Result<Log, AllocError>
        ensures made { IfOk result (λ log. log.asked.items ≡ map unmade calls.now) }
    {
        let asked = calls
            .iter()
            .map(|call| Asked {
                call: *call,
                reply: None,
            })
            .collect(alloc)?;
        Ok(Log { asked })
    }
}

// What stands ahead of the item at a place of a row.
fn lead(place: usize, between: &'static str) -> &'static str
    ensures value { result.now ≡ lead_at place between.now }
{
    if place == 0 { "" } else { between }
}

// A call, to be shown.
#[derive(Clone, Copy, PartialEq, Eq, Debug)]
struct ShownCall(Call<Cell>);

impl fmt::Display for ShownCall {
    ghost output = { λ c. call_shown c.0 };

    fn fmt<W: fmt::Write>(&self, f: &mut fmt::Formatter<W>) -> fmt::Result {
        match self.0 {
            Call::Feed(event) => write!(f, "{event}"),
            Call::Seal(job) => write!(f, "seal {job}"),
        }
    }
}

// What a call is answered, to be shown.
#[derive(Clone, Copy, PartialEq, Eq, Debug)]
struct ShownReply(Option<Reply>);

impl fmt::Display for ShownReply {
    ghost output = { λ r. told_shown r.0 };

    fn fmt<W: fmt::Write>(&self, f: &mut fmt::Formatter<W>) -> fmt::Result {
        match self.0 {
            Some(reply) => write!(f, "{reply}"),
            None => write!(f, "not made"),
        }
    }
}

// A list of calls, to be shown.
#[derive(Clone, Copy, PartialEq, Eq, Debug)]
pub struct ShownCalls<'a>(pub &'a [Call<Cell>]);

impl fmt::Display for ShownCalls<'_> {
    ghost output = { λ calls. calls_shown calls.0.now };

    fn fmt<W: fmt::Write>(&self, f: &mut fmt::Formatter<W>) -> fmt::Result {
        for (place, call) in self.0.iter().enumerate() {
            write!(f, "{}{}", lead(place, ", "), ShownCall(*call))?;
        }
        Ok(())
    }
}

impl fmt::Display for Log {
    ghost output = { log_shown };

    fn fmt<W: fmt::Write>(&self, f: &mut fmt::Formatter<W>) -> fmt::Result {
        for (place, asked) in self.asked.iter().enumerate() {
            write!(f, "{}{}", lead(place, "; "), ShownReply(asked.reply))?;
        }
        Ok(())
    }
}
