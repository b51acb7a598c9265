// The token of a run.
ghost use Rattle.std.specs.Prelude.{◌≡◌, Some, IsTrue};
ghost use Rattle.run.specs.Tokens.{token_of};
ghost use Rattle.run.specs.Shown.{withdrawn_text};

use std::fmt;

// What a run gives when it is opened, made for its job. It is spent by sealing the run, or by withdrawing it.
#[derive(Debug)]
pub struct Token {
    job: u64,
    spent: bool,
}

// Only a token that is spent can be let go. No caller has one: what spends a token takes it.
impl Drop for Token {
    fn drop(self)
        requires spent { IsTrue self.spent }
    {
        let Token { job: _, spent: _ } = self;
    }
}

impl Token {
    pub(crate) fn new(job: u64) -> Token
        ensures value { result ≡ token_of job }
    {
        Token { job, spent: false }
    }

    // The job that it was made for.
    pub fn job(&self) -> u64
        ensures value { result ≡ self.now.job }
    {
        self.job
    }

    // Spends it, and lets it go.
    pub(crate) fn spend(self) -> u64
        ensures value { result ≡ self.job }
    {
        let mut token = self;
        token.spent = true;
        token.job
    }

    // Spends it without a verdict.
    pub fn withdraw(self) -> Withdrawn
        ensures job { result.job ≡ self.job }
    {
        Withdrawn { job: self.spend() }
    }
}

// What is told of a run whose token was withdrawn.
#[derive(Clone, Copy, PartialEq, Eq, Debug)]
pub struct Withdrawn {
    pub job: u64,
}

impl fmt::Display for Withdrawn {
    ghost output = { λ w. Some (withdrawn_text w) };

    fn fmt<W: fmt::Write>(&self, f: &mut fmt::Formatter<W>) -> fmt::Result {
        write!(f, "job {} withdrawn", self.job)
    }
}
