// Events at the front of bytes.
ghost use Rattle.std.specs.Prelude.{[], ◌∷◌, MatchResult};
ghost use Rattle.record.specs.Numbers.{NumbersRead, NumbersRefused};
ghost use Rattle.record.specs.Kinds.{byte_of};
ghost use Rattle.record.specs.Events.{EventRead, EventRefused};
ghost use Rattle.record.specs.Answers.{Answer, OnlyAnswer};

use crate::fault::ByteFault;
use crate::kind::Kind;
use crate::number::read_number;
use model::{Cell, Event};

// A cell, and the bytes after it.
fn read_cell(bytes: &[u8]) -> Result<(Cell, &[u8]), ByteFault>
    ensures { MatchResult result
        (λ p. NumbersRead bytes.now (p.0.mailbox ∷ p.0.block ∷ []) p.1.now)
        (λ f. NumbersRefused 2 bytes.now f) }
{
    let (mailbox, rest) = read_number(bytes)?;
    let (block, rest) = read_number(rest)?;
    Ok((Cell { mailbox, block }, rest))
}

// The event of a kind, from the bytes after its kind byte. Each variant is made in an arm of its own: no value stands for a
// variant's name.
fn read_body(kind: Kind, bytes: &[u8]) -> Result<(Event<Cell>, &[u8]), ByteFault>
    ensures { Answer EventRead EventRefused (byte_of kind ∷ bytes.now) result }
{
    let (task, rest) = read_number(bytes)?;
    match kind {
        Kind::Spawn => {
            let (child, rest) = read_number(rest)?;
            Ok((Event::Spawn { task, child }, rest))
        }
        Kind::End => Ok((Event::End { task }, rest)),
        Kind::Open => Ok((Event::Open { task }, rest)),
        Kind::Close => Ok((Event::Close { task }, rest)),
        Kind::Read => {
            let (cell, rest) = read_cell(rest)?;
            Ok((Event::Read { task, cell }, rest))
        }
        Kind::Write => {
            let (cell, rest) = read_cell(rest)?;
            Ok((Event::Write { task, cell }, rest))
        }
    }
}

// The event at the front of `bytes`, and the bytes after it.
pub fn read_event(bytes: &[u8]) -> Result<(Event<Cell>, &[u8]), ByteFault>
    ensures answered { Answer EventRead EventRefused bytes.now result }
    ensures only { OnlyAnswer EventRead EventRefused bytes.now result }
{
    let (byte, rest) = bytes.split_first().ok_or(ByteFault::Short)?;
    read_body(Kind::try_from(*byte)?, rest)
}
