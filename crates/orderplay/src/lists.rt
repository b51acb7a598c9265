// Lists of calls: at random, and long ones of some shapes.
ghost use Rattle.std.specs.Prelude.{◌≡◌, ◌++◌, replicate, IfOk, OnOk, Some};
ghost use Rattle.orderplay.specs.Lists.{call_of, any_calls, after_any, chain_of, nested_of, wide_of, row_of, ends_of, deep_of};
ghost use Rattle.orderplay.specs.Lists.{shape_calls, shape_text};

use crate::dice::Dice;
use order::OrderCall;
use std::alloc::{AllocError, Global};
use std::fmt;

// The call of a kind, from 0 to 15, by a task.
fn call_of(kind: u32, task: u64) -> OrderCall
    ensures value { result ≡ call_of kind task }
{
    if kind < 6 {
        OrderCall::Spawn { task }
    } else if kind < 10 {
        OrderCall::Open { task }
    } else if kind < 14 {
        OrderCall::Close { task }
    } else {
        OrderCall::End { task }
    }
}

// So many calls, of kinds and tasks that the dice give: of the tasks 0 to 5, more often one of the first.
pub fn any_calls(alloc: Global, dice: &mut Dice, count: u32) -> Result<Vec<OrderCall>, AllocError>
    ensures made { IfOk result (λ v. v.items ≡ any_calls dice.old count) }
    ensures rolled { OnOk result (dice.new ≡ after_any dice.old count) }
{
    let mut calls = Vec::new(alloc);
    for _call in 0..count {
        let kind = dice.roll(15);
        let last = dice.roll(5);
        let task = dice.roll(last);
        calls.push(call_of(kind, u64::from(task)))?;
    }
    Ok(calls)
}

// Adds a call so many times.
fn push_times(calls: &mut Vec<OrderCall>, call: OrderCall, times: u32) -> Result<(), AllocError>
    ensures { OnOk result (calls.new.items ≡ calls.old.items ++ replicate times call) }
{
    for _time in 0..times {
        calls.push(call)?;
    }
    Ok(())
}

// Each task, from 0 on, makes the next.
fn chain(alloc: Global, n: u32) -> Result<Vec<OrderCall>, AllocError>
    ensures { IfOk result (λ v. v.items ≡ chain_of n) }
{
    let mut calls = Vec::new(alloc);
    for i in 0..n {
        calls.push(OrderCall::Spawn { task: u64::from(i) })?;
    }
    Ok(calls)
}

// Task 0 opens so many finishes, each in the last, and closes them.
fn nested(alloc: Global, n: u32) -> Result<Vec<OrderCall>, AllocError>
    ensures { IfOk result (λ v. v.items ≡ nested_of n) }
{
    let mut calls = Vec::new(alloc);
    push_times(&mut calls, OrderCall::Open { task: 0 }, n)?;
    push_times(&mut calls, OrderCall::Close { task: 0 }, n)?;
    Ok(calls)
}

// Task 0 opens a finish, makes so many tasks there, of which each ends before the next is made, and closes it.
fn wide(alloc: Global, n: u32) -> Result<Vec<OrderCall>, AllocError>
    ensures { IfOk result (λ v. v.items ≡ wide_of n) }
{
    let mut calls = vec![in alloc; OrderCall::Open { task: 0 }]?;
    for i in 0..n {
        calls.push(OrderCall::Spawn { task: 0 })?;
        calls.push(OrderCall::End {
            task: u64::from(i) + 1,
        })?;
    }
    calls.push(OrderCall::Close { task: 0 })?;
    Ok(calls)
}

// Task 0 opens so many finishes, one after the other, each closed after two tasks.
fn row(alloc: Global, n: u32) -> Result<Vec<OrderCall>, AllocError>
    ensures { IfOk result (λ v. v.items ≡ row_of n) }
{
    let mut calls = Vec::new(alloc);
    for i in 0..n {
        let made = 2 * u64::from(i);
        calls.extend_from_slice(&[
            OrderCall::Open { task: 0 },
            OrderCall::Spawn { task: 0 },
            OrderCall::Spawn { task: 0 },
            OrderCall::End { task: made + 1 },
            OrderCall::End { task: made + 2 },
            OrderCall::Close { task: 0 },
        ])?;
    }
    Ok(calls)
}

// The tasks from `n` down end, each in the finish of the one before, which closes it.
fn push_ends(calls: &mut Vec<OrderCall>, n: u32) -> Result<(), AllocError>
    ensures { OnOk result (calls.new.items ≡ calls.old.items ++ ends_of n) }
{
    for i in (0..n).rev() {
        let task = u64::from(i);
        calls.push(OrderCall::End { task: task + 1 })?;
        calls.push(OrderCall::Close { task })?;
    }
    Ok(())
}

// Each task, from 0 on, opens a finish and makes the next task in it; and then they end and close them.
fn deep(alloc: Global, n: u32) -> Result<Vec<OrderCall>, AllocError>
    ensures { IfOk result (λ v. v.items ≡ deep_of n) }
{
    let mut calls = Vec::new(alloc);
    for i in 0..n {
        let task = u64::from(i);
        calls.push(OrderCall::Open { task })?;
        calls.push(OrderCall::Spawn { task })?;
    }
    push_ends(&mut calls, n)?;
    Ok(calls)
}

// The shape of a long list, and how long it is.
#[derive(Clone, Copy, PartialEq, Eq, Debug)]
pub enum Shape {
    // tasks, each made by the one before
    Chain(u32),
    // finishes of task 0, each in the last
    Nested(u32),
    // tasks in one finish
    Wide(u32),
    // finishes one after the other
    Row(u32),
    // finishes, each of a task that was made in the last
    Deep(u32),
}

impl Shape {
    // The shapes that are played.
    pub const ALL: [Shape; 5] = [
        Shape::Chain(300),
        Shape::Nested(300),
        Shape::Wide(300),
        Shape::Row(40),
        Shape::Deep(150),
    ];

    // The list.
    pub fn calls(self, alloc: Global) -> Result<Vec<OrderCall>, AllocError>
        ensures { IfOk result (λ v. v.items ≡ shape_calls self) }
    {
        match self {
            Shape::Chain(n) => chain(alloc, n),
            Shape::Nested(n) => nested(alloc, n),
            Shape::Wide(n) => wide(alloc, n),
            Shape::Row(n) => row(alloc, n),
            Shape::Deep(n) => deep(alloc, n),
        }
    }
}

impl fmt::Display for Shape {
    ghost output = { λ s. Some (shape_text s) };

    fn fmt<W: fmt::Write>(&self, f: &mut fmt::Formatter<W>) -> fmt::Result {
        match self {
            Shape::Chain(n) => write!(f, "{n} tasks, each made by the one before"),
            Shape::Nested(n) => write!(f, "{n} finishes of one task, each in the last"),
            Shape::Wide(n) => write!(f, "{n} tasks in one finish"),
            Shape::Row(n) => write!(f, "{n} finishes, one after the other"),
            Shape::Deep(n) => write!(f, "{n} finishes, each of a task made in the last"),
        }
    }
}
