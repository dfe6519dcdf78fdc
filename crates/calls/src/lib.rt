// A call over the lent tables by its order, and what every call answers: up to two numbers, or the name of its refusal
// (SCOPE.md, 'Numbers of refusal').
#![tactic(auto)]

use refusals::Refusal;

// The two numbers that a call tells; what it has none of is 0.
#[derive(Clone, Copy, Debug, PartialEq, Eq)]
pub struct Numbers {
    pub first: usize,
    pub second: usize,
}

pub type Reply = Result<Numbers, Refusal>;

// A call and its number: a slot, or the number of a relation, which may be any (refusal 3 tells). Nothing orders no
// call; it is one order among seven and no Option, so that a line has one match over what was ordered.
#[derive(Clone, Copy, Debug, PartialEq, Eq)]
pub enum Order {
    Open,
    Insert,
    Delete(usize),
    WithKey,
    Retrieve(usize),
    Solve(usize),
    Nothing,
}
