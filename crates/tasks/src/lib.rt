// What the field at a place of the log orders (SCOPE.md, 'The log program').
#![tactic(auto)]

ghost use Rattle.std.specs.Prelude.{◌≡◌, Bool, ℕ, ◌≤◌, ◌<◌, ◌-◌, length, drop, eqb};
ghost use Rattle.std.proofs.Math.Option.{none};
ghost use Rattle.laws.specs.Choice.{pick};
ghost use Rattle.tasks.specs.Operations.{first_operation, later_operation, delete_operation, retrieve_operation};
ghost use Rattle.tasks.specs.Operations.{solve_operation, payload};
ghost use Rattle.tasks.specs.Ordered.{fixed_part, InLog, operation_of, Ordered, operation_at, place_past};

use calls::Order;
use laws::{INPUT, number_at};
use logfields::{Field, Taken};

// An order, where the rest of its payload starts and ends, which is where the next field starts.
#[derive(Clone, Copy)]
pub struct Task {
    pub order: Order,
    pub start: usize,
    pub end: usize,
}

// Tag 3: exactly two bytes of slot.
fn delete_order(payload: &[u8]) -> Order
    ensures { Ordered result payload.now (delete_operation payload.now) }
{
    if payload.len() == 2 {
        return Order::Delete(number_at(payload, 0));
    }
    Order::Nothing
}

// Tag 4: one byte of relation, and a term.
fn retrieve_order(payload: &[u8]) -> Order
    ensures { Ordered result payload.now (retrieve_operation payload.now) }
{
    if 1 <= payload.len() {
        return Order::Retrieve(payload[0] as usize);
    }
    Order::Nothing
}

// Tag 5: two bytes of slot, and a term.
fn solve_order(payload: &[u8]) -> Order
    ensures { Ordered result payload.now (solve_operation payload.now) }
{
    if 2 <= payload.len() {
        return Order::Solve(number_at(payload, 0));
    }
    Order::Nothing
}

// A field after the first, which is no signature.
#[tactic(auto, unfolding(crate::specs::Operations::later_operation))]
fn later_order(tag: u8, payload: &[u8]) -> Order
    ensures { Ordered result payload.now (later_operation tag payload.now) }
{
    match tag {
        2 => Order::Insert,
        3 => delete_order(payload),
        4 => retrieve_order(payload),
        5 => solve_order(payload),
        _ => Order::Nothing,
    }
}

// The first field is a signature, and no other is.
#[tactic(auto, unfolding(crate::specs::Operations::first_operation))]
fn order_of(first: bool, tag: u8, payload: &[u8]) -> Order
    ensures { Ordered result payload.now
        (pick first (first_operation tag payload.now) (later_operation tag payload.now)) }
{
    match (first, tag) {
        (false, _) => later_order(tag, payload),
        (true, 1) => Order::Open,
        (true, _) => Order::Nothing,
    }
}

// The bytes of an order's fixed part.
fn fixed(order: Order) -> usize
    ensures { result ≡ fixed_part order }
{
    match order {
        Order::Delete(_) | Order::Solve(_) => 2,
        Order::Retrieve(_) => 1,
        Order::Open | Order::Insert | Order::WithKey | Order::Nothing => 0,
    }
}

// What stands at a place: a cut field orders nothing, and so does an input of more than 65,535 bytes.
#[tactic(auto, unfolding(crate::specs::Ordered::operation_at, crate::specs::Ordered::place_past))]
pub fn task_at(input: &[u8], at: usize) -> Task
    ensures { (result.start ≤ result.end) × (result.end ≤ length input.now)
        × (result.end ≡ place_past input.now at)
        × InLog result.order
        × (operation_of result.order (payload input.now result.start (result.end - result.start))
        ≡ operation_at input.now at) }
{
    if INPUT < input.len() {
        return Task {
            order: Order::Nothing,
            start: 0,
            end: input.len(),
        };
    }
    let Taken { field, place: end } = logfields::read(input, at);
    match field {
        Field::End | Field::Cut => Task {
            order: Order::Nothing,
            start: 0,
            end,
        },
        Field::Whole { tag, start, .. } => {
            let order = order_of(at == 0, tag, &input[start..end]);
            Task {
                order,
                start: start + fixed(order),
                end,
            }
        }
    }
}
