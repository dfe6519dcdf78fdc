// The two steps of unification that change its state: a variable bound to a node, and two nodes of one symbol joined. A
// node is an item of `pool`, which holds the terms one after another.
#![tactic(auto)]

// sig and pool stay apart everywhere: a struct's ghost field must be a bare fact, and `Given` holds a number.
mod binding;
mod merging;
mod pending;
mod walk;

pub use binding::bind;
pub use merging::merge;
pub use pending::Pending;
pub use walk::opens;
