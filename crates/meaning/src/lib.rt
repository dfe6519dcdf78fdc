#![tactic(auto)]

// What the tables mean: the calls on lent tables are the calls on stores; no code.
