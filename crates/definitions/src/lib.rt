#![tactic(auto)]

// Terms as trees, candidates, keys as bytes, the relations, the record: definitions that compute, and laws of them;
// no code.
