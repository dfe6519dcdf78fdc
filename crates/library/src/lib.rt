#![tactic(auto)]

// The library of docs/SCOPE.md as functions on stores: definitions and theorems alone, in specs/.
