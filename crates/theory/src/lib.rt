#![tactic(auto)]

// Terms, substitution, unification and matching as mathematics: all of it stands in specs/.
