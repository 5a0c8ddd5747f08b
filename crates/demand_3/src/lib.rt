// Demand 3 holds of our card: from facts of one call each, for any card that has them. No code.
#![tactic(auto)]
