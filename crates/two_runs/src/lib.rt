// Demand 3: two runs of a card's calls. The statement, of any card, and the wrong cards that do not have it. No code.
#![tactic(auto)]
