// What the card's own moves leave passes the check of a conversion. Theorems; no code.
#![tactic(auto)]
