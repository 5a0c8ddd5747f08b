// What demand 3 says of sessions through the card's entries, what follows of it, and an example.
#![tactic(auto)]
