// The values that document 01 marks P: a table and its proof. No code.
#![tactic(auto)]
