// What reading and writing a record promise, of the texts of good records alone. Theorems; no code.
#![tactic(auto)]
