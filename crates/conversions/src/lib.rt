// What the check of a conversion promises, of records and pairs alone. Theorems; no code.
#![tactic(auto)]
