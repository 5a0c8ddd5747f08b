// How many blocks of a keystream a run of its bits uses, and two runs (document 02, [10]). No code.
#![tactic(auto)]
