// Forms of text, byte by byte: what they spell, what is read by them, and where reading stops. Definitions and their laws; no code.
#![tactic(auto)]
