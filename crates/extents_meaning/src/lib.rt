// What a map of pieces means, byte by byte; no code.
#![tactic(auto)]
