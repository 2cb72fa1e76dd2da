// Conflicts, chains, races and the verdict by their meaning, and how a verdict is found; no code.
#![tactic(auto)]
