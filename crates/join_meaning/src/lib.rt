// Two files of one shelf joined into one trace, by their meaning, and what the join has in common with every other merging of the two files; no
// code.
#![tactic(auto)]
