// Laws of races, without code: the races of a trace are the same pairs of rows in every allowed order of its rows, the reordered rows are a trace
// too, and which model's freedom includes which.
#![tactic(auto)]
