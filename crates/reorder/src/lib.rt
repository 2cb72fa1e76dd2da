// Rows under another numbering: where the direct edges go along both ways, happens-before, races and a free verdict do too; no code.
#![tactic(auto)]
