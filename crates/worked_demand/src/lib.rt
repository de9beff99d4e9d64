// No code: demand 3 on two sheets that differ in one line of one arrow, computed, in specs/.
#![tactic(auto)]
