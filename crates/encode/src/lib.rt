// No code: the sheet of a graph, and what holds of it.
#![tactic(auto)]
