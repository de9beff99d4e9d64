// No code: routing as document 01's plain run, in specs/.
#![tactic(auto)]
