// No code: the starred drawings, one list and one theorem over it, in specs/.
#![tactic(auto)]
