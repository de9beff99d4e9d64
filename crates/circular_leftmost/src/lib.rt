// No code: on a ring the start state is leftmost, in specs/.
#![tactic(auto)]
