// No code: what document 02 says of the limits, over what the calls answer and leave, in specs/.
#![tactic(auto)]
