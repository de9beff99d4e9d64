// No code: what a listing shows, by document 01, in specs/.
#![tactic(auto)]
