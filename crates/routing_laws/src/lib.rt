// No code: what holds of routing, and the laws that join its plain run with the passes that the code runs, in specs/ and proofs/.
#![tactic(auto)]
