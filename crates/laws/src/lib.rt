// No code: the laws that the other crates cite, in specs/ and proofs/.
#![tactic(auto)]
