// No code: what demand 3 of document 01 says of the slices that routing fills, in specs/ and proofs/.
#![tactic(auto)]
