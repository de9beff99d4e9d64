// No code: what document 02 says of accents, over the calls, in specs/ and proofs/.
#![tactic(auto)]
