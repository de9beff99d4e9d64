// No code: what document 02 says of the search for the reverse arrow, over sheets and over what `route` leaves, in specs/ and proofs/.
#![tactic(auto)]
