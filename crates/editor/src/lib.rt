// No code: what document 02 says of a sheet written afresh, over what `write_sheet` leaves, in specs/.
#![tactic(auto)]
