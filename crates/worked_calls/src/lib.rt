// No code: calls of document 01's worked drawings, computed over the definitions of their answers, in specs/.
#![tactic(auto)]
