// No code: what the calls leave as path text is read by the SVG path grammar, in specs/.
#![tactic(auto)]
