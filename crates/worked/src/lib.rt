// No code: the table of all that was worked by hand, P1 to P10, stands in specs/.
#![tactic(auto)]
