// No code: the buyer's demands as theorems about the promises stand in specs/.
#![tactic(auto)]
