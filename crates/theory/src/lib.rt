// No code: the laws of what `model` defines stand in specs/.
#![tactic(auto)]
