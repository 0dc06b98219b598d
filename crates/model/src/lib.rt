// No code: what a reader must believe of the period tool stands in specs/, one noun a file.
#![tactic(auto)]
