// No code: what a document of the subset is, its tree and the place of code 3 stand in specs/, their laws in proofs/.
#![tactic(auto)]
