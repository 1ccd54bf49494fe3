// No code: what is listed, in which order, and how it is cut short stands in specs/, the theory of the search in proofs/.
#![tactic(auto)]
