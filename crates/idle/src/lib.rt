// Visits that do nothing, over the rules' definitions: see specs/ and proofs/. No code.
#![tactic(auto)]
