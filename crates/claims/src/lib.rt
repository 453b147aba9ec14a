// What is claimed of whole lists of commands, in specs/, and its proof, in proofs/. No code.
#![tactic(auto)]
