// Document 01 as definitions, in specs/, and what holds of one series, in proofs/. No code.
#![tactic(auto)]
