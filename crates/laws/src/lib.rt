// The laws of the definitions stand in proofs/. No function.
#![tactic(auto)]
