#![tactic(auto)]

// Here are the meaning of records by Intel's manual, the steps of a plain function, and what the lowered list promises, as definitions and their proofs.
