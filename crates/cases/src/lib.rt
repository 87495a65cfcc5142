#![tactic(auto)]

// The twelve cases of the specification are one table, and those of the plain test another; both are proved over the definitions.
