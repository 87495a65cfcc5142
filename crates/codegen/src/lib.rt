// This is Krc's lowering (src/codegen): specs/ has its definitions, one module for each of its four files. Its functions are in the crates above; here are
// those alone that ask for no look-up: the registers of parameters and arguments, and the unsigned shorts.
#![tactic(auto)]

pub mod registers;
pub mod shorts;
