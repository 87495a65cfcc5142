// What C is given (crates/engine_c has the exports): functions on byte slices, with numbers for answers, a file for each.
#![tactic(auto)]

pub mod editions;
pub mod lower;
pub mod pack_lower;
pub mod pack_sheet;
pub mod pack_totals;
pub mod plain_test;
