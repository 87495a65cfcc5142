// The layout of tables and sheet is checked here. The first wrong cell in reading order is refused by 1, 2 or 3.
#![tactic(auto)]

pub mod instrs;
pub mod limits;
mod lists;
pub mod parts;
pub mod sheet;
pub mod tables;

// The lowering reads edition 1 of a sheet. In edition 2 a variable does not repeat the type of its entry.
#[derive(Clone, Copy, Debug, PartialEq, Eq)]
pub enum Edition {
    First,
    Second,
}
