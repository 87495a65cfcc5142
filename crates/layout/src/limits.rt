// The limits of tables, sheet and pack. specs/Limits.antt names the same numbers for the definitions.
pub const MOST_STRINGS: u64 = 256;

pub const MOST_FLOATS: u64 = 256;

pub const MOST_VARIABLES: u64 = 256;

pub const MOST_PARAMETERS: u64 = 256;

pub const MOST_LABELS: u64 = 256;

pub const MOST_INSTRUCTIONS: u64 = 4096;

// These are the arguments of one call.
pub const MOST_ARGUMENTS: u64 = 64;

// This is the largest count of an array, and the largest offset of a variable.
pub const MOST_COUNT: u64 = 1048576;

// These are the sheets of a pack.
pub const MOST_SHEETS: u64 = 256;
