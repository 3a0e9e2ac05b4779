// A file of cases, for the programs that run them: its lines and their fields, the bytes that a field describes, and what is printed.
#![tactic(auto)]

pub mod delta;
pub mod fields;
pub mod make;
pub mod say;
