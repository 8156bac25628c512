// Numbers as bytes: unsigned LEB128 in its shortest form (docs/BYTES.md).
#![tactic(auto)]

pub mod columns;
pub mod number;
pub mod numbers;
pub mod slots;
