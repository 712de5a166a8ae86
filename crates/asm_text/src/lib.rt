//! Assembler text as statements: the tokens of its lines, their operands, and what each statement says.
//!
//! Nothing here depends on where a statement stands; sections, names, addresses and faults are rv_asm's.
#![tactic(auto)]

pub mod body;
pub mod keyword;
pub mod lexer;
pub mod name;
pub mod number;
pub mod operand;
pub mod read;
pub mod statement;
#[cfg(test)]
mod tests;
pub mod token;
