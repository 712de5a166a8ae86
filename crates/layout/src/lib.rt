//! Layouts of moved code: what each of their words stands for, and whether their words render the original ones.
#![tactic(auto)]

pub mod bases;
pub mod calls;
pub mod layout;
pub mod point;
pub mod renders;
mod rows;
