//! The words of `ocolos_look`: the name of a program's file and options, read as one simple command.
#![tactic(auto)]

mod command;
pub mod words;
