//! Tests of what is to be seen of programs: guests as text, assembled and looked at.
#![tactic(auto)]

#[cfg(test)]
mod tests;
