//! Tests of machines: guests of several harts, from their texts to what they leave.
#![tactic(auto)]

#[cfg(test)]
mod tests;
