//! Tests of harts that leave the lock and come home: guests as text.
#![tactic(auto)]

#[cfg(test)]
mod tests;
