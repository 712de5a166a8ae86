//! Counts that one thread shows and any thread looks at, without a lock.
#![tactic(auto)]

#[cfg(test)]
mod tests;
pub mod watch;
