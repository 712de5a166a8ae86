//! Regions that are free, and that calls reach from all of the text.
#![tactic(auto)]

mod gap;
pub mod near;
mod pages;
pub mod region;

/// The size of a page: a region has whole ones.
const PAGE: u64 = 4096;

/// How many pages the guest's space has, the first of them never free.
const PAGES: usize = 0x8000;
