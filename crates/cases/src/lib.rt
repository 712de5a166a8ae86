//! What tests of guests share: guests as text with their files and images, plans as text, and rows of cases.
#![tactic(auto)]

pub mod guests;
pub mod images;
pub mod layouts;
pub mod orders;
pub mod rows;
