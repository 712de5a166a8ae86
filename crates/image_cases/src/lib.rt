//! Tests of images: guests as text, whose files have other numbers in some places.
#![tactic(auto)]

#[cfg(test)]
mod image_tests;
