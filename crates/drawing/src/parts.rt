//! What is drawn.

use oc_base::items::Items;

/// A basic block, from `from` up to, but not with, `to`, and how often it ran.
#[derive(Clone, Copy, Debug, PartialEq, Eq)]
pub struct Block {
    pub from: u64,
    pub to: u64,
    pub count: u64,
}

/// A function with its blocks. One that can't be cut into blocks has one block that never ran.
#[derive(Debug, Drop)]
pub struct Function {
    pub number: u32,
    pub name: Items<u8>,
    pub blocks: Items<Block>,
}

/// Where a block lies in a layout, by the places of its function and of itself in their lists.
#[derive(Clone, Copy, Debug, PartialEq, Eq)]
pub struct Place {
    pub function: u32,
    pub block: usize,
    pub from: u64,
    pub to: u64,
}

/// A layout, by its number, from `base` up to, but not with, `to`. A block may lie at several places of it.
#[derive(Debug, Drop)]
pub struct Layout {
    pub number: u64,
    pub base: u64,
    pub to: u64,
    pub places: Items<Place>,
}

/// The functions of a program, and its layouts.
#[derive(Debug, Drop)]
pub struct Drawing {
    pub functions: Items<Function>,
    pub layouts: Items<Layout>,
}
