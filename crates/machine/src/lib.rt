//! The original machine: a guest's harts, its memory and its system, from the state before the first step on.
//!
//! `specs/Start.antt` says what stands before the first step, and `specs/Loaded.antt` what memory then holds place by place;
//! `specs/Steps.antt` says what a step of a hart leaves, and `specs/Harts.antt` what becomes of the other harts. A step takes the
//! fetched word and the meaning of links as arguments, so that a machine whose code has been moved is the same definition.
#![tactic(auto)]

mod harts;
pub mod machine;
pub mod outcome;
mod start;

/// The first address of the stack.
pub const STACK_START: u64 = 0x0f80_0000;

/// The end of the stack, and of the guest's addresses.
pub const STACK_END: u64 = 0x1000_0000;

/// What the stack pointer, x2, holds before the first step.
pub const STACK_POINTER: u64 = 0x0fff_ff70;

/// The address of the program's name.
pub const NAME_AT: u64 = 0x0fff_fff8;
