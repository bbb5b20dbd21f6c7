//! The terms of every layer: process numbers, registers, the clock packet, names, and the memory
//! that a program can reach, with names that it gives by their addresses.
#![tactic(auto)]

pub mod call;
pub mod calls;
pub mod errors;
pub mod limits;
pub mod memory;
pub mod name;
pub mod name_fault;
pub mod read;
pub mod registers;
