//! The processes of the machine: their memory, their records, their turns, and the other data of
//! each; who is Ready, and the choice of the next process among them (Level Two manual, process
//! scheduling).
#![tactic(auto)]

mod bytes;
pub mod choice;
mod columns;
mod delivery;
mod ends;
mod frame;
mod links;
mod making;
mod new;
pub mod outcome;
mod ready;
pub mod regs;
pub mod state;
mod turns;
