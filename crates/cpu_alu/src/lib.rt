//! The arithmetic of the MC6809: the result of each operation and the flags after it.
//!
//! Each function takes its operands and the flags before the operation, and returns the result and
//! the flags after it. A flag that the operation does not set is unchanged (MC6809 programming
//! manual, appendix A).
#![tactic(auto)]

pub use arithmetic::{add8, add16, daa, dec8, inc8, mul, neg8, sex, sub8, sub16};
pub use condition::{flags_of, with_flags};
pub use cpu_model::flags::Flags;
pub use logic::{clr8, com8, lea, logic8, logic16};
pub use shift::{asl8, asr8, lsr8, rol8, ror8};

mod arithmetic;
mod condition;
mod logic;
mod shift;
