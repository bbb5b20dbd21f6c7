//! The volumes mounted on the drives of a machine, and the calls that read and change their files,
//! each on the drive of its file alone; and laws: a creation or a deletion on a volume leaves what
//! the calls on files say.
#![tactic(auto)]

pub mod changes;
pub mod disks;
