//! Worked rows of crates that no program shows: ages, who waits for a record, the codes of a refused
//! decoding, times far away, hosts, real files, segments of disks, messages, and the programs and
//! images of a stress. What a program shows is a row of one of the programs of vectors.
#![tactic(auto)]

#[cfg(test)]
mod tests;
