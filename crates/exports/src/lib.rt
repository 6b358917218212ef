// The functions that other languages call; the archive of them is the crate exports_c.
#![tactic(auto)]

pub mod outlet;
