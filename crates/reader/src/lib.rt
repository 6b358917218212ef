// Phases A and B: bytes to a program. The definitions are in specs/.
#![tactic(auto)]

pub mod access;
pub mod blocks;
pub mod link;
pub mod linking;
pub mod lookup;
pub mod outlet;
pub mod overriding;
pub mod printing;
pub mod prints;
pub mod scan;
pub mod signature;
pub mod types;
pub mod whole;
