// Phase A: bytes to class files. The definitions are in specs/.
#![tactic(auto)]

pub mod bundle;
pub mod descriptors;
pub mod members;
pub mod pool;
