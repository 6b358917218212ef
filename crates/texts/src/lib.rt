// Numbers and texts at a position. The definitions are in specs/.
#![tactic(auto)]

pub mod faults;
pub mod items;
pub mod names;
