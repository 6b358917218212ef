// Phase C, and what later phases find in the scratch. The definitions are in specs/.
#![tactic(auto)]

pub mod asks;
pub mod locate;
pub mod marks;
pub mod phases;
pub mod resolve;
pub mod shape;
pub mod whole;
