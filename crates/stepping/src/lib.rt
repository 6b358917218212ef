// One step of the plain machine.
#![tactic(auto)]

pub mod leave;
pub mod moves;
pub mod returning;
pub mod sending;
pub mod step;
pub mod windowed;
