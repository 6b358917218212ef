// Stretches of instructions that stay in one window.
#![tactic(auto)]

pub mod fields;
pub mod forward;
pub mod quick;
pub mod stretch;
