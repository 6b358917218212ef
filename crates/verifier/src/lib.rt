// Phase D and the verdict of a bundle. The definitions are in specs/.
#![tactic(auto)]

pub mod ahead;
pub mod callees;
pub mod frame_forms;
pub mod frame_reader;
pub mod frame_table;
pub mod quick;
pub mod quick_calls;
pub mod quick_names;
pub mod start;
pub mod typing;
pub mod verify;
pub mod walk;
