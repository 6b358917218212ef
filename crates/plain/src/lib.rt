// The plain machine. The definitions are in specs/.
#![tactic(auto)]

pub mod arguments;
pub mod calls;
pub mod catching;
pub mod forms;
pub mod frames;
pub mod groups;
pub mod heap;
pub mod integers;
pub mod memory;
pub mod objects;
pub mod values;
pub mod window;
