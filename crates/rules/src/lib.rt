// What each instruction asks of a state and leaves. The definitions are in specs/.
#![tactic(auto)]

pub mod calls;
pub mod codes;
pub mod decode;
pub mod dispatch;
pub mod forms;
pub mod frames;
pub mod handlers;
pub mod instruction;
pub mod opcodes;
pub mod site;
pub mod slots;
pub mod steps;
pub mod types;
