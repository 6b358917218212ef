// Calls, returns and throws of the plain machine.
#![tactic(auto)]

pub mod athrow;
pub mod calling;
pub mod ends;
pub mod entering;
pub mod entry;
pub mod landing;
pub mod leaving;
pub mod popping;
pub mod throwing;
