// The run: the table of virtual calls, the loop, refusals and ends.
#![tactic(auto)]

pub mod dispatch;
pub mod run;
pub mod turns;
