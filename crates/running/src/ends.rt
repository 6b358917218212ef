// How a run goes on, or ends.
use plain::frames::Frame;

// What a run returns, as a cell, or 0 for nothing; the class that nothing caught; no room; or nothing said how to go on.
#[derive(Clone, Copy, Debug, PartialEq, Eq)]
pub enum End {
    Returned(u32),
    Uncaught(u32),
    HeapFull,
    DepthFull,
    Stuck,
}

// An end, and how much of the heap is used then.
#[derive(Clone, Copy, Debug, PartialEq, Eq)]
pub struct Ended {
    pub end: End,
    pub used: u32,
}

// On in a call at its depth.
#[derive(Clone, Copy)]
pub struct Moved {
    pub depth: usize,
    pub call: Frame,
    pub used: u32,
}

pub type Move = Result<Moved, Ended>;
