// A method of the bundle, and where what was read of it stands. Positions are the bundle's.
#[derive(Clone, Copy)]
pub struct Site {
    pub classes: usize,
    pub class: usize,
    pub method: usize,
    // How often Code stands, 2 for more than once; its sizes, its code from `start` to `end`, its handlers from `table` on.
    pub codes: usize,
    pub stack: usize,
    pub locals: usize,
    pub start: usize,
    pub end: usize,
    pub table: usize,
    pub entries: usize,
    // How often a StackMapTable stands in it, 2 for more than once; its content from `frames` to `last`.
    pub tables: usize,
    pub frames: usize,
    pub last: usize,
    pub constructor: bool,
    pub fixed: bool,
}

// A ruling on a method: 0, or a verdict's number and its place.
#[derive(Clone, Copy)]
pub struct Ruled {
    pub number: u32,
    pub place: usize,
}
