// The values of one part, with the numbers that C has in them. A position is kept as its number plus 32,768. An absent variable space is 65,535.

// A place on the sheet: I along the lines, B down the page.
#[repr(C)]
#[derive(Clone, Copy, PartialEq, Eq, Debug, Default)]
pub struct Point {
    pub i: u32,
    pub b: u32,
}

// What a job was opened with. Its points are plain numbers, with no origin.
#[repr(C)]
#[derive(Clone, Copy, PartialEq, Eq, Debug, Default)]
pub struct Descriptor {
    pub size: Point,
    pub initial: Point,
    pub margin: u32,
    pub increment: u32,
    pub adjustment: u32,
    pub direction: u32,
    pub font: u32,
    pub colour: u32,
    pub rule: u32,
    pub hidden: u32,
}

// Where a job stands.
#[repr(C)]
#[derive(Clone, Copy, PartialEq, Eq, Debug)]
pub struct State {
    pub at: Point,
    pub margin: u32,
    pub increment: u32,
    pub adjustment: u32,
    pub direction: u32,
    pub font: u32,
    pub colour: u32,
    pub space: u32,
    pub suppression: u32,
    pub chain: u32,
    pub used: u32,
}

// A code, as C's number, and two numbers.
#[repr(C)]
#[derive(Clone, Copy, PartialEq, Eq, Debug)]
pub struct Answer {
    pub code: u32,
    pub first: u32,
    pub second: u32,
}

// The answer to a part, and the state to go on from.
#[repr(C)]
#[derive(Clone, Copy, PartialEq, Eq, Debug)]
pub struct Interpreted {
    pub answer: Answer,
    pub state: State,
}
