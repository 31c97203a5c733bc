// Definitions and laws of what is printed (specs/): the line of an answer, the batch and its report. How far a report is, which the code keeps, is here.
#![tactic(auto)]

// How long a printed line can be, as specs/Limits.antt has it: the line of an answer, and the last line of a report.
pub const MOST_LINE: usize = 93;

pub const MOST_TOTAL: usize = 112;

// The entries accepted and refused so far, and the accepted ones' cost before and after.
#[derive(Clone, Copy, PartialEq, Eq, Default)]
pub struct Sums {
    pub accepted: usize,
    pub refused: usize,
    pub before: usize,
    pub after: usize,
}

// How far a report is: the head is to come; so many entries are to come; or it is refused with 75, whatever comes.
#[derive(Clone, Copy, PartialEq, Eq)]
pub enum Progress {
    Head,
    Entries(usize, Sums),
    Stopped,
}

// What a step did: how far the report is then, how many bytes it took and how many it printed.
#[derive(Clone, Copy, PartialEq, Eq)]
pub struct Taken {
    pub progress: Progress,
    pub bytes: usize,
    pub printed: usize,
}
