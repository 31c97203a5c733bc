// Definitions and laws that lie below every layer (specs/): numbers in bytes, words modulo 2^32, lent buffers and lists; bits and sets of settings; how an
// operation answers; codes, kinds and the operation table. The types of these, which every layer names, are here; the code is in the crates `base_..`.
#![tactic(auto)]

ghost use Rattle.std.specs.Prelude.{◌≡◌};
ghost use Rattle.base.specs.Refusals.{refused_by, refused_by_row, answers};

// The seven numbers that every operation of the tool returns.
#[repr(C)]
#[derive(Clone, Copy)]
pub struct Answer {
    pub number: u8,
    pub place: usize,
    pub gates: usize,
    pub wires: usize,
    pub bytes: usize,
    pub before: usize,
    pub after: usize,
}

// The rows of the table of refusals, each with the table's number.
#[derive(Clone, Copy, PartialEq, Eq)]
pub enum Row {
    RuleSize = 1,
    RuleMark = 2,
    RuleHead = 3,
    RuleCut = 4,
    UnknownCode = 5,
    NoVariable = 6,
    WrongKind = 7,
    TooDeep = 8,
    BytesLeft = 9,
    ManyGates = 10,
    ManyConditions = 11,
    PlanSize = 20,
    PlanMark = 21,
    GateCount = 22,
    PlanEnd = 23,
    GroupSize = 24,
    GroupNumbers = 25,
    InTwoGroups = 26,
    NotCostly = 27,
    NotAlike = 28,
    NotApart = 29,
    Circle = 30,
    GroupOrder = 32,
    InputCount = 40,
    InputBit = 41,
    ResultRoom = 42,
    FileRoom = 50,
    CircuitHead = 60,
    CircuitRecords = 61,
    CircuitWires = 62,
    Batch = 75,
}

// A refusal: its row, and the place that it names.
#[derive(Clone, Copy, PartialEq, Eq)]
pub struct Refusal(pub Row, pub usize);

impl Row {
    // The refusal by this row at a place.
    pub fn at(self, place: usize) -> Refusal
        ensures { result ≡ record { 0 = self; 1 = place } }
    {
        Refusal(self, place)
    }
}

// A row that names no place has the place 0.
impl From<Row> for Refusal {
    ghost from_gives = { refused_by_row };

    fn from(row: Row) -> Refusal {
        Refusal(row, 0)
    }
}

// The counts of a success, those that the operation works out; the others are 0.
#[derive(Clone, Copy, PartialEq, Eq, Default)]
pub struct Counts {
    pub gates: usize,
    pub wires: usize,
    pub bytes: usize,
    pub before: usize,
    pub after: usize,
}

// A refusal counts nothing.
impl From<Refusal> for Answer {
    ghost from_gives = { refused_by };

    fn from(refusal: Refusal) -> Answer {
        Answer {
            number: refusal.0 as u8,
            place: refusal.1,
            gates: 0,
            wires: 0,
            bytes: 0,
            before: 0,
            after: 0,
        }
    }
}

// What an operation does or refuses, in the seven numbers.
impl From<Result<Counts, Refusal>> for Answer {
    ghost from_gives = { answers };

    fn from(done: Result<Counts, Refusal>) -> Answer {
        match done {
            Ok(counts) => Answer {
                number: 0,
                place: 0,
                gates: counts.gates,
                wires: counts.wires,
                bytes: counts.bytes,
                before: counts.before,
                after: counts.after,
            },
            Err(refusal) => Answer::from(refusal),
        }
    }
}

// What a figure is: a word of 32 bits or a bit.
#[derive(Clone, Copy, PartialEq, Eq)]
pub enum Kind {
    Word,
    Bit,
}

// The operations of the table, each with its code byte.
#[derive(Clone, Copy, PartialEq, Eq)]
pub enum Operation {
    Sum = 0x20,
    Difference = 0x21,
    Product = 0x22,
    LessThan = 0x23,
    Equal = 0x24,
    And = 0x25,
    Or = 0x26,
    Not = 0x27,
}

// What a code byte opens.
#[derive(Clone, Copy, PartialEq, Eq)]
pub enum Form {
    End,
    Assign,
    Skip,
    Branch,
    Variable,
    Word,
    Bit,
    Apply(Operation),
    Unknown,
}

// A code byte read: its form, the kind of its arguments and of its result, their count and its cost.
#[derive(Clone, Copy)]
pub struct Code {
    pub form: Form,
    pub takes: Kind,
    pub gives: Kind,
    pub arity: u8,
    pub cost: u8,
}

// The conditions that a set of settings has room for.
pub const SET_CONDITIONS: u8 = 8;

// The words of a set of numbers below 256, and so of the settings of so many conditions, in a lent array.
pub const SET_WORDS: usize = 4;

// The places of a list of conditions.
pub const LIST_ROOM: usize = SET_CONDITIONS as usize;

// A set in hand: setting j is bit j % 64 of the word j / 64. Four words by name: an array would be no shorter, since each operation takes all four, and a
// word chosen by a number would keep the set in memory.
#[derive(Clone, Copy)]
pub struct Set {
    pub w0: u64,
    pub w1: u64,
    pub w2: u64,
    pub w3: u64,
}

// Conditions, rising: so many of them, zeros after them, in fixed memory; in the number `on` the bit of each is 1.
#[derive(Clone, Copy)]
pub struct ConditionList {
    pub count: u8,
    pub on: u8,
    pub at: [u8; LIST_ROOM],
}
