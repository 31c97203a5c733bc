// Definitions and laws of the plain circuit (specs/), the number of a gate, and the places of lent arrays; the code is in the crates `circuit_..`.
#![tactic(auto)]

ghost use Rattle.std.specs.Prelude.{◌≡◌};
ghost use Rattle.circuit.specs.Clear.{clear, Clear};

// A gate's number in the plain circuit; never taken for a wire number of a circuit file. That it is below 256 is asked where it counts and is no field: gates
// above 256 are numbered too, before row 10 refuses them.
#[derive(Clone, Copy, PartialEq, Eq, PartialOrd, Ord)]
pub struct GateId(pub u16);

impl GateId {
    // Its place in an array that has one for each gate.
    pub fn index(self) -> usize
        ensures { result ≡ self.0 }
    {
        self.0 as usize
    }
}

// The gates and the conditions of a plain circuit, at most, as specs/Limits.antt has them.
pub const MOST_GATES: u16 = 256;

pub const MOST_CONDITIONS: usize = 8;

// The places of lent arrays, as specs/Rooms.antt has them: one for each gate, four numbers for each gate, one for each variable, one for each condition.
pub const GATE_ROOM: usize = 256;

pub const QUAD_ROOM: usize = 4 * GATE_ROOM;

pub const VARIABLE_ROOM: usize = 32;

pub const CONDITION_ROOM: usize = 8;

// A choice's cost.
pub const CHOICE_COST: u8 = 3;

// The words of every gate's set of settings in a lent array.
pub const NEED_WORDS: usize = base::SET_WORDS * GATE_ROOM;

// The codes of constants, of the first and the last operation and of choices in the quads of gates (specs/Quads.antt); an operation has its byte,
// a starting value its kind. The last operation, not, is the one that has one argument. They are numbers and no enum, since C sees the quads.
pub const WORD: u32 = 0x11;

pub const BIT: u32 = 0x12;

pub const SUM: u32 = 0x20;

pub const NOT: u32 = 0x27;

pub const CHOICE: u32 = 0x30;

// The plain circuit of a rule in fixed memory, with what the layers above ask of it: its gates' quads and how many they are, each gate's set of settings,
// every variable's last gate, and each condition's gate; zeros after them.
#[derive(Clone, Copy)]
pub struct Circuit {
    pub quads: [u32; QUAD_ROOM],
    pub needs: [u64; NEED_WORDS],
    pub outputs: [u16; VARIABLE_ROOM],
    pub conditions: [u16; CONDITION_ROOM],
    pub count: usize,
}

impl Circuit {
    // Nothing is built yet.
    pub fn clear() -> Circuit
        ensures is { result ≡ clear }
        ensures clear { Clear result }
    {
        Circuit {
            quads: [0u32; QUAD_ROOM],
            needs: [0u64; NEED_WORDS],
            outputs: [0u16; VARIABLE_ROOM],
            conditions: [0u16; CONDITION_ROOM],
            count: 0,
        }
    }
}
