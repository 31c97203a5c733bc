// Definitions and laws of the circuit file (specs/), and the number of a wire. Nothing here knows a rule or a plan; the code is in the crates `file_..`.
#![tactic(auto)]

ghost use Rattle.std.specs.Prelude.{◌≡◌};
ghost use Rattle.file.specs.Versions.{version_of, most_guard_wires, table_bytes};

// The number of a wire of a circuit file: its record's number. A rule's gate number is never taken for one: it has a type of its own. That it is below 640 is
// asked where it counts and is no field: as an output FF FF is one too.
#[derive(Clone, Copy, PartialEq, Eq, PartialOrd, Ord)]
pub struct WireId(pub u16);

impl WireId {
    // Its place in an array that has one for each wire.
    pub fn index(self) -> usize
        ensures { result ≡ self.0 }
    {
        self.0 as usize
    }
}

// The versions of a circuit file, each with the last byte of its mark.
#[derive(Clone, Copy, PartialEq, Eq)]
pub enum Version {
    One = 1,
    Two = 2,
}

// By its byte in a file; one with any other byte there than these two is refused (row 60).
impl From<u8> for Version {
    ghost from_gives = { λ b version. version ≡ version_of b };

    fn from(byte: u8) -> Version {
        if byte == Version::One as u8 {
            Version::One
        } else {
            Version::Two
        }
    }
}

impl Version {
    // The wires of a guard, at most.
    pub fn most_guard_wires(self) -> usize
        ensures { result ≡ most_guard_wires self }
    {
        match self {
            Version::One => 6,
            Version::Two => 8,
        }
    }

    // The bytes of its table.
    pub fn table_bytes(self) -> usize
        ensures { result ≡ table_bytes self }
    {
        match self {
            Version::One => 8,
            Version::Two => 32,
        }
    }
}

// As an output it names no wire.
pub const NO_WIRE: u16 = 0xFFFF;

// A file has its first record at this place, and at most so many bytes, variables and wires.
pub const FIRST_RECORD: usize = 8;

pub const MOST_FILE_BYTES: usize = 16384;

pub const MOST_FILE_VARIABLES: u8 = 32;

pub const MOST_WIRES: usize = 640;

// The version byte of a file that is written, and the bytes of a guard's table there.
pub const WRITTEN_VERSION: u8 = Version::Two as u8;

pub const WRITTEN_TABLE: usize = 32;
