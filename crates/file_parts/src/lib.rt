// Document 01, "The fused circuit file": a record in the bytes of a circuit file: the wire at a place, the record's size, its wire's kind.
// The kinds of the wires lie in an array; a wire's number in hand is a `WireId`.
#![tactic(auto)]

ghost use Rattle.std.specs.Prelude.{◌≡◌, true, ◌+◌, ◌<◌, ◌≤◌, length};
ghost use Rattle.base.specs.Numbers.{number_at};
ghost use Rattle.base.specs.Lists.{Inside};
ghost use Rattle.file.specs.Records.{reads};
ghost use Rattle.file.specs.WireKinds.{record_kind};
ghost use Rattle.file.specs.FileFigures.{record_at, size_at};
ghost use Rattle.file.specs.Limits.{most_wires};
ghost use Rattle.file.specs.CircuitRows.{whole_at};
ghost use Rattle.file_parts.specs.HeldKinds.{held_kind};

use base::Kind;
use file::{MOST_WIRES, Version, WireId};

// The wire whose number stands at a place.
pub fn wire_at(file: &[u8], at: usize) -> WireId
    requires { at + 2 ≤ length file.now }
    ensures { result.0 ≡ number_at 2 file.now at }
{
    WireId(base_words::read16(file, at))
}

// A whole record, at a place of a file.
#[derive(Clone, Copy)]
pub struct Record<'a> {
    pub file: &'a [u8],
    pub at: usize,
    pub ghost whole: { whole_at file.now at ≡ true },
}

impl Record<'_> {
    // Its bytes. The arms are constants where they can be: this is asked once a record, by every pass over a file; a guard's table is by the file's version.
    pub fn size(self) -> usize
        ensures { result ≡ size_at self.entry.file.now self.entry.at }
    {
        let Record { file, at } = self;
        match file[at] {
            0x00 | 0x01 | 0x12 => 2,
            0x11 => 5,
            0x27 => 3,
            0x30 => 7,
            0x31 => 2 + 4 * usize::from(file[at + 1]),
            0x32 => 2 + 2 * usize::from(file[at + 1]) + Version::from(file[4]).table_bytes(),
            _ => 5,
        }
    }

    // The kind of its wire, by the kinds of those before it: a choice is of its first value's kind, a pick of its first pair's.
    pub fn kind(self, kinds: &[Kind; MOST_WIRES]) -> Kind
        requires { Inside most_wires (reads (record_at self.file.now self.at)) }
        ensures { result ≡ record_kind (held_kind kinds.now) (record_at self.entry.file.now self.entry.at) }
    {
        let Record { file, at } = self;
        match file[at] {
            0x00 | 0x11 | 0x20..=0x22 => Kind::Word,
            0x30 => kinds[wire_at(file, at + 3).index()],
            0x31 => kinds[wire_at(file, at + 4).index()],
            _ => Kind::Bit,
        }
    }
}
