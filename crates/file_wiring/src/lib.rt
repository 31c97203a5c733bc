// Document 02, C-11, row 62: the records of a circuit file that is laid out, and its outputs: inputs first, earlier wires only, kinds as the table says, no table
// bit too many. The kinds of the wires lie in an array that is filled record by record. A record's number is its wire's, a `WireId`.
#![tactic(auto)]

ghost use Rattle.std.specs.Prelude.{◌≡◌, true, cond, Some, None, IfSome, IsTrue, ◌↔◌, EachIndex, slice_index, ◌&&◌, ◌+◌, ◌*◌, ◌^◌, ◌<◌, ◌≤◌, ltb, length, get_or};
ghost use Rattle.base.specs.Lists.{every};
ghost use Rattle.base.specs.Numbers.{number, number_at};
ghost use Rattle.base.specs.Codes.{code_of};
ghost use Rattle.base.specs.declared.Kind.TheVariants.{Bit};
ghost use Rattle.file.specs.Versions.{two, most_guard_wires, table_bytes};
ghost use Rattle.file.specs.WireKinds.{wire_kind};
ghost use Rattle.file.specs.FileFigures.{version_in, wires_at, record_at, file_variables, wire_count, file_records};
ghost use Rattle.file.specs.Limits.{most_file_bytes, most_wires};
ghost use Rattle.file.specs.LaidOut.{record_place, WholeAt, LaidOut};
ghost use Rattle.file.specs.CircuitRows.{headed, laid, stands, all_stand, output_stands, outputs_stand, standing};
ghost use Rattle.file.specs.RowLaws.{Headed};
ghost use Rattle.file_parts.specs.HeldKinds.{held_kind};
ghost use Rattle.file_parts.specs.TableLaws.{HoldsKinds};
ghost use Rattle.file_wiring.specs.Wires.{fits, wires_by, used_bytes, top_byte};

use base::Kind;
use file::{MOST_WIRES, NO_WIRE, Version, WireId};
use file_parts::{Record, wire_at};

// The 2^d bits of a table stand in its last bytes: in so many.
fn used_bytes(d: u8) -> usize
    requires { d ≤ most_guard_wires two }
    ensures { result ≡ used_bytes d }
{
    if d < 3 { 1 } else { 1 << (d - 3) }
}

// The first of them is this at most.
fn top_byte(d: u8) -> u8
    ensures { result ≡ top_byte d }
{
    match d {
        0 => 1,
        1 => 3,
        2 => 15,
        _ => 255,
    }
}

// So many bytes are all 0.
fn none_set(bytes: &[u8]) -> bool
    ensures { IsTrue result ↔ EachIndex bytes.now (λ k. slice_index bytes.now k ≡ 0) }
{
    bytes.iter().all(|b| *b == 0)
}

// A table has 2^d bits: none is set from 2^d up.
fn table_fits(table: &[u8], d: u8) -> bool
    requires { (d ≤ most_guard_wires two) × (used_bytes d ≤ length table.now) }
    ensures { result ≡ ltb (number table.now) (2 ^ 2 ^ d) }
{
    let high = table.len() - used_bytes(d);
    none_set(&table[..high]) && table[high] <= top_byte(d)
}

// The wires of a file that may be read: those below `end`, whose kinds are known.
#[derive(Clone, Copy)]
struct Earlier<'a> {
    file: &'a [u8],
    kinds: &'a [Kind; MOST_WIRES],
    end: WireId,
    ghost short: { length file.now ≤ most_file_bytes },
    ghost few: { end.0 ≤ most_wires },
}

impl Earlier<'_> {
    // A wire is one of them, and of a kind.
    fn has(self, w: WireId, kind: Kind) -> bool
        ensures { result ≡ fits self.entry.end.0 (held_kind self.entry.kinds.now) kind w.0 }
    {
        w.0 < self.end.0 && self.kinds[w.index()] == kind
    }

    // So many wires, each `step` bytes after the one before.
    fn all_fit(self, at: usize, step: usize, count: usize, kind: Kind) -> bool
        requires { (2 ≤ step) × (step ≤ 4) × (at + step * count + 2 ≤ length self.file.now + step) }
        ensures { result ≡ every (fits self.entry.end.0 (held_kind self.entry.kinds.now) kind) (wires_by step count self.entry.file.now at) }
    {
        for k in 0..count {
            if !self.has(wire_at(self.file, at + step * k), kind) {
                return false;
            }
        }
        true
    }

    // So many wires, all of the first one's kind.
    fn all_alike(self, at: usize, step: usize, count: usize) -> bool
        requires { (2 ≤ step) × (step ≤ 4) × (at + step * count + 2 ≤ length self.file.now + step) × (1 ≤ count) }
        ensures { result ≡ every (fits self.entry.end.0 (held_kind self.entry.kinds.now) (held_kind self.entry.kinds.now (number_at 2 self.entry.file.now at)))
            (wires_by step count self.entry.file.now at) }
    {
        let first = wire_at(self.file, at);
        first.0 < self.end.0 && self.all_fit(at, step, count, self.kinds[first.index()])
    }

    // An operation, 20 to 27: its one or two wires are of the kind that it takes.
    fn operation(self, at: usize) -> bool
        requires { at + (1 + 2 * (code_of (get_or self.file.now at 0)).arity) ≤ length self.file.now }
        ensures { result ≡ every (fits self.entry.end.0 (held_kind self.entry.kinds.now) (code_of (get_or self.entry.file.now at 0)).takes)
            (wires_by 2 (code_of (get_or self.entry.file.now at 0)).arity self.entry.file.now (at + 1)) }
    {
        let code = base_codes::code_of(self.file[at]);
        self.all_fit(at + 1, 2, usize::from(code.arity), code.takes)
    }

    // A choice, 30: its condition is a bit, its two values are alike.
    fn choice(self, at: usize) -> bool
        requires { at + 7 ≤ length self.file.now }
        ensures { result ≡ (fits self.entry.end.0 (held_kind self.entry.kinds.now) Bit (number_at 2 self.entry.file.now (at + 1))
            && every (fits self.entry.end.0 (held_kind self.entry.kinds.now) (held_kind self.entry.kinds.now (number_at 2 self.entry.file.now (at + 3))))
            (wires_by 2 2 self.entry.file.now (at + 3))) }
    {
        self.has(wire_at(self.file, at + 1), Kind::Bit) && self.all_alike(at + 3, 2, 2)
    }

    // A pick, 31, of `count` pairs from `at` on: its guards are bits, its values are alike.
    fn pick(self, at: usize, count: usize) -> bool
        requires { (at + 4 * count ≤ length self.file.now) × (1 ≤ count) }
        ensures { result ≡ (every (fits self.entry.end.0 (held_kind self.entry.kinds.now) Bit) (wires_by 4 count self.entry.file.now at)
            && every (fits self.entry.end.0 (held_kind self.entry.kinds.now) (held_kind self.entry.kinds.now (number_at 2 self.entry.file.now (at + 2))))
            (wires_by 4 count self.entry.file.now (at + 2))) }
    {
        self.all_fit(at, 4, count, Kind::Bit) && self.all_alike(at + 2, 4, count)
    }

    // A guard, 32, of `count` wires from `at` on: they are bits, and its table is no larger than they ask.
    fn guard(self, at: usize, count: u8) -> bool
        requires { (at + 2 * count + table_bytes (version_in self.file.now) ≤ length self.file.now) × (count ≤ most_guard_wires (version_in self.file.now)) }
        ensures { result ≡ (every (fits self.entry.end.0 (held_kind self.entry.kinds.now) Bit) (wires_by 2 count self.entry.file.now at)
            && ltb (number_at (table_bytes (version_in self.entry.file.now)) self.entry.file.now (at + 2 * count)) (2 ^ 2 ^ count)) }
    {
        let d = usize::from(count);
        let table = at + 2 * d;
        let after = table + Version::from(self.file[4]).table_bytes();
        self.all_fit(at, 2, d, Kind::Bit) && table_fits(&self.file[table..after], count)
    }

    // The record at a place, as record `end` of a file of v variables. Whole it is by what is asked, and no `Record`: that has a file of its own beside ours.
    fn stands(self, at: usize, v: usize) -> bool
        requires { WholeAt self.file.now at }
        ensures { result ≡ stands v (held_kind self.entry.kinds.now) self.entry.end.0 (record_at self.entry.file.now at) }
    {
        let code = self.file[at];
        let n = self.end.index();
        if code < 2 {
            return n < v && usize::from(self.file[at + 1]) == n;
        }
        if n < v {
            return false;
        }
        match code {
            0x11 => true,
            0x12 => true,
            0x30 => self.choice(at),
            0x31 => self.pick(at + 2, usize::from(self.file[at + 1])),
            0x32 => self.guard(at + 2, self.file[at + 1]),
            _ => self.operation(at),
        }
    }

    // The output of variable x, which stands at a place: no wire, or a wire of its kind, which is that of its input, wire x.
    fn output(self, at: usize, x: usize) -> bool
        requires { (at + 2 ≤ length self.file.now) × (x < most_wires) }
        ensures { result ≡ output_stands self.entry.end.0 (held_kind self.entry.kinds.now) x (number_at 2 self.entry.file.now at) }
    {
        let w = wire_at(self.file, at);
        w.0 == NO_WIRE || self.has(w, self.kinds[x])
    }

    // The outputs of v variables, which stand from `at` on.
    fn outputs(self, at: usize, v: usize) -> bool
        requires { (at + 2 * v ≤ length self.file.now) × (v ≤ self.end.0) }
        ensures { result ≡ outputs_stand self.entry.end.0 (held_kind self.entry.kinds.now) 0 (wires_at v self.entry.file.now at) }
    {
        for x in 0..v {
            if !self.output(at + 2 * x, x) {
                return false;
            }
        }
        true
    }
}

// Every record in its turn, and its kind into the array; the place after the records, if all of them stand.
fn records_stand(file: &[u8], v: usize, count: u16, kinds: &mut [Kind; MOST_WIRES]) -> Option<usize>
    requires { (Headed file.now × LaidOut file.now) × (v ≡ file_variables file.now) × (count ≡ wire_count file.now) }
    ensures place { result ≡ cond (all_stand v (wire_kind (file_records file.now)) 0 (file_records file.now)) (Some (record_place file.now count)) None }
    ensures kinds { IfSome result (λ place. HoldsKinds (file_records file.now) kinds.new count) }
{
    let mut at = file::FIRST_RECORD;
    for i in 0..count {
        let earlier = Earlier {
            file,
            kinds: &*kinds,
            end: WireId(i),
        };
        if !earlier.stands(at, v) {
            return None;
        }
        let record = Record { file, at };
        kinds[usize::from(i)] = record.kind(kinds);
        at += record.size();
    }
    Some(at)
}

// Row 62 over the whole file.
pub fn standing(file: &[u8]) -> bool
    requires { (headed file.now ≡ true) × (laid file.now ≡ true) }
    ensures { result ≡ standing file.now }
{
    let v = usize::from(file[5]);
    let count = base_words::read16(file, 6);
    if usize::from(count) < v {
        return false;
    }
    let mut kinds = [Kind::Word; MOST_WIRES];
    let Some(at) = records_stand(file, v, count, &mut kinds) else {
        return false;
    };
    let earlier = Earlier {
        file,
        kinds: &kinds,
        end: WireId(count),
    };
    earlier.outputs(at, v)
}
