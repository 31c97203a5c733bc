// Document 01, "The fused circuit file", and document 02, C-11: the figures of a circuit file of any origin that passes rows 60 to 62, worked out from its bytes record by record.
// The figures lie in an array of plain numbers, and beside it the kinds of the wires; a wire's number in hand is a `WireId`.
#![tactic(auto)]

ghost use Rattle.std.specs.Prelude.{◌≡◌, cond, map, [], ◌∷◌, ℕ, ◌+◌, ◌*◌, ◌^◌, ◌<◌, ◌≤◌, length, get_or};
ghost use Rattle.base.specs.Numbers.{number, number_at};
ghost use Rattle.base.specs.Buffers.{over};
ghost use Rattle.base.specs.Lists.{Inside};
ghost use Rattle.base.specs.Settings.{number_of};
ghost use Rattle.base.specs.Sets.{has};
ghost use Rattle.base.specs.Codes.{operation_of, code_of};
ghost use Rattle.base.specs.Results.{is_one, result_on};
ghost use Rattle.file.specs.Versions.{two, most_guard_wires, table_bytes};
ghost use Rattle.file.specs.Records.{pair_wires, guard_figure, record_figure};
ghost use Rattle.file.specs.FileFigures.{version_in, wires_at, pairs_at, record_at, file_variables, wire_count, file_figures};
ghost use Rattle.file.specs.Limits.{most_wires};
ghost use Rattle.file.specs.LaidOut.{record_place};
ghost use Rattle.file.specs.CircuitRows.{circuit_row};
ghost use Rattle.file_figures.specs.Working.{held, output_held, Output, pick_by, Workable, figures_of};

use base::{Form, Kind};
use file::{MOST_WIRES, NO_WIRE, Version};
use file_parts::{Record, wire_at};

// Bit j of a guard's table; the last byte has the lowest bits.
fn table_has(table: &[u8], j: usize) -> bool
    requires { j < 8 * length table.now }
    ensures { result ≡ has (number table.now) j }
{
    let byte = table[table.len() - 1 - j / 8];
    (byte >> (j % 8)) % 2 == 1
}

// A file, and the figures of its wires that are worked out.
#[derive(Clone, Copy)]
struct Figures<'a> {
    file: &'a [u8],
    figures: &'a [u32; MOST_WIRES],
}

impl Figures<'_> {
    // The figure of the wire whose number stands at a place.
    fn read(self, at: usize) -> u32
        requires { (at + 2 ≤ length self.file.now) × (number_at 2 self.file.now at < most_wires) }
        ensures { result ≡ held self.entry.figures.now (number_at 2 self.entry.file.now at) }
    {
        self.figures[wire_at(self.file, at).index()]
    }

    // An operation, 20 to 27, on the figures of its one or two wires.
    fn operation(self, at: usize) -> u32
        requires { (0x20 ≤ get_or self.file.now at 0) × (get_or self.file.now at 0 ≤ 0x27)
            × (at + (1 + 2 * (code_of (get_or self.file.now at 0)).arity) ≤ length self.file.now)
            × Inside most_wires (wires_at (code_of (get_or self.file.now at 0)).arity self.file.now (at + 1)) }
        ensures { result ≡ result_on (operation_of (get_or self.entry.file.now at 0))
            (map (held self.entry.figures.now) (wires_at (code_of (get_or self.entry.file.now at 0)).arity self.entry.file.now (at + 1))) }
    {
        let code = base_codes::code_of(self.file[at]);
        let Form::Apply(op) = code.form else {
            unreachable!();
        };
        let a = self.read(at + 1);
        if code.arity == 1 {
            base_codes::apply(op, a, 0)
        } else {
            base_codes::apply(op, a, self.read(at + 3))
        }
    }

    // A choice, 30: its condition wire names one of two wires.
    fn choice(self, at: usize) -> u32
        requires { (at + 7 ≤ length self.file.now)
            × Inside most_wires (number_at 2 self.file.now (at + 1) ∷ number_at 2 self.file.now (at + 3) ∷ number_at 2 self.file.now (at + 5) ∷ []) }
        ensures { result ≡ cond (is_one (held self.entry.figures.now (number_at 2 self.entry.file.now (at + 1))))
            (held self.entry.figures.now (number_at 2 self.entry.file.now (at + 3)))
            (held self.entry.figures.now (number_at 2 self.entry.file.now (at + 5))) }
    {
        if self.read(at + 1) == 1 {
            self.read(at + 3)
        } else {
            self.read(at + 5)
        }
    }

    // A pick of `count` pairs from `at` on: the sum of the values whose guards are 1, which wraps, and for bits its last bit; the last pair is read first.
    fn pick(self, at: usize, count: u8, kind: Kind) -> u32
        requires { (at + 4 * count ≤ length self.file.now) × Inside most_wires (pair_wires (pairs_at count self.file.now at)) }
        ensures { result ≡ pick_by kind (held self.entry.figures.now) (pairs_at count self.entry.file.now at) }
    {
        let mut sum: u32 = 0;
        for t in (0..usize::from(count)).rev() {
            if self.read(at + 4 * t) == 1 {
                sum = base_words::sum(sum, self.read(at + 4 * t + 2));
            }
        }
        match kind {
            Kind::Word => sum,
            Kind::Bit => sum % 2,
        }
    }

    // The number whose bit t is the wire t of `count` wires from `at` on; the last wire is read first, so each moves those after it up.
    fn guard_number(self, at: usize, count: u8) -> usize
        requires { (count ≤ most_guard_wires two)
            × (at + 2 * count ≤ length self.file.now)
            × Inside most_wires (wires_at count self.file.now at) }
        ensures { (result ≡ number_of (wires_at count self.entry.file.now at) (λ w. is_one (held self.entry.figures.now w))) × (result < 2 ^ count) }
    {
        let mut j: usize = 0;
        for t in (0..usize::from(count)).rev() {
            j = 2 * j + usize::from(self.read(at + 2 * t) == 1);
        }
        j
    }

    // A guard, 32, of `count` wires from `at` on: bit j of its table.
    fn guard(self, at: usize, count: u8) -> u32
        requires { (count ≤ most_guard_wires (version_in self.file.now))
            × (at + 2 * count + table_bytes (version_in self.file.now) ≤ length self.file.now)
            × Inside most_wires (wires_at count self.file.now at) }
        ensures { result ≡ guard_figure (held self.entry.figures.now) (wires_at count self.entry.file.now at)
            (number_at (table_bytes (version_in self.entry.file.now)) self.entry.file.now (at + 2 * count)) }
    {
        let j = self.guard_number(at, count);
        let table = at + 2 * usize::from(count);
        let after = table + Version::from(self.file[4]).table_bytes();
        u32::from(table_has(&self.file[table..after], j))
    }

    // The figure of the record at a place, whose wire is of a kind, by its first byte.
    fn record(self, at: usize, kind: Kind, inputs: &[u32]) -> u32
        requires { Workable self.file.now (length inputs.now) most_wires at }
        ensures { result ≡ record_figure inputs.now (pick_by kind) (held self.entry.figures.now) (record_at self.entry.file.now at) }
    {
        match self.file[at] {
            0x00 | 0x01 => inputs[usize::from(self.file[at + 1])],
            0x11 => base_words::read32(self.file, at + 1),
            0x12 => u32::from(self.file[at + 1]),
            0x30 => self.choice(at),
            0x31 => self.pick(at + 2, self.file[at + 1], kind),
            0x32 => self.guard(at + 2, self.file[at + 1]),
            _ => self.operation(at),
        }
    }

    // What a run writes for the output that stands at a place: the figure of its wire, 0 where it is no wire.
    fn output(self, at: usize) -> u32
        requires { (at + 2 ≤ length self.file.now) × Output (number_at 2 self.file.now at) }
        ensures { result ≡ output_held self.entry.figures.now (number_at 2 self.entry.file.now at) }
    {
        let w = wire_at(self.file, at);
        if w.0 == NO_WIRE {
            return 0;
        }
        self.figures[w.index()]
    }

    // What a run writes for every variable; the outputs stand from `at` on.
    fn give_outputs(self, at: usize, results: &mut [u32])
        requires { (8 ≤ length self.file.now)
            × (at + 2 * file_variables self.file.now ≤ length self.file.now)
            × ((x : ℕ) → x < file_variables self.file.now → Output (number_at 2 self.file.now (at + 2 * x)))
            × (file_variables self.file.now ≤ length results.old) }
        ensures { results.new ≡ over (map (output_held self.entry.figures.now) (wires_at (file_variables self.entry.file.now) self.entry.file.now at)) results.old }
    {
        for x in 0..usize::from(self.file[5]) {
            results[x] = self.output(at + 2 * x);
        }
    }
}

// Works out every record's figure; gives the place after the records.
fn work_out(file: &[u8], inputs: &[u32], figures: &mut [u32; MOST_WIRES]) -> usize
    requires { (circuit_row file.now ≡ 0) × (length inputs.now ≡ file_variables file.now) }
    ensures place { result ≡ record_place file.now (wire_count file.now) }
    ensures figures { figures.new ≡ over (figures_of file.now inputs.now (wire_count file.now)) figures.old }
{
    let mut kinds = [Kind::Word; MOST_WIRES];
    let mut at = file::FIRST_RECORD;
    for i in 0..usize::from(base_words::read16(file, 6)) {
        let record = Record { file, at };
        let kind = record.kind(&kinds);
        let known = Figures {
            file,
            figures: &*figures,
        };
        figures[i] = known.record(at, kind, inputs);
        kinds[i] = kind;
        at += record.size();
    }
    at
}

// Of a file that passes rows 60 to 62: what a run writes for every variable into the first results, from the inputs; nothing after them is touched. That it
// passes is asked and no type: the fused run hands on the bytes that it wrote.
pub fn run_file(file: &[u8], inputs: &[u32], results: &mut [u32])
    requires { (circuit_row file.now ≡ 0)
        × (length inputs.now ≡ file_variables file.now)
        × (file_variables file.now ≤ length results.old) }
    ensures { results.new ≡ over (file_figures file.now inputs.now) results.old }
{
    let mut figures = [0u32; MOST_WIRES];
    let at = work_out(file, inputs, &mut figures);
    let all = Figures {
        file,
        figures: &figures,
    };
    all.give_outputs(at, results);
}
