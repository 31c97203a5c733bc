// Document 02, C-11: circuit files from any house: read, one record of them shown, and run.
#![tactic(auto)]

ghost use Rattle.std.specs.Prelude.{◌≡◌, ◌<◌, cond, Some, None, length, take, drop};
ghost use Rattle.base.specs.Inputs.{inputs_row};
ghost use Rattle.base.specs.Refusals.{answer_in};
ghost use Rattle.base.specs.Rows.{row_in};
ghost use Rattle.file.specs.WireKinds.{wire_kind};
ghost use Rattle.file.specs.FileFigures.{size_at, file_variables, wire_count, file_records};
ghost use Rattle.file.specs.LaidOut.{record_place};
ghost use Rattle.file.specs.CircuitRows.{circuit_row};
ghost use Rattle.file.specs.Answers.{circuit_answer, shown, part_start, part_length, record_part, circuit_run_answer, circuit_run_results};

use base::{Answer, Counts, Kind, Refusal, Row};
use file::WireId;
use file_parts::Record;

// Rows 60, 61 and 62 in that order, each over the whole file.
fn check(file: &[u8]) -> Result<(), Row>
    ensures { row_in result ≡ circuit_row file.now }
{
    if !file_layout::headed(file) {
        return Err(Row::CircuitHead);
    }
    if !file_layout::laid(file) {
        return Err(Row::CircuitRecords);
    }
    if !file_wiring::standing(file) {
        return Err(Row::CircuitWires);
    }
    Ok(())
}

// The wires and bytes of a circuit file that passes.
fn count(file: &[u8]) -> Result<Counts, Refusal>
    ensures { answer_in result ≡ circuit_answer file.now }
{
    check(file)?;
    Ok(Counts {
        wires: usize::from(base_words::read16(file, 6)),
        bytes: file.len(),
        ..Counts::default()
    })
}

// Reads a circuit file: its wires and bytes, or its refusal.
pub fn read(file: &[u8]) -> Answer
    ensures { result ≡ circuit_answer file.now }
{
    Answer::from(count(file))
}

// The place of a wire's record in a file that is read. That it is read is asked here and below, where the caller has just tested it.
fn record_place(file: &[u8], wire: WireId) -> usize
    requires { (circuit_row file.now ≡ 0) × (wire.0 < wire_count file.now) }
    ensures { result ≡ record_place file.now wire.0 }
{
    let mut at = file::FIRST_RECORD;
    for _ in 0..wire.0 {
        let record = Record { file, at };
        at += record.size();
    }
    at
}

// Where a part of a file begins, and how many bytes it has.
#[repr(C)]
#[derive(Clone, Copy)]
pub struct Part {
    pub start: usize,
    pub length: usize,
}

// The part of the file that holds a wire's record; none for a refused file or a number that is no wire.
fn find(file: &[u8], wire: WireId) -> Option<Part>
    ensures { result ≡ cond (shown file.now wire.0)
        (Some (record { start = record_place file.now wire.0; length = size_at file.now (record_place file.now wire.0) }))
        None }
{
    if check(file).is_err() || base_words::read16(file, 6) <= wire.0 {
        return None;
    }
    let start = record_place(file, wire);
    let record = Record { file, at: start };
    Some(Part {
        start,
        length: record.size(),
    })
}

// That part, as C is handed it: 0 and 0 where there is none.
pub fn part_of(file: &[u8], wire: WireId) -> Part
    ensures start { result.start ≡ part_start file.now wire.0 }
    ensures length { result.length ≡ part_length file.now wire.0 }
    ensures bytes { take result.length (drop result.start file.now) ≡ record_part file.now wire.0 }
{
    find(file, wire).unwrap_or(Part {
        start: 0,
        length: 0,
    })
}

// That part itself, inside the caller's file: nothing is moved.
pub fn record<'a>(file: &'a [u8], wire: WireId) -> &'a [u8]
    ensures { result.now ≡ record_part file.now wire.0 }
{
    let Part { start, length } = part_of(file, wire);
    let end = start + length;
    &file[start..end]
}

// The kind of variable x of a file that is read: the first V records are its inputs, two bytes each.
fn kind_at(file: &[u8], x: u8) -> Kind
    requires { (circuit_row file.now ≡ 0) × (x < file_variables file.now) }
    ensures { result ≡ wire_kind (file_records file.now) x }
{
    base_codes::start_kind(file[file::FIRST_RECORD + 2 * usize::from(x)])
}

// Rows 40 to 42 of the inputs of a file that is read, the lowest first.
fn inputs_refusal(file: &[u8], inputs: &[u32], room: usize) -> Result<(), Row>
    requires { circuit_row file.now ≡ 0 }
    ensures { row_in result ≡ inputs_row (file_variables file.now) (wire_kind (file_records file.now)) inputs.now room }
{
    base_answers::inputs_refusal(file[5], |x| kind_at(file, x), inputs, room)
}

// Runs a circuit file; a refusal writes nothing.
fn try_run(file: &[u8], inputs: &[u32], results: &mut [u32]) -> Result<Counts, Refusal>
    ensures answer { answer_in result ≡ circuit_run_answer file.now inputs.now (length results.old) }
    ensures results { results.new ≡ circuit_run_results file.now inputs.now results.old }
{
    let counts = count(file)?;
    inputs_refusal(file, inputs, results.len())?;
    file_figures::run_file(file, inputs, results);
    Ok(counts)
}

// Runs a circuit file on inputs: in the first V results every variable's figure, 0 where its output is no wire. A refusal writes nothing.
pub fn run(file: &[u8], inputs: &[u32], results: &mut [u32]) -> Answer
    ensures answer { result ≡ circuit_run_answer file.now inputs.now (length results.old) }
    ensures results { results.new ≡ circuit_run_results file.now inputs.now results.old }
{
    Answer::from(try_run(file, inputs, results))
}
