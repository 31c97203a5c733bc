// Reads a conformance stream on standard input and prints one line a case (docs/CONFORMANCE.md).
// Operations 01 to 09; any other ends the stream with `refused`.
#![tactic(auto)]

ghost use Rattle.std.specs.Prelude.{◌≤◌, ◌<◌};
ghost use Rattle.circuit.specs.Rooms.{gate_room};

use base::Answer;
use circuit::Circuit;
use file::WireId;
use std::fmt;
use std::io::Read;

// What every result place holds before the call, so that an untouched one shows.
const UNTOUCHED: u32 = 3735928559;

// What every byte of a lent buffer holds before the call.
const CLEAN: u8 = 0xEE;

// The hexadecimal digits.
const DIGITS: [u8; 16] = *b"0123456789ABCDEF";

// So many bytes are spelled at once.
const SPELLED: usize = 256;

// A case: its operation, a number, the room of a buffer, two fields and the inputs.
#[derive(Clone, Copy)]
struct Case<'a> {
    operation: u8,
    number: u16,
    room: usize,
    first: &'a [u8],
    second: &'a [u8],
    inputs: &'a [u32],
}

// Bytes as capital hexadecimal pairs, or `-` for none.
#[derive(Clone, Copy)]
struct Hex<'a>(&'a [u8]);

impl fmt::Display for Hex<'_> {
    // Some hundred bytes at once: a format for each byte takes twice the time of a whole case.
    fn fmt<W: fmt::Write>(&self, f: &mut fmt::Formatter<W>) -> fmt::Result {
        if self.0.is_empty() {
            return write!(f, "-");
        }
        for bytes in self.0.chunks(SPELLED) {
            let mut text = [0u8; 2 * SPELLED];
            for (pair, b) in text.chunks_exact_mut(2).zip(bytes) {
                pair[0] = DIGITS[usize::from(b / 16)];
                pair[1] = DIGITS[usize::from(b % 16)];
            }
            let spelled = &text[..2 * bytes.len().min(SPELLED)];
            f.write_str(std::str::from_utf8(spelled).map_err(|_| fmt::Error)?)?;
        }
        Ok(())
    }
}

// The seven numbers of an answer.
fn print_answer(rt: &impl Print, a: Answer) {
    let _ = print!(rt;
        "{} {} {} {} {} {} {}",
        a.number, a.place, a.gates, a.wires, a.bytes, a.before, a.after
    );
}

// All of the buffer is read; none where the stream ends before.
fn fill(input: &mut impl Read, buf: &mut [u8]) -> Option<()> {
    (streams::read_full(input, buf) == buf.len()).then_some(())
}

// A length and so many bytes; none where the stream ends before.
fn read_field<'a>(input: &mut impl Read, buf: &'a mut [u8]) -> Option<&'a [u8]> {
    let mut size = [0u8; 2];
    fill(input, &mut size)?;
    let field = buf.get_mut(..usize::from(u16::from_be_bytes(size)))?;
    fill(input, field)?;
    Some(field)
}

// A count and so many words; none where the stream ends before.
fn read_inputs<'a>(input: &mut impl Read, inputs: &'a mut [u32; 255]) -> Option<&'a [u32]> {
    let mut count = [0u8; 1];
    fill(input, &mut count)?;
    let n = usize::from(count[0]);
    let mut bytes = [0u8; 1020];
    fill(input, &mut bytes[..4 * n])?;
    for (i, word) in inputs.iter_mut().enumerate() {
        *word = base_words::read32(&bytes, 4 * i);
    }
    Some(&inputs[..n])
}

// A gate: CODE.A.B.C.NEEDS, the highest word of its set first.
fn print_gate(rt: &impl Print, circuit: &Circuit, g: usize)
    requires { g < gate_room }
{
    let [code, a, b, c] = [
        circuit.quads[4 * g],
        circuit.quads[4 * g + 1],
        circuit.quads[4 * g + 2],
        circuit.quads[4 * g + 3],
    ];
    let s = base_settings::load(&circuit.needs, g);
    let _ = print!(rt;
        " {code:02X}.{a}.{b}.{c}.{:016X}{:016X}{:016X}{:016X}",
        s.w3, s.w2, s.w1, s.w0
    );
}

fn circuit_line(rt: &impl Print, rule: &[u8]) {
    let mut circuit = Circuit::clear();
    let built = circuit_build::build(rule, &mut circuit);
    print_answer(rt, Answer::from(built));
    let _ = print!(rt; " |");
    for g in 0..circuit.count.min(circuit::GATE_ROOM) {
        print_gate(rt, &circuit, g);
    }
}

fn print_words(rt: &impl Print, words: &[u32]) {
    let _ = print!(rt; " |");
    for word in words {
        let _ = print!(rt; " {word}");
    }
}

// A run into so many result places.
fn run_line<F: FnOnce(&mut [u32]) -> Answer>(rt: &impl Print, room: usize, run: F)
    requires fits { room ≤ 65535 }
    requires runs { F.IsAlwaysCallable run }
{
    let mut results = [UNTOUCHED; 65535];
    let a = run(&mut results[..room]);
    print_answer(rt, a);
    print_words(rt, &results[..room]);
}

// The file that is written into a buffer of so many bytes, and how many bytes behind it are as they were.
fn write_line(rt: &impl Print, room: usize, rule: &[u8], plan: &[u8])
    requires { room ≤ 65535 }
{
    let mut buf = [CLEAN; 65535];
    let out = &mut buf[..room];
    let a = fused_write::write(rule, plan, out);
    print_answer(rt, a);
    let n = a.bytes.min(room);
    let clean = out[n..].iter().filter(|b| **b == CLEAN).count();
    let _ = print!(rt; " | {} {clean}", Hex(&out[..n]));
}

// One record of a circuit file, or `-` for none.
fn record_line(rt: &impl Print, file: &[u8], wire: WireId) {
    print_answer(rt, file_reader::read(file));
    let _ = print!(rt; " | {}", Hex(file_reader::record(file, wire)));
}

// The line of a case; none for an operation that is not built.
fn work(rt: &impl Print, case: Case) -> Option<()>
    requires { case.room ≤ 65535 }
{
    let Case {
        room,
        first,
        second,
        inputs,
        ..
    } = case;
    // The stream's numbers, matched once: an enum with its TryFrom would name each twice more.
    match case.operation {
        1 => print_answer(rt, circuit_build::read_rule(first)),
        2 => run_line(rt, room, |results| run_direct::run(first, inputs, results)),
        3 => print_answer(rt, plan_check::check_plan(first, second)),
        4 => write_line(rt, room, first, second),
        5 => run_line(
            rt,
            room,
            |results| run_fused::run(first, second, inputs, results),
        ),
        6 => circuit_line(rt, first),
        7 => print_answer(rt, file_reader::read(first)),
        8 => record_line(rt, first, WireId(case.number)),
        9 => run_line(rt, room, |results| file_reader::run(first, inputs, results)),
        _ => return None,
    }
    let _ = print!(rt; "\n");
    Some(())
}

// What follows the first six bytes of a case, and its line; none where the stream ends before or the operation is not built.
fn answer_case(rt: &impl Print, input: &mut impl Read, head: [u8; 6]) -> Option<()> {
    let mut first = [0u8; 65535];
    let mut second = [0u8; 65535];
    let mut inputs = [0u32; 255];
    let case = Case {
        operation: head[0],
        number: base_words::read16(&head, 2),
        room: usize::from(base_words::read16(&head, 4)),
        first: read_field(input, &mut first)?,
        second: read_field(input, &mut second)?,
        inputs: read_inputs(input, &mut inputs)?,
    };
    work(rt, case)
}

// One case, where the stream has one: its line, or `refused` where it is cut. Answers whether another may follow.
fn next_case(rt: &impl Print, input: &mut impl Read) -> bool {
    let mut head = [0u8; 6];
    let n = streams::read_full(input, &mut head);
    if n == 0 {
        return false;
    }
    if n == 6 && answer_case(rt, input, head).is_some() {
        return true;
    }
    let _ = print!(rt; "refused\n");
    false
}

// Case after case. The bound is more than any stream has, and lets the loop be seen to end.
fn cases(rt: &impl Print, input: &mut impl Read) {
    for _ in 0..u64::MAX {
        if !next_case(rt, input) {
            return;
        }
    }
}

fn main(rt: HostRuntime) {
    let mut input = rt.stdin();
    let mut mark = [0u8; 5];
    if fill(&mut input, &mut mark).is_some() && mark == *b"CAS\x00\x01" {
        cases(&rt, &mut input);
    } else {
        let _ = print!(&rt; "refused\n");
    }
}
