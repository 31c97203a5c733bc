// Document 01, "The fused circuit file": the record of a gate alone, written at the start of a lent buffer; and what every record is written with, a gate's wire and a
// code with its wires. The lent arrays hold plain numbers; a gate's number in hand is a `GateId`, a wire's a `WireId`.
#![tactic(auto)]

ghost use Rattle.std.specs.Prelude.{◌≡◌, ◌∷◌, [], ◌<◌, ◌≤◌, length, get_or};
ghost use Rattle.base.specs.Numbers.{bytes_of};
ghost use Rattle.base.specs.Buffers.{over};
ghost use Rattle.circuit_needed.specs.Held.{Applies, code_at};
ghost use Rattle.file.specs.CircuitFile.{wires_bytes};
ghost use Rattle.fused_gate.specs.Emitted.{wire_by, alone_bytes, Written, Grouped, Writable};
ghost use Rattle.circuit.specs.Rooms.{quad_room};

use circuit::{GATE_ROOM, GateId, QUAD_ROOM};
use file::WireId;

// Which wire stands for a gate: each gate's group, and the wire of each group written.
#[derive(Clone, Copy)]
pub struct Wiring<'a> {
    pub group: &'a [u16; GATE_ROOM],
    pub wires: &'a [u16; GATE_ROOM],
}

impl Wiring<'_> {
    // The wire that stands for gate g: that of its group.
    pub fn of(self, g: GateId) -> WireId
        requires { Grouped self.group.now g.0 }
        ensures { result.0 ≡ wire_by self.entry g.0 }
    {
        WireId(self.wires[self.group[g.index()] as usize])
    }

    // The wire that stands for the gate whose number stands at a place of the quads.
    pub fn at(self, quads: &[u32; QUAD_ROOM], at: usize) -> WireId
        requires { (at < quad_room) × Grouped self.group.now (get_or quads.now at 0) }
        ensures { result.0 ≡ wire_by self.entry (get_or quads.now at 0) }
    {
        self.of(circuit_quads::argument(quads, at))
    }
}

fn put_byte(out: &mut [u8], x: u8)
    requires { 1 ≤ length out.old }
    ensures { out.new ≡ over (x ∷ []) out.old }
{
    out[0] = x;
}

// A code and one byte: an input or a bit constant, or how a pick or a guard begins.
pub fn put_short(out: &mut [u8], code: u8, x: u8)
    requires { 2 ≤ length out.old }
    ensures { out.new ≡ over (code ∷ x ∷ []) out.old }
{
    out[0] = code;
    out[1] = x;
}

fn put_word(out: &mut [u8], n: u32)
    requires { 5 ≤ length out.old }
    ensures { out.new ≡ over (0x11 ∷ bytes_of 4 n) out.old }
{
    put_byte(out, circuit::WORD as u8);
    base_words::put32(&mut out[1..], n);
}

// A code and one wire: not.
fn put_unary(out: &mut [u8], code: u8, a: WireId)
    requires { 3 ≤ length out.old }
    ensures { out.new ≡ over (code ∷ wires_bytes (a.0 ∷ [])) out.old }
{
    put_byte(out, code);
    base_words::put16(&mut out[1..], a.0);
}

// A code and two wires: any other operation.
pub fn put_binary(out: &mut [u8], code: u8, a: WireId, b: WireId)
    requires { 5 ≤ length out.old }
    ensures { out.new ≡ over (code ∷ wires_bytes (a.0 ∷ b.0 ∷ [])) out.old }
{
    put_unary(out, code, a);
    base_words::put16(&mut out[3..], b.0);
}

fn put_choice(out: &mut [u8], c: WireId, a: WireId, b: WireId)
    requires { 7 ≤ length out.old }
    ensures { out.new ≡ over (0x30 ∷ wires_bytes (c.0 ∷ a.0 ∷ b.0 ∷ [])) out.old }
{
    put_binary(out, circuit::CHOICE as u8, c, a);
    base_words::put16(&mut out[5..], b.0);
}

// An operation alone: one argument or two, as the table says.
fn put_applied(out: &mut [u8], quads: &[u32; QUAD_ROOM], wiring: Wiring, g: GateId) -> usize
    requires { (length (alone_bytes quads.now (wire_by wiring) g.0) ≤ length out.old) × (Writable quads.now wiring.group.now g.0 × Applies (code_at quads.now g.0)) }
    ensures { Written (alone_bytes quads.now (wire_by wiring.entry) g.0) result out.old out.new }
{
    let i = g.index();
    let code = quads[4 * i] as u8;
    let a = wiring.at(quads, 4 * i + 1);
    if base_codes::code_of(code).arity == 1 {
        put_unary(out, code, a);
        return 3;
    }
    let b = wiring.at(quads, 4 * i + 2);
    put_binary(out, code, a, b);
    5
}

// The record of gate g, a group alone; gives its bytes.
pub fn put_alone(out: &mut [u8], quads: &[u32; QUAD_ROOM], wiring: Wiring, g: GateId) -> usize
    requires { (length (alone_bytes quads.now (wire_by wiring) g.0) ≤ length out.old) × Writable quads.now wiring.group.now g.0 }
    ensures { Written (alone_bytes quads.now (wire_by wiring.entry) g.0) result out.old out.new }
{
    let i = g.index();
    let code = quads[4 * i];
    match code {
        circuit::CHOICE => {
            let c = wiring.at(quads, 4 * i + 1);
            let a = wiring.at(quads, 4 * i + 2);
            let b = wiring.at(quads, 4 * i + 3);
            put_choice(out, c, a, b);
            7
        }
        circuit::WORD => {
            put_word(out, quads[4 * i + 1]);
            5
        }
        circuit::SUM..=circuit::NOT => put_applied(out, quads, wiring, g),
        // A bit constant or a starting value: its bit or its variable.
        _ => {
            put_short(out, code as u8, quads[4 * i + 1] as u8);
            2
        }
    }
}
