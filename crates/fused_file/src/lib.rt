// Document 01, "The fused circuit file": the whole file put together from lent arrays, its head, the records of the groups in the order of writing, each group's
// behind the last record written, and the outputs; and what the records come to, before they are written.
#![tactic(auto)]

ghost use Rattle.std.specs.Prelude.{◌≡◌, ◌∷◌, ◌++◌, map, ◌+◌, ◌*◌, ◌≤◌, ◌<◌, length, get_or, replicate};
ghost use Rattle.base.specs.Lists.{upto};
ghost use Rattle.base.specs.Numbers.{bytes_of};
ghost use Rattle.base.specs.Buffers.{over};
ghost use Rattle.file.specs.Versions.{written_version};
ghost use Rattle.file.specs.CircuitFile.{mark, wires_bytes};
ghost use Rattle.rule.specs.Header.{variables, HasKinds};
ghost use Rattle.fused_gate.specs.Emitted.{Written, Grouped};
ghost use Rattle.fused_file.specs.Turns.{OutputsPlaced, PlaceOf};
ghost use Rattle.fused_file.specs.Fusions.{output_by, group_bytes, stage_of, stage_bytes, file_for, GroupWired, MeasurableIn, GroupMeasured, MeasuresIn, Summed, PuttableIn, TurnableIn};
ghost use Rattle.circuit.specs.Rooms.{gate_room};

use circuit::{Circuit, GATE_ROOM, GateId, VARIABLE_ROOM};
use file::WireId;
use fused_gate::Wiring;
use fused_group::Joint;
use fused_size::Size;
use plan::Grouping;
use rule::Rule;

// The output of variable x of a rule, as the file has it: the wire of its last gate, and for a working one the number that the file's form sets aside for no
// wire (document 02, C-13; `no_wire` in `output_in`), so no Option.
fn output_of(rule: Rule, x: u8, outputs: &[u16; VARIABLE_ROOM], wiring: Wiring) -> WireId
    requires { (x < variables rule.bytes.now) × Grouped wiring.group.now (get_or outputs.now x 0) }
    ensures { result.0 ≡ output_by rule.entry.bytes.now outputs.now wiring.entry x }
{
    if rule.working_at(x) {
        WireId(file::NO_WIRE)
    } else {
        wiring.of(GateId(outputs[x as usize]))
    }
}

// The outputs of a rule's variables.
fn put_outputs(out: &mut [u8], rule: Rule, outputs: &[u16; VARIABLE_ROOM], wiring: Wiring)
    requires { OutputsPlaced outputs.now (variables rule.bytes.now) wiring.group.now × (2 * variables rule.bytes.now ≤ length out.old) }
    ensures { out.new ≡ over (wires_bytes (map (output_by rule.entry.bytes.now outputs.now wiring.entry) (upto (variables rule.entry.bytes.now)))) out.old }
{
    for x in 0..rule.variables() {
        let w = output_of(rule, x, outputs, wiring);
        base_words::put16(&mut out[2 * usize::from(x)..], w.0);
    }
}

// "CIR", the version, the variables, the wires.
fn put_head(out: &mut [u8], v: u8, count: u16)
    requires { 8 ≤ length out.old }
    ensures { out.new ≡ over (mark written_version ++ (v ∷ bytes_of 2 count)) out.old }
{
    out[..6].copy_from_slice(&[0x43, 0x49, 0x52, 0, file::WRITTEN_VERSION, v]);
    base_words::put16(&mut out[6..], count);
}

// What is written of a group: its bytes and how many records they are.
#[derive(Clone, Copy)]
struct Put {
    bytes: usize,
    wires: u16,
}

// What a fused circuit is measured and written from: a checked plan, the rule's circuit and the plan's groups.
#[derive(Clone, Copy)]
pub struct Fusion<'a> {
    pub plan: &'a [u8],
    pub circuit: &'a Circuit,
    pub grouping: &'a Grouping,
}

impl Fusion<'_> {
    // Where group q lies in the plan; nothing where it is alone, which the array of places has as 0.
    fn place(self, q: GateId) -> Option<usize>
        requires { q.0 < gate_room }
        ensures { PlaceOf result (get_or self.entry.grouping.now.places q.0 0) }
    {
        match self.grouping.places[q.index()] {
            0 => None,
            at => Some(usize::from(at)),
        }
    }

    // The size of group q over the wires of those before it.
    fn size_group(self, q: GateId, wires: &[u16; GATE_ROOM]) -> Size
        requires { (q.0 < gate_room) × MeasurableIn self q.0 }
        ensures { GroupMeasured self.entry q.0 wires.now result }
    {
        let Some(at) = self.place(q) else {
            return fused_size::size_alone(&self.circuit.quads, q);
        };
        fused_size::size_joined(Joint {
            plan: self.plan,
            at,
            circuit: self.circuit,
            wiring: Wiring {
                group: &self.grouping.group,
                wires,
            },
        })
    }

    // The size of the groups in the order of writing. Each group's wire is kept as it will be written: the sizes of those after it depend on it.
    fn size_groups(self, wires: &mut [u16; GATE_ROOM]) -> Size
        requires { MeasuresIn self × (wires.old ≡ replicate gate_room 0) }
        ensures { Summed self.entry result }
    {
        let mut total = Size::default();
        // By index, here and in writing: of a loop over `&order[..groups]` the proof did not close, since it has no fact on the array's length behind two references.
        for i in 0..self.grouping.groups {
            let q = GateId(self.grouping.order[i]);
            total = total + self.size_group(q, wires);
            wires[q.index()] = (total.wires - 1) as u16;
        }
        total
    }

    // The size of all records.
    pub fn measure(self) -> Size
        requires { MeasuresIn self }
        ensures { Summed self.entry result }
    {
        let mut wires = [0u16; GATE_ROOM];
        self.size_groups(&mut wires)
    }

    // The records of group q, the first of them being wire `first`; gives their bytes and how many they are.
    fn put_group(self, out: &mut [u8], q: GateId, first: WireId, wires: &[u16; GATE_ROOM]) -> Put
        requires { (length (group_bytes self wires.now first.0 q.0) ≤ length out.old) × ((q.0 < gate_room) × PuttableIn self q.0 first.0) }
        ensures put { Written (group_bytes self.entry wires.now first.0 q.0) result.bytes out.old out.new }
        ensures wired { GroupWired self.entry wires.now first.0 q.0 result.wires }
    {
        let wiring = Wiring {
            group: &self.grouping.group,
            wires,
        };
        let Some(at) = self.place(q) else {
            let bytes = fused_gate::put_alone(out, &self.circuit.quads, wiring, q);
            return Put { bytes, wires: 1 };
        };
        let joint = Joint {
            plan: self.plan,
            at,
            circuit: self.circuit,
            wiring,
        };
        let picks = joint.picks();
        let bytes = joint.put(out, first, picks);
        Put {
            bytes,
            wires: joint.records(picks),
        }
    }

    // The records of the groups in the order of writing, each group's in the rest behind those written; gives their bytes, and each group's wire,
    // its last record's, at the place of its name.
    fn put_records(self, out: &mut [u8], wires: &mut [u16; GATE_ROOM]) -> usize
        requires { (length (stage_bytes self) ≤ length out.old) × (TurnableIn self × (wires.old ≡ replicate gate_room 0)) }
        ensures put { Written (stage_bytes self.entry) result out.old out.new }
        ensures wired { wires.new ≡ (stage_of self.entry).wires }
    {
        let mut at: usize = 0;
        let mut first = WireId(0);
        for i in 0..self.grouping.groups {
            let q = GateId(self.grouping.order[i]);
            let put = self.put_group(&mut out[at..], q, first, wires);
            at = at + put.bytes;
            first = WireId(first.0 + put.wires);
            wires[q.index()] = first.0 - 1;
        }
        at
    }

    // The whole file of a rule; `wired` is how many records it has.
    pub fn put_file(self, out: &mut [u8], rule: &[u8], wired: u16)
        requires { (length (file_for rule.now self) ≤ length out.old)
            × (TurnableIn self × ((wired ≡ length (stage_of self).records)
            × (HasKinds rule.now × OutputsPlaced self.circuit.now.outputs (variables rule.now) self.grouping.now.group))) }
        ensures { out.new ≡ over (file_for rule.now self.entry) out.old }
    {
        put_head(out, rule[5], wired);
        let mut wires = [0u16; GATE_ROOM];
        let n = self.put_records(&mut out[file::FIRST_RECORD..], &mut wires);
        let wiring = Wiring {
            group: &self.grouping.group,
            wires: &wires,
        };
        put_outputs(
            &mut out[file::FIRST_RECORD + n..],
            Rule { bytes: rule },
            &self.circuit.outputs,
            wiring,
        );
    }
}
