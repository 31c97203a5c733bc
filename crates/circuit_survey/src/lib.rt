// Document 01, "The plain circuit", over lent arrays: a gate is four numbers of `quads`, `count` gates at most 256; what gates cost, and which are conditions.
// The lent arrays hold plain numbers; a gate's number in hand is a `GateId`.
#![tactic(auto)]

ghost use Rattle.std.specs.Prelude.{◌≡◌, ◌<◌, ◌≤◌, length, replicate};
ghost use Rattle.base.specs.Buffers.{over};
ghost use Rattle.circuit.specs.Gates.{Earlier, costs, conditions};
ghost use Rattle.circuit.specs.Limits.{most_gates, most_conditions};
ghost use Rattle.circuit_needed.specs.Held.{gates_in, code_cost, cost_table};
ghost use Rattle.circuit_needed.specs.Ranks.{Marked, marked_in, NumberedBelow};
ghost use Rattle.circuit.specs.Rooms.{gate_room, condition_room};

use circuit::{CONDITION_ROOM, GATE_ROOM, QUAD_ROOM};

// The cost of a gate, by its code.
fn cost_of(code: u32) -> u8
    ensures { result ≡ code_cost code }
{
    if code == circuit::CHOICE {
        circuit::CHOICE_COST
    } else {
        circuit_quads::code_entry(code).cost
    }
}

// The same of all codes below 40, in hexadecimal, to be looked up, since the tests take longer in a walk over mixed gates; the codes not named cost nothing.
// Each of the few that do is asked for by name, so that the compiler works the table out; a loop over the codes would ask at each walk.
fn cost_table() -> [u8; 64]
    ensures { result ≡ cost_table }
{
    let mut costs = [0u8; 64];
    costs[0x22] = cost_of(0x22);
    costs[0x23] = cost_of(0x23);
    costs[0x24] = cost_of(0x24);
    costs[0x25] = cost_of(0x25);
    costs[0x26] = cost_of(0x26);
    costs[0x30] = cost_of(circuit::CHOICE);
    costs
}

// The cost of a gate, looked up.
fn listed_cost(costs: &[u8; 64], code: u32) -> usize
    requires { costs.now ≡ cost_table }
    ensures { result ≡ code_cost code }
{
    if code < 64 {
        costs[code as usize] as usize
    } else {
        0
    }
}

// What a walk over the gates finds: how many conditions they have, and what they cost.
#[derive(Clone, Copy)]
pub struct Surveyed {
    pub conditions: u16,
    pub cost: usize,
}

// Counts the conditions and adds up the costs in one walk; it marks the gates that stand first in a choice gate, in ranks that are lent clear: the others are
// 0. Here and below arrays stand side by side, in no `Circuit`: a rule that is only read has none.
pub fn survey(quads: &[u32; QUAD_ROOM], count: usize, ranks: &mut [u16; GATE_ROOM]) -> Surveyed
    requires { (count ≤ most_gates) × (Earlier (gates_in quads.now count) × (ranks.old ≡ replicate gate_room 0)) }
    ensures counted { result.conditions ≡ length (conditions (gates_in quads.now count)) }
    ensures cost { result.cost ≡ costs (gates_in quads.now count) }
    ensures marked { Marked (gates_in quads.now count) ranks.new }
{
    let table = cost_table();
    let mut conditions: u16 = 0;
    let mut cost: usize = 0;
    for i in 0..count {
        let code = quads[4 * i];
        if code == circuit::CHOICE {
            let c = circuit_quads::argument(quads, 4 * i + 1);
            let at = c.index();
            conditions += 1 - ranks[at];
            ranks[at] = 1;
        }
        cost += listed_cost(&table, code);
    }
    Surveyed { conditions, cost }
}

// Numbers the marked gates from 1, rising.
pub fn number_marked(count: usize, ranks: &mut [u16; GATE_ROOM])
    requires { (count ≤ most_gates) × (length ranks.old ≡ gate_room) }
    ensures { NumberedBelow ranks.old ranks.new count }
{
    let mut t: u16 = 0;
    for g in 0..count {
        if ranks[g] != 0 {
            t += 1;
            ranks[g] = t;
        }
    }
}

// The gates that have a number, in rising order, in an array that is lent clear: of ranks that number the conditions, condition t is element t.
pub fn condition_gates(ranks: &[u16; GATE_ROOM], count: usize, gates: &mut [u16; CONDITION_ROOM])
    requires { ((count ≤ most_gates) × (length (marked_in ranks.now count) ≤ most_conditions)) × (gates.old ≡ replicate condition_room 0) }
    ensures { gates.new ≡ over (marked_in ranks.now count) (replicate condition_room 0) }
{
    let mut t: usize = 0;
    for g in 0..count {
        if ranks[g] != 0 {
            gates[t] = g as u16;
            t += 1;
        }
    }
}
