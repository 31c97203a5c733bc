// Reading a rule as its caller sees it, rows 1 to 11, and building its plain circuit.
#![tactic(auto)]

ghost use Rattle.std.specs.Prelude.{◌≡◌, ◌++◌, ◌-◌, ◌≤◌, length, take, replicate};
ghost use Rattle.base.specs.Lists.{Inside};
ghost use Rattle.circuit.specs.Limits.{most_conditions};
ghost use Rattle.circuit.specs.Gates.{Earlier};
ghost use Rattle.circuit_needed.specs.Needed.{wanted_among};
ghost use Rattle.circuit_needed.specs.Held.{gates_in};
ghost use Rattle.circuit_needed.specs.Ranks.{Marked};
ghost use Rattle.circuit_needed.specs.Pass.{precondition_sets};
ghost use Rattle.circuit_needed.specs.Passing.{Passable};
ghost use Rattle.circuit.specs.Whole.{rule_answer};
ghost use Rattle.circuit_needed.specs.Built.{built_quads, built_needs, built_outputs, built_conditions};
ghost use Rattle.circuit_build.specs.Making.{whole_in};
ghost use Rattle.base.specs.SetsHeld.{sets_in};
ghost use Rattle.base.specs.Refusals.{answer_in};
ghost use Rattle.circuit.specs.Clear.{Clear};
ghost use Rattle.circuit.specs.Rooms.{gate_room, variable_room};

use base::{Answer, Counts, Refusal, Row};
use circuit::{Circuit, GATE_ROOM, NEED_WORDS, QUAD_ROOM, VARIABLE_ROOM};
use rule::Rule;

// Rows 10 and 11, or the counts, of the gates that lie in `quads`; the conditions are marked in `ranks`, which are lent clear. No `Circuit`: a rule
// that is only read has none.
fn whole(
    size: usize,
    quads: &[u32; QUAD_ROOM],
    count: u16,
    ranks: &mut [u16; GATE_ROOM],
) -> Result<Counts, Refusal>
    requires { (count ≤ gate_room → Earlier (gates_in quads.now count)) × (ranks.old ≡ replicate gate_room 0) }
    ensures { (answer_in result ≡ whole_in quads.now count size) × (count ≤ gate_room → Marked (gates_in quads.now count) ranks.new) }
{
    if circuit::MOST_GATES < count {
        return Err(Refusal(Row::ManyGates, size));
    }
    let n = count as usize;
    let found = circuit_survey::survey(quads, n, ranks);
    if circuit::MOST_CONDITIONS < found.conditions as usize {
        return Err(Refusal(Row::ManyConditions, size));
    }
    Ok(Counts {
        gates: n,
        wires: 0,
        bytes: 0,
        before: found.cost,
        after: 0,
    })
}

// Reads a rule: its gates and their cost, or its refusal by rows 1 to 11.
pub fn read(rule: &[u8]) -> Result<Counts, Refusal>
    ensures { answer_in result ≡ rule_answer rule.now }
{
    // A copy is handed on: so the compiler takes the rule's place and length in two registers, not through memory.
    let rest = rule;
    rule_reader::read(rest)?;
    let mut quads = [0u32; QUAD_ROOM];
    let mut present = [0u16; VARIABLE_ROOM];
    let mut ranks = [0u16; GATE_ROOM];
    let count = circuit_plain::make_rule(rest, &mut quads, &mut present);
    whole(rule.len(), &quads, count, &mut ranks)
}

// The same in the seven numbers.
pub fn read_rule(rule: &[u8]) -> Answer
    ensures { result ≡ rule_answer rule.now }
{
    Answer::from(read(rule))
}

// The gates that are wanted from the start, out of every variable's last gate: those of the result variables, put down in `wanted`, which is lent for them.
fn list_wanted<'a>(
    rule: Rule,
    outputs: &[u16; VARIABLE_ROOM],
    wanted: &'a mut [u16; VARIABLE_ROOM],
) -> &'a [u16]
    requires { length wanted.old ≡ variable_room }
    ensures { result.now ≡ wanted_among rule.entry.bytes.now outputs.now }
{
    let mut k: usize = 0;
    for x in 0..rule.variables() {
        // Each is put down, and stays if its variable is a result.
        wanted[k] = outputs[x as usize];
        if !rule.working_at(x) {
            k += 1;
        }
    }
    &wanted[..k]
}

// Every gate's precondition, from what the rule wants of its outputs, in sets that are lent clear.
fn rule_needs(rule: Rule, ranks: &[u16; GATE_ROOM], circuit: &mut Circuit)
    requires { (Passable circuit.old.quads ranks.now circuit.old.count × Inside circuit.old.count (wanted_among rule.bytes.now circuit.old.outputs))
        × (sets_in circuit.old.needs ≡ replicate gate_room 0) }
    ensures needs { sets_in circuit.new.needs ≡ precondition_sets most_conditions (gates_in circuit.old.quads circuit.old.count) (wanted_among rule.entry.bytes.now circuit.old.outputs)
        ++ replicate (gate_room - circuit.old.count) 0 }
    ensures rest { circuit.new ≡ record circuit.old { needs = circuit.new.needs } }
{
    let mut room = [0u16; VARIABLE_ROOM];
    let wanted = list_wanted(rule, &circuit.outputs, &mut room);
    circuit_pass::find_needed(
        &circuit.quads,
        circuit.count,
        ranks,
        wanted,
        &mut circuit.needs,
    );
}

// Builds the plain circuit of a rule into memory that is lent clear: four numbers a gate, each gate's precondition, every variable's last gate,
// and each condition's gate; zeros after them. A refused rule leaves it clear.
pub fn build(rule: &[u8], circuit: &mut Circuit) -> Result<Counts, Refusal>
    requires { Clear circuit.old }
    ensures answer { answer_in result ≡ rule_answer rule.now }
    ensures quads { circuit.new.quads ≡ built_quads rule.now }
    ensures needs { sets_in circuit.new.needs ≡ built_needs rule.now }
    ensures outputs { circuit.new.outputs ≡ built_outputs rule.now }
    ensures conditions { circuit.new.conditions ≡ built_conditions rule.now }
    ensures count { circuit.new.count ≡ (rule_answer rule.now).gates }
{
    circuit.count = 0;
    rule_reader::read(rule)?;
    let mut ranks = [0u16; GATE_ROOM];
    let made = circuit_plain::make_rule(rule, &mut circuit.quads, &mut circuit.outputs);
    match whole(rule.len(), &circuit.quads, made, &mut ranks) {
        Ok(counts) => {
            let n = made as usize;
            circuit.count = n;
            circuit_survey::number_marked(n, &mut ranks);
            rule_needs(Rule { bytes: rule }, &ranks, circuit);
            circuit_survey::condition_gates(&ranks, n, &mut circuit.conditions);
            Ok(counts)
        }
        Err(refusal) => {
            circuit.quads = [0u32; QUAD_ROOM];
            circuit.outputs = [0u16; VARIABLE_ROOM];
            Err(refusal)
        }
    }
}
