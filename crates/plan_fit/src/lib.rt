// Document 01, "The plan file and its check" and "Refusals by place", with document 02's C-15: rows 32 and 27 to 29 of a plan, whether its groups stand in
// order and the members of each fit together. Each row is a pass over the whole file; the groups are known to lie in the file.
#![tactic(auto)]

ghost use Rattle.std.specs.Prelude.{◌≡◌, ℕ, ◌<◌, eqb};
ghost use Rattle.base.specs.Lists.{every};
ghost use Rattle.base.specs.Rows.{row_in};
ghost use Rattle.circuit.specs.Gates.{gate_at};
ghost use Rattle.circuit_needed.specs.Held.{code_at, gate_in, gates_in};
ghost use Rattle.plan.specs.PlanFile as file;
ghost use Rattle.plan.specs.Rows as checks;
ghost use Rattle.plan_groups.specs.Tests.{operation_in};
ghost use Rattle.plan_groups.specs.Walks.{ReadableGroup, Readable};
ghost use Rattle.base.specs.SetsHeld.{sets_in};
ghost use Rattle.circuit.specs.Rooms.{gate_room};

use base::Row;
use circuit::{Circuit, GateId};

// 32: the groups stand in rising order of their smallest member. The numbers of a group rise, so it is the first.
fn groups_rise(plan: &[u8]) -> bool
    requires { (n : ℕ) × Readable n plan.now }
    ensures { result ≡ checks.groups_rise (file.groups_in plan.now) }
{
    let count = plan_groups::groups_counted(plan);
    if count == 0 {
        return true;
    }
    let mut at = plan::LEAST_PLAN_BYTES;
    let mut last = plan_member::member(plan, at, 0).index();
    for _ in 1..count {
        at = plan_groups::after(plan, at);
        let first = plan_member::member(plan, at, 0).index();
        if first <= last {
            return false;
        }
        last = first;
    }
    true
}

fn code_at(circuit: &Circuit, g: GateId) -> u32
    requires { g.0 < gate_room }
    ensures { result ≡ code_at circuit.now.quads g.0 }
{
    circuit.quads[4 * g.index()]
}

// 27 of a gate: a costly operation, by its code; a choice is none.
fn costly_gate(circuit: &Circuit, g: GateId) -> bool
    requires { g.0 < gate_room }
    ensures { result ≡ checks.is_costly (gate_in circuit.now.quads g.0) }
{
    0 < circuit_quads::code_entry(code_at(circuit, g)).cost
}

// The operation of a gate, by its code; none of a gate that is no operation.
fn operation_in(code: u32) -> Option<u32>
    ensures { result ≡ operation_in code }
{
    (circuit::SUM..=circuit::NOT)
        .contains(&code)
        .then_some(code)
}

// 28 of a gate: its operation is that of the group's first gate.
fn alike(circuit: &Circuit, first: GateId, g: GateId) -> bool
    requires { (first.0 < gate_room) × (g.0 < gate_room) }
    ensures { result ≡ eqb (checks.operation_byte (gate_in circuit.now.quads first.0)) (checks.operation_byte (gate_in circuit.now.quads g.0)) }
{
    operation_in(code_at(circuit, first)) == operation_in(code_at(circuit, g))
}

// 27 of the group that begins at a place.
fn all_costly(plan: &[u8], at: usize, circuit: &Circuit) -> bool
    requires { ReadableGroup circuit.now.count plan.now at }
    ensures { result ≡ every (λ g. checks.is_costly (gate_at (gates_in circuit.now.quads circuit.now.count) g)) (file.group_at plan.now at) }
{
    (0..plan_groups::size_at(plan, at)).all(|k| costly_gate(
        circuit,
        plan_member::member(plan, at, k),
    ))
}

// 28 of the group that begins at a place.
fn all_alike(plan: &[u8], at: usize, circuit: &Circuit) -> bool
    requires { ReadableGroup circuit.now.count plan.now at }
    ensures { result ≡ checks.alike (gates_in circuit.now.quads circuit.now.count) (file.group_at plan.now at) }
{
    let first = plan_member::member(plan, at, 0);
    (0..plan_groups::size_at(plan, at)).all(|k| alike(
        circuit,
        first,
        plan_member::member(plan, at, k),
    ))
}

// 29 of the group that begins at a place: numbers rise, so a member met later is another one.
fn all_apart(plan: &[u8], at: usize, circuit: &Circuit) -> bool
    requires { ReadableGroup circuit.now.count plan.now at }
    ensures { result ≡ checks.parted (sets_in circuit.now.needs) (file.group_at plan.now at) }
{
    let mut seen = base_settings::empty();
    for k in 0..plan_groups::size_at(plan, at) {
        let s = base_settings::load(&circuit.needs, plan_member::member(plan, at, k).index());
        if !base_settings::excludes(seen, s) {
            return false;
        }
        seen = base_settings::union(seen, s);
    }
    true
}

// Rows 32 and 27 to 29 of a plan that the rows before do not refuse, for the gates of the circuit and their preconditions: the first that refuses it.
pub fn check_groups(plan: &[u8], circuit: &Circuit) -> Result<(), Row>
    requires { Readable circuit.now.count plan.now }
    ensures { row_in result ≡ checks.first_failing (checks.join_rows (gates_in circuit.now.quads circuit.now.count) (sets_in circuit.now.needs) plan.now) }
{
    if !groups_rise(plan) {
        return Err(Row::GroupOrder);
    }
    if !plan_groups::every_group(plan, |at| all_costly(plan, at, circuit)) {
        return Err(Row::NotCostly);
    }
    if !plan_groups::every_group(plan, |at| all_alike(plan, at, circuit)) {
        return Err(Row::NotAlike);
    }
    if !plan_groups::every_group(plan, |at| all_apart(plan, at, circuit)) {
        return Err(Row::NotApart);
    }
    Ok(())
}
