// Document 01, "The plan file and its check" and "Refusals by place": rows 20 to 26 of a plan, and each gate's group.
// Each row is a pass over the whole file, in the order of their numbers; from row 24 on the groups are known to lie in the file.
#![tactic(auto)]

ghost use Rattle.std.specs.Prelude.{◌≡◌, ◌&&◌, true, ℕ, List, Bool, ◌<◌, ◌≤◌, eqb, leb, ltb, length, get_or, take, replicate};
ghost use Rattle.base.specs.Lists.{every, same, ◌∈◌};
ghost use Rattle.base.specs.Rows.{row_in};
ghost use Rattle.circuit.specs.Limits.{most_gates};
ghost use Rattle.plan.specs.PlanFile as file;
ghost use Rattle.plan.specs.Groups.{smallest};
ghost use Rattle.plan.specs.Rows as checks;
ghost use Rattle.plan_groups.specs.Tables.{group_table, place_table, each_alone};
ghost use Rattle.plan_groups.specs.Tests.{put_all};
ghost use Rattle.plan_groups.specs.Walks.{begins, Lie, ReadableGroup, Readable, Tells};
ghost use Rattle.circuit.specs.Rooms.{gate_room};
ghost use Rattle.plan.specs.Limits.{least_plan_bytes, most_plan_bytes};

use base::Row;
use circuit::GATE_ROOM;
use plan::Grouping;

// The size of the group that begins at a place.
pub fn size_at(plan: &[u8], at: usize) -> usize
    requires { at < length plan.now }
    ensures { (result ≡ get_or plan.now at 0) × (result < 256) }
{
    usize::from(plan[at])
}

// The place after that group.
pub fn after(plan: &[u8], at: usize) -> usize
    requires { (at < length plan.now) × (length plan.now ≤ most_plan_bytes) }
    ensures { result ≡ file.after plan.now at }
{
    at + 1 + 2 * size_at(plan, at)
}

// The gate count and the group count that the plan gives.
fn gates_counted(plan: &[u8]) -> usize
    requires { least_plan_bytes ≤ length plan.now }
    ensures { result ≡ file.gates_counted plan.now }
{
    usize::from(base_words::read16(plan, 5))
}

pub fn groups_counted(plan: &[u8]) -> usize
    requires { least_plan_bytes ≤ length plan.now }
    ensures { result ≡ file.groups_counted plan.now }
{
    usize::from(base_words::read16(plan, 7))
}

// 20: the plan's size.
fn size_fits(plan: &[u8]) -> bool
    ensures { result ≡ (leb least_plan_bytes (length plan.now) && leb (length plan.now) most_plan_bytes) }
{
    (plan::LEAST_PLAN_BYTES..=plan::MOST_PLAN_BYTES).contains(&plan.len())
}

// 21: the mark and version.
fn marked(plan: &[u8]) -> bool
    requires { least_plan_bytes ≤ length plan.now }
    ensures { result ≡ same (take 5 plan.now) file.mark }
{
    base_answers::read_mark(plan, b"PLN\x00\x01").is_ok()
}

// 23: as many groups as the plan counts lie in the file and end where it ends.
fn groups_end(plan: &[u8]) -> bool
    requires { (least_plan_bytes ≤ length plan.now) × (length plan.now ≤ most_plan_bytes) }
    ensures { result ≡ file.ends (file.groups_counted plan.now) plan.now least_plan_bytes }
{
    let mut at = plan::LEAST_PLAN_BYTES;
    for _ in 0..groups_counted(plan) {
        if plan.len() <= at {
            return false;
        }
        at = after(plan, at);
        if plan.len() < at {
            return false;
        }
    }
    at == plan.len()
}

// Does each group pass a test of the place where it begins?
pub fn every_group<F: Fn(usize) -> bool>(plan: &[u8], test: F) -> bool
    requires lie { (least_plan_bytes ≤ length plan.now) × Lie plan.now (file.groups_counted plan.now) least_plan_bytes }
    requires tested { (at : ℕ) → at ∈ begins plan.now → F.pre test at }
    ensures { (t : List ℕ → Bool) → Tells (F.post test) plan.now t → result ≡ checks.every_group t (file.groups_in plan.now) }
{
    let mut at = plan::LEAST_PLAN_BYTES;
    for _ in 0..groups_counted(plan) {
        if !test(at) {
            return false;
        }
        at = after(plan, at);
    }
    true
}

// 24: the group has two members or more.
fn size_counts(plan: &[u8], at: usize) -> bool
    requires { (file.after plan.now at ≤ length plan.now) × (length plan.now ≤ most_plan_bytes) }
    ensures { result ≡ leb 2 (length (file.group_at plan.now at)) }
{
    2 <= size_at(plan, at)
}

// 25: the numbers of the group rise, and are gates: each is at least `least`, one above the number before it, and below the gate count.
fn numbers_rise(plan: &[u8], at: usize, count: usize) -> bool
    requires { (file.after plan.now at ≤ length plan.now) × (length plan.now ≤ most_plan_bytes) }
    ensures { result ≡ (checks.rises (file.group_at plan.now at) && every (λ g. ltb g count) (file.group_at plan.now at)) }
{
    let mut least: usize = 0;
    for k in 0..size_at(plan, at) {
        let i = plan_member::member(plan, at, k).index();
        if !(least..count).contains(&i) {
            return false;
        }
        least = i + 1;
    }
    true
}

// The rows 20 to 25.
fn check_layout(plan: &[u8], count: usize) -> Result<(), Row>
    ensures { row_in result ≡ checks.first_failing (take 6 (checks.layout_rows count plan.now)) }
{
    if !size_fits(plan) {
        return Err(Row::PlanSize);
    }
    if !marked(plan) {
        return Err(Row::PlanMark);
    }
    if gates_counted(plan) != count {
        return Err(Row::GateCount);
    }
    if !groups_end(plan) {
        return Err(Row::PlanEnd);
    }
    if !every_group(plan, |at| size_counts(plan, at)) {
        return Err(Row::GroupSize);
    }
    if !every_group(plan, |at| numbers_rise(plan, at, count)) {
        return Err(Row::GroupNumbers);
    }
    Ok(())
}

// Each gate alone, in a table that is lent clear: a group that its own number names.
fn number_gates(count: usize, group: &mut [u16; GATE_ROOM])
    requires { (count ≤ most_gates) × (group.old ≡ replicate gate_room 0) }
    ensures { group.new ≡ each_alone count }
{
    for g in 0..count {
        group[g] = g as u16;
    }
}

// The members of the group that begins at a place take its first member's number and that place; false when one of them has a place already.
fn join_members(plan: &[u8], at: usize, count: usize, grouping: &mut Grouping) -> bool
    requires { ReadableGroup count plan.now at }
    ensures free { result ≡ every (λ g. eqb (get_or grouping.old.places g 0) 0) (file.group_at plan.now at) }
    ensures groups { result ≡ true → grouping.new.group ≡ put_all (file.group_at plan.now at) (smallest (file.group_at plan.now at)) grouping.old.group }
    ensures places { result ≡ true → grouping.new.places ≡ put_all (file.group_at plan.now at) at grouping.old.places }
    ensures rest { (grouping.new.order ≡ grouping.old.order) × (grouping.new.groups ≡ grouping.old.groups) }
{
    let first = plan_member::member(plan, at, 0);
    for k in 0..size_at(plan, at) {
        let i = plan_member::member(plan, at, k).index();
        if grouping.places[i] != 0 {
            return false;
        }
        grouping.group[i] = first.0;
        grouping.places[i] = at as u16;
    }
    true
}

// 26: no gate is in two groups. Every gate's group, and the place of its group in the plan, in tables that are lent clear.
fn join_groups(plan: &[u8], count: usize, grouping: &mut Grouping) -> bool
    requires { Readable count plan.now × ((grouping.old.group ≡ replicate gate_room 0) × (grouping.old.places ≡ replicate gate_room 0)) }
    ensures once { result ≡ checks.apart (file.groups_in plan.now) }
    ensures groups { result ≡ true → grouping.new.group ≡ group_table count (file.groups_in plan.now) }
    ensures places { result ≡ true → grouping.new.places ≡ place_table count plan.now }
    ensures rest { (grouping.new.order ≡ grouping.old.order) × (grouping.new.groups ≡ grouping.old.groups) }
{
    number_gates(count, &mut grouping.group);
    let mut at = plan::LEAST_PLAN_BYTES;
    for _ in 0..groups_counted(plan) {
        if !join_members(plan, at, count, grouping) {
            return false;
        }
        at = after(plan, at);
    }
    true
}

// Rows 20 to 26 of the plan for a circuit of `count` gates: the first that refuses it. Where none does, each gate's group, by its smallest member, is noted,
// and the place of that group in the plan, 0 for a gate that no group lists. Both tables are lent clear, and clear after a refusal.
pub fn group_gates(plan: &[u8], count: usize, grouping: &mut Grouping) -> Result<(), Row>
    requires { (count ≤ most_gates) × ((grouping.old.group ≡ replicate gate_room 0) × (grouping.old.places ≡ replicate gate_room 0)) }
    ensures number { row_in result ≡ checks.first_failing (checks.layout_rows count plan.now) }
    ensures groups { row_in result ≡ 0 → grouping.new.group ≡ group_table count (file.groups_in plan.now) }
    ensures places { row_in result ≡ 0 → grouping.new.places ≡ place_table count plan.now }
    ensures rest { (grouping.new.order ≡ grouping.old.order) × (grouping.new.groups ≡ grouping.old.groups) }
    ensures refused { (row_in result ≡ 0 → ⊥) → (grouping.new.group ≡ replicate gate_room 0) × (grouping.new.places ≡ replicate gate_room 0) }
{
    check_layout(plan, count)?;
    if !join_groups(plan, count, grouping) {
        grouping.group = [0u16; GATE_ROOM];
        grouping.places = [0u16; GATE_ROOM];
        return Err(Row::InTwoGroups);
    }
    Ok(())
}
