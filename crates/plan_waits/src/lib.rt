// Document 01, "The plan file and its check": which group waits for which, as sets of groups.
// A set of groups is four words, as `base_bits` keeps them. The waits are one such set for each group p, from word 4 * p on.
#![tactic(auto)]

ghost use Rattle.std.specs.Prelude.{◌≡◌, map, ◌+◌, ◌*◌, ◌<◌, ◌≤◌, length, get_or, replicate};
ghost use Rattle.base.specs.SettingLists.{conditions_in, Lists};
ghost use Rattle.circuit_needed.specs.Held.{gates_in};
ghost use Rattle.plan.specs.Groups.{groups};
ghost use Rattle.base.specs.BitWords.{bit_in, put_bit, put_each, strike_bit};
ghost use Rattle.plan_waits.specs.Reads.{arity_of, arguments_at, Into, Orderable};
ghost use Rattle.plan_waits.specs.Gathering.{Waiting, Left};
ghost use Rattle.base.specs.SetsHeld.{sets_in};
ghost use Rattle.circuit.specs.Rooms.{gate_room};

use base::ConditionList;
use circuit::{Circuit, GateId};
use plan::Grouping;

// A choice has three arguments.
const CHOICE_ARITY: usize = 3;

// These three ask `base_bits` by the number of a group: a GateId, so that no other number comes into a set of groups. Without them each caller unwraps it.

// Is group q in the set from word `base` on?
pub fn has(words: &[u64], base: usize, q: GateId) -> bool
    requires { (base + 4 ≤ length words.now) × (q.0 < gate_room) }
    ensures { result ≡ bit_in base words.now q.0 }
{
    base_bits::has(words, base, q.0)
}

// Group q is put in the set from word `base` on.
fn put(words: &mut [u64], base: usize, q: GateId)
    requires { (base + 4 ≤ length words.old) × (q.0 < gate_room) }
    ensures { words.new ≡ put_bit base q.0 words.old }
{
    base_bits::put(words, base, q.0);
}

// Group q, which is in the set, is struck from it.
pub fn strike(words: &mut [u64], q: GateId)
    requires { (4 ≤ length words.old) × (q.0 < gate_room) }
    ensures { words.new ≡ strike_bit q.0 words.old }
{
    base_bits::strike(words, q.0);
}

// How many arguments a gate of this code has.
fn arity_of(code: u32) -> usize
    ensures { result ≡ arity_of code }
{
    if code == circuit::CHOICE {
        CHOICE_ARITY
    } else {
        usize::from(circuit_quads::code_entry(code).arity)
    }
}

// Group p waits for group q, which may be p itself.
fn wait_for(waits: &mut [u64], p: GateId, q: GateId)
    requires { (4 * p.0 + 4 ≤ length waits.old) × (q.0 < gate_room) }
    ensures { waits.new ≡ put_bit (4 * p.0) q.0 waits.old }
{
    put(waits, 4 * p.index(), q);
}

// Group p waits for the groups of gate m's arguments, its own too.
fn wait_arguments(circuit: &Circuit, grouping: &Grouping, m: GateId, p: GateId, waits: &mut [u64])
    requires { (m.0 < gate_room) × ((4 * p.0 + 4 ≤ length waits.old) × Into grouping.now.group (arguments_at circuit.now.quads m.0)) }
    ensures { waits.new ≡ put_each (4 * p.0) (map (λ a. get_or grouping.now.group a 0) (arguments_at circuit.now.quads m.0)) waits.old }
{
    let i = m.index();
    for k in 0..arity_of(circuit.quads[4 * i]) {
        let a = circuit_quads::argument(&circuit.quads, 4 * i + 1 + k);
        wait_for(waits, p, grouping.group_of(a));
    }
}

// Group p waits for the groups of the conditions that a list has, its own too.
fn wait_conditions(
    circuit: &Circuit,
    grouping: &Grouping,
    list: ConditionList,
    p: GateId,
    waits: &mut [u64],
)
    requires { (4 * p.0 + 4 ≤ length waits.old) × (Lists list × Into grouping.now.group (map (λ t. get_or circuit.now.conditions t 0) (conditions_in list))) }
    ensures { waits.new ≡ put_each (4 * p.0) (map (λ a. get_or grouping.now.group a 0) (map (λ t. get_or circuit.now.conditions t 0) (conditions_in list))) waits.old }
{
    for t in &list.at[..usize::from(list.count)] {
        let c = GateId(circuit.conditions[usize::from(*t)]);
        wait_for(waits, p, grouping.group_of(c));
    }
}

// The waits of every group, in one pass over the gates, from a clear table.
pub fn find_waits(circuit: &Circuit, grouping: &Grouping, waits: &mut [u64])
    requires { Orderable circuit.now grouping.now × ((waits.old ≡ replicate (length waits.old) 0) × (4 * circuit.now.count ≤ length waits.old)) }
    ensures { Waiting (gates_in circuit.now.quads circuit.now.count) (sets_in circuit.now.needs) (λ x. get_or grouping.now.group x 0) waits.new }
{
    for i in 0..circuit.count {
        let m = GateId(i as u16);
        let p = grouping.group_of(m);
        wait_arguments(circuit, grouping, m, p, waits);
        if grouping.places[i] != 0 {
            // A joined member is written behind the conditions that it rests on.
            let r = base_settings::rested(base_settings::load(&circuit.needs, i));
            wait_conditions(circuit, grouping, r, p, waits);
        }
    }
}

// Every group is left to write at first, from a clear set; gives how many there are.
pub fn find_left(grouping: &Grouping, count: usize, left: &mut [u64]) -> usize
    requires { (count ≤ gate_room) × (left.old ≡ replicate 4 0) }
    ensures counted { result ≡ length (groups count (λ x. get_or grouping.now.group x 0)) }
    ensures left { Left (λ x. get_or grouping.now.group x 0) count left.new }
{
    let mut n: usize = 0;
    for i in 0..count {
        let p = GateId(i as u16);
        if grouping.group_of(p) == p {
            put(left, 0, p);
            n = n + 1;
        }
    }
    n
}
