// Document 01, "The fused circuit file", Order, and row 30 of "Refusals by place": the next ready group, again and again.
// Sets of groups and the table of waits lie as `plan_waits` keeps them.
#![tactic(auto)]

ghost use Rattle.std.specs.Prelude.{◌≡◌, true, reverse, ◌+◌, ◌*◌, ◌<◌, ◌≤◌, length, get_or, replicate};
ghost use Rattle.base.specs.Buffers.{over};
ghost use Rattle.base.specs.Bits.{bit};
ghost use Rattle.circuit_needed.specs.Held.{gates_in};
ghost use Rattle.plan.specs.Order as plan;
ghost use Rattle.plan_waits.specs.Reads.{Orderable};
ghost use Rattle.plan_order.specs.Row.{order_of};
ghost use Rattle.plan_order.specs.Search.{next_ready, place_of, lowered, Holding};
ghost use Rattle.base.specs.SetsHeld.{sets_in};
ghost use Rattle.circuit.specs.Rooms.{gate_room};

use base::Row;
use circuit::{Circuit, GATE_ROOM, GateId};
use plan::Grouping;

// So few gates have a small table of waits.
const FEW: usize = 32;

// The words of a table of waits: those of few gates, and of any.
const FEW_WORDS: usize = base::SET_WORDS * FEW;

const WAIT_WORDS: usize = base::SET_WORDS * GATE_ROOM;

// What is noted at a group that holds up none: no group comes behind this one, so that a note of it changes nothing. It stays a number: a note is one byte of
// fixed memory, and one comparison serves both cases.
const NONE: u8 = 255;

// The highest number of a word that is not empty. Of the groups that hold one up it is mostly written last.
fn highest(x: u64) -> usize
    requires { x ≡ 0 → ⊥ }
    ensures { (result < 64) × (bit x result ≡ true) }
{
    x.ilog2() as usize
}

// Group p is held up by group q: it is noted there, unless a lower one is.
fn hold(watch: &mut [u8; GATE_ROOM], q: GateId, p: GateId)
    requires { (q.0 < gate_room) × ((p.0 < gate_room) × (length watch.old ≡ gate_room)) }
    ensures { watch.new ≡ lowered q.0 p.0 watch.old }
{
    let i = q.index();
    let b = p.0 as u8;
    if b < watch[i] {
        watch[i] = b;
    }
}

// The first group from `from` on that is left and waits for none that is left; none where a circle remains. Each group left that is passed by on the
// way waits for one that is left, and is noted in `watch` there: it need not be asked again before that one is struck. Two loops, the inner one over the
// waits and labelled, that yield by break: the form that document 01 names for this search.
fn next_ready(
    waits: &[u64],
    left: &[u64],
    watch: &mut [u8; GATE_ROOM],
    from: GateId,
    count: usize,
) -> Option<GateId>
    requires { (count ≤ gate_room) × ((4 * count ≤ length waits.now) × ((length left.now ≡ 4) × ((from.0 ≤ count) × Holding waits.now left.now watch.old from.0))) }
    ensures next { result ≡ next_ready waits.now left.now from.0 count }
    ensures held { Holding waits.now left.now watch.new (place_of result count) }
{
    let mut p = from.index();
    'search: loop {
        if p >= count {
            break 'search None;
        }
        if plan_waits::has(left, 0, GateId(p as u16)) {
            let mut w: usize = 0;
            'waits: loop {
                if w >= base::SET_WORDS {
                    break 'search Some(GateId(p as u16));
                }
                let both = waits[4 * p + w] & left[w];
                if both != 0 {
                    let q = 64 * w + highest(both);
                    hold(watch, GateId(q as u16), GateId(p as u16));
                    break 'waits;
                }
                w += 1;
            }
        }
        p += 1;
    }
}

// The groups in the order of writing: again and again the next ready group. No group below `from` is ready; the lowest that was held up by the
// group written may be then, and the search goes on there. `waits` is a clear table. That its note is read before the group is written and cleared where
// it is used keeps the step to `from` a branch, which is mostly foreseen: as a choice of two numbers it is slower by 5 % for 256 gates.
fn order_in(circuit: &Circuit, grouping: &mut Grouping, waits: &mut [u64]) -> Result<usize, Row>
    requires { Orderable circuit.now grouping.old
        × ((length grouping.old.order ≡ gate_room) × ((waits.old ≡ replicate (length waits.old) 0) × (4 * circuit.now.count ≤ length waits.old))) }
    ensures answer { result ≡ order_of (gates_in circuit.now.quads circuit.now.count) (sets_in circuit.now.needs) (λ x. get_or grouping.old.group x 0) }
    ensures written { grouping.new ≡ record grouping.old {
      order = over (reverse (plan.order (gates_in circuit.now.quads circuit.now.count) (sets_in circuit.now.needs) (λ x. get_or grouping.old.group x 0))) grouping.old.order;
    } }
{
    plan_waits::find_waits(circuit, grouping, waits);
    let mut left = [0u64; base::SET_WORDS];
    let n = plan_waits::find_left(grouping, circuit.count, &mut left);
    let mut watch = [NONE; GATE_ROOM];
    let mut from: u16 = 0;
    for k in 0..n {
        let Some(p) = next_ready(waits, &left, &mut watch, GateId(from), circuit.count) else {
            return Err(Row::Circle);
        };
        let i = p.index();
        let lower = u16::from(watch[i]);
        grouping.order[k] = p.0;
        plan_waits::strike(&mut left, p);
        if lower <= p.0 {
            watch[i] = NONE;
            from = lower;
        } else {
            from = p.0 + 1;
        }
    }
    Ok(n)
}

// Row 30: the groups in the order of writing, and how many they are; or a circle remains. Few gates have a small table of waits, which is sooner cleared.
pub fn order_groups(circuit: &Circuit, grouping: &mut Grouping) -> Result<usize, Row>
    requires { Orderable circuit.now grouping.old × (length grouping.old.order ≡ gate_room) }
    ensures answer { result ≡ order_of (gates_in circuit.now.quads circuit.now.count) (sets_in circuit.now.needs) (λ x. get_or grouping.old.group x 0) }
    ensures written { grouping.new ≡ record grouping.old {
      order = over (reverse (plan.order (gates_in circuit.now.quads circuit.now.count) (sets_in circuit.now.needs) (λ x. get_or grouping.old.group x 0))) grouping.old.order;
    } }
{
    if circuit.count <= FEW {
        let mut few = [0u64; FEW_WORDS];
        return order_in(circuit, grouping, &mut few);
    }
    let mut waits = [0u64; WAIT_WORDS];
    order_in(circuit, grouping, &mut waits)
}
