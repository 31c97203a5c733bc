// Document 01, "Needed gates", over lent arrays: the one backward pass that finds every gate's precondition: liveness, for all settings of the conditions at once.
// The lent arrays hold plain numbers; a gate's number in hand is a `GateId`, its set a `Set`.
#![tactic(auto)]

ghost use Rattle.std.specs.Prelude.{◌≡◌, ◌++◌, ◌-◌, ◌<◌, ◌≤◌, get_or, replicate};
ghost use Rattle.base.specs.Sets.{whole, given, without};
ghost use Rattle.circuit.specs.Limits.{most_conditions, most_settings};
ghost use Rattle.base.specs.Lists.{Inside};
ghost use Rattle.circuit_needed.specs.Held.{gates_in};
ghost use Rattle.circuit_needed.specs.Pass.{precondition_sets};
ghost use Rattle.circuit_needed.specs.Passing.{add_number, add_numbers, hand_gate, pass_gates, hand_gates_from, Passable};
ghost use Rattle.base.specs.SetsHeld.{set_of, sets_in};
ghost use Rattle.circuit.specs.Rooms.{gate_room};

use base::Set;
use circuit::{GATE_ROOM, GateId, NEED_WORDS, QUAD_ROOM};

// The set s is put to that of gate g.
fn add(sets: &mut [u64; NEED_WORDS], g: GateId, s: Set)
    requires { g.0 < gate_room }
    ensures { sets_in sets.new ≡ add_number g.0 (set_of s) (sets_in sets.old) }
{
    let i = g.index();
    let old = base_settings::load(sets, i);
    base_settings::store(sets, i, base_settings::union(old, s));
}

// Gate g is needed under every setting, whatever its set was: that is not read.
fn add_whole(sets: &mut [u64; NEED_WORDS], g: GateId)
    requires { g.0 < gate_room }
    ensures { sets_in sets.new ≡ add_number g.0 (whole most_settings) (sets_in sets.old) }
{
    let i = g.index();
    let old = base_settings::load(sets, i);
    base_settings::store(sets, i, base_settings::with_whole(old));
}

// Every wanted gate is needed under every setting.
fn want_all(wanted: &[u16], sets: &mut [u64; NEED_WORDS])
    requires { Inside gate_room wanted.now }
    ensures { sets_in sets.new ≡ add_numbers wanted.now (whole most_settings) (sets_in sets.old) }
{
    for g in wanted {
        add_whole(sets, GateId(*g));
    }
}

// The set s of an operation is put to that of its argument g. Where s is the whole set no set is read for it, so no gate's turn waits for what the last one stored.
fn hand_to(sets: &mut [u64; NEED_WORDS], g: GateId, s: Set)
    requires { g.0 < gate_room }
    ensures { sets_in sets.new ≡ add_number g.0 (set_of s) (sets_in sets.old) }
{
    if base_settings::is_whole(s) {
        add_whole(sets, g);
    } else {
        add(sets, g, s);
    }
}

// The number of the condition that gate c is.
fn rank_of(ranks: &[u16; GATE_ROOM], c: GateId) -> u8
    requires { (c.0 < gate_room) × ((0 < get_or ranks.now c.0 0) × (get_or ranks.now c.0 0 ≤ most_conditions)) }
    ensures { result ≡ get_or ranks.now c.0 0 - 1 }
{
    (ranks[c.index()] - 1) as u8
}

// A choice on c, whose number is t: its set goes to c, the settings that give t the bit 1 to the first value, a, the others to the second, b.
fn hand_choice(
    sets: &mut [u64; NEED_WORDS],
    ranks: &[u16; GATE_ROOM],
    c: GateId,
    a: GateId,
    b: GateId,
    s: Set,
)
    requires { ((c.0 < gate_room) × ((0 < get_or ranks.now c.0 0) × (get_or ranks.now c.0 0 ≤ most_conditions))) × ((a.0 < gate_room) × (b.0 < gate_room)) }
    ensures { sets_in sets.new ≡ add_number b.0 (without most_settings (get_or ranks.now c.0 0 - 1) (set_of s))
        (add_number a.0 (given most_settings (get_or ranks.now c.0 0 - 1) (set_of s)) (add_number c.0 (set_of s) (sets_in sets.old))) }
{
    let t = rank_of(ranks, c);
    let parts = base_settings::part(t, s);
    add(sets, c, s);
    add(sets, a, parts.given);
    add(sets, b, parts.without);
}

// The gates that the pass goes over: their quads, how many they are, and the number of each condition.
#[derive(Clone, Copy)]
struct Gates<'a> {
    quads: &'a [u32; QUAD_ROOM],
    ranks: &'a [u16; GATE_ROOM],
    count: usize,
    ghost passable: { Passable quads.now ranks.now count },
}

impl<'a> Gates<'a> {
    // Gate g hands its set on to what it asks for; its quad is read once. A starting value or a constant asks for nothing, and its set is not read.
    // A number of the quad is a gate's only where the code says so: not has one argument, every other operation two, a choice three.
    fn hand(&self, g: GateId, sets: &mut [u64; NEED_WORDS])
        requires { g.0 < self.now.count }
        ensures { sets_in sets.new ≡ hand_gate (gates_in self.now.quads.now self.now.count) g.0 (sets_in sets.old) }
    {
        let i = g.index();
        let code = self.quads[4 * i];
        if code < circuit::SUM {
            return;
        }
        let s = base_settings::load(sets, i);
        let x = self.quads[4 * i + 1];
        let y = self.quads[4 * i + 2];
        if code < circuit::NOT {
            hand_to(sets, GateId(x as u16), s);
            hand_to(sets, GateId(y as u16), s);
        } else if code == circuit::NOT {
            hand_to(sets, GateId(x as u16), s);
        } else if code == circuit::CHOICE {
            let z = self.quads[4 * i + 3];
            hand_choice(
                sets,
                self.ranks,
                GateId(x as u16),
                GateId(y as u16),
                GateId(z as u16),
                s,
            );
        }
    }

    // Document 02, C-14: one backward pass over one list of sets that is changed in place. Each gate has its turn once, from the last to the first;
    // its set is final by then, so the set that it hands on is the one that it has at the end.
    fn pass(&self, sets: &mut [u64; NEED_WORDS])
        ensures passed { sets_in sets.new ≡ pass_gates (gates_in self.now.quads.now self.now.count) self.now.count (sets_in sets.old) }
        ensures settled { sets_in sets.new ≡ hand_gates_from (gates_in self.now.quads.now self.now.count) (sets_in sets.new) self.now.count (sets_in sets.old) }
    {
        for i in (0..self.count as u16).rev() {
            self.hand(GateId(i), sets);
        }
    }
}

// Every gate's precondition, for the gates that are wanted from the start, in sets that are lent clear. It takes arrays side by side, as C lends them
// to `linnet_pass`.
pub fn find_needed(
    quads: &[u32; QUAD_ROOM],
    count: usize,
    ranks: &[u16; GATE_ROOM],
    wanted: &[u16],
    sets: &mut [u64; NEED_WORDS],
)
    requires { (Passable quads.now ranks.now count × Inside count wanted.now) × (sets_in sets.old ≡ replicate gate_room 0) }
    ensures { sets_in sets.new ≡ precondition_sets most_conditions (gates_in quads.now count) wanted.now ++ replicate (gate_room - count) 0 }
{
    let gates = Gates {
        quads,
        ranks,
        count,
    };
    want_all(wanted, sets);
    gates.pass(sets);
}
