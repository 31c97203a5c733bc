// The backward pass alone, exported so that it can be measured; nothing of the product calls it.
#![tactic(auto)]

ghost use Rattle.std.specs.Prelude.{◌≡◌, ◌++◌, ◌-◌, replicate};
ghost use Rattle.base.specs.Lists.{Inside};
ghost use Rattle.circuit.specs.Limits.{most_conditions};
ghost use Rattle.circuit_needed.specs.Held.{gates_in};
ghost use Rattle.circuit_needed.specs.Pass.{precondition_sets};
ghost use Rattle.circuit_needed.specs.Passing.{Passable};
ghost use Rattle.base.specs.SetsHeld.{sets_in};
ghost use Rattle.circuit.specs.Rooms.{gate_room};

use circuit::{GATE_ROOM, NEED_WORDS, QUAD_ROOM};

// Every gate's precondition, in sets that are lent clear. Whoever calls it lends what `circuit_pass::find_needed` asks for.
#[unsafe(no_mangle)]
pub extern "C" fn linnet_pass(
    quads: &[u32; QUAD_ROOM],
    count: usize,
    ranks: &[u16; GATE_ROOM],
    wanted: &[u16],
    sets: &mut [u64; NEED_WORDS],
)
    requires { (Passable quads.now ranks.now count × Inside count wanted.now) × (sets_in sets.old ≡ replicate gate_room 0) }
    ensures { sets_in sets.new ≡ precondition_sets most_conditions (gates_in quads.now count) wanted.now ++ replicate (gate_room - count) 0 }
{
    circuit_pass::find_needed(quads, count, ranks, wanted, sets)
}
