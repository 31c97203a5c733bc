// Definitions and laws of the plan file and its check (specs/); the code is in the crates `plan_..`.
#![tactic(auto)]

ghost use Rattle.std.specs.Prelude.{◌≡◌, ◌<◌, get_or};
ghost use Rattle.circuit.specs.Rooms.{gate_room};
ghost use Rattle.plan.specs.Ungrouped.{ungrouped, Ungrouped};

use circuit::{GATE_ROOM, GateId};

// The limits of a plan file, as specs/Limits.antt has them; the first group stands behind the least bytes.
pub const LEAST_PLAN_BYTES: usize = 9;

pub const MOST_PLAN_BYTES: usize = 1024;

// The groups of a checked plan in fixed memory: each gate's group, the place in the plan of each gate's group (0 for a group alone: a place stays a number, as
// the definition place_of has it, which says what the check hands up), and the groups in the order of writing, with how many they are; zeros after them.
#[derive(Clone, Copy)]
pub struct Grouping {
    pub group: [u16; GATE_ROOM],
    pub places: [u16; GATE_ROOM],
    pub order: [u16; GATE_ROOM],
    pub groups: usize,
}

impl Grouping {
    // No plan is checked yet.
    pub fn clear() -> Grouping
        ensures is { result ≡ ungrouped }
        ensures clear { Ungrouped result }
    {
        Grouping {
            group: [0u16; GATE_ROOM],
            places: [0u16; GATE_ROOM],
            order: [0u16; GATE_ROOM],
            groups: 0,
        }
    }

    // The group of a gate, by its smallest member.
    pub fn group_of(&self, g: GateId) -> GateId
        requires { g.0 < gate_room }
        ensures { result.0 ≡ get_or self.now.group g.0 0 }
    {
        GateId(self.group[g.index()])
    }
}
