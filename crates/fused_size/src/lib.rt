// Document 01, "The fused circuit file": what the records of one group come to, before they are written.
#![tactic(auto)]

ghost use Rattle.std.specs.Prelude.{◌≡◌, List, ◌∷◌, [], ℕ, ◌<◌};
ghost use Rattle.fused_size.specs.Sizes.{one_of, sum_of, Together, SumOf, rested_by, GuardsSized, PlaceSized, Measured, MeasuredIn};
ghost use Rattle.fused_gate.specs.Emitted.{Coded};
ghost use Rattle.fused_group.specs.Joints.{members, LiesIn, JoinableIn};
ghost use Rattle.base.specs.SetsHeld.{sets_in};
ghost use Rattle.circuit.specs.Rooms.{gate_room};

use circuit::{GateId, QUAD_ROOM};
use fused_group::{Joint, Picks};
use std::ops::Add;

// What records come to.
#[derive(Clone, Copy, Default)]
pub struct Size {
    pub wires: usize,
    pub bytes: usize,
    pub cost: usize,
}

impl Size {
    // One record.
    fn one(bytes: usize, cost: u8) -> Size
        ensures { result ≡ one_of bytes cost }
    {
        Size {
            wires: 1,
            bytes,
            cost: usize::from(cost),
        }
    }
}

impl Add for Size {
    type Output = Size;

    ghost can_add = { Together };

    ghost add_gives = { SumOf };

    fn add(self, more: Size) -> Size {
        Size {
            wires: self.wires + more.wires,
            bytes: self.bytes + more.bytes,
            cost: self.cost + more.cost,
        }
    }
}

// The size of a group alone.
pub fn size_alone(quads: &[u32; QUAD_ROOM], g: GateId) -> Size
    requires { Coded quads.now g.0 }
    ensures { (sets : List ℕ) (wire : ℕ → ℕ) → Measured quads.now sets wire (g.0 ∷ []) result }
{
    match quads[4 * g.index()] {
        circuit::CHOICE => Size::one(7, circuit::CHOICE_COST),
        circuit::WORD => Size::one(5, 0),
        code => {
            let means = base_codes::code_of(code as u8);
            if means.arity == 0 {
                Size::one(2, 0)
            } else {
                Size::one(1 + 2 * usize::from(means.arity), means.cost)
            }
        }
    }
}

// How many wires the guards of a group read.
fn rested_by(joint: Joint) -> usize
    requires { LiesIn joint }
    ensures { result ≡ rested_by (sets_in joint.entry.circuit.now.needs) (members joint.entry) }
{
    let mut n: usize = 0;
    for i in 0..joint.size() as usize {
        let m = joint.member(i);
        let s = base_settings::load(&joint.circuit.needs, m.index());
        n = n + usize::from(base_settings::rested(s).count);
    }
    n
}

// The bytes of a guard, but for the wires that it reads: two and its table.
const GUARD_BYTES: usize = 2 + file::WRITTEN_TABLE;

// The guards of a joined group, members rising; nothing where no pick remains: then the conditions are not even counted.
fn size_kept(joint: Joint, picks: Picks) -> Size
    requires { LiesIn joint }
    ensures { GuardsSized (sets_in joint.entry.circuit.now.needs) joint.entry.plan.now joint.entry.at picks result }
{
    if picks.any() {
        let size = usize::from(joint.size());
        let n = rested_by(joint);
        Size {
            wires: size,
            bytes: GUARD_BYTES * size + 2 * n,
            cost: size,
        }
    } else {
        Size::default()
    }
}

// The pick of one argument place, of so many pairs; nothing where the place has none.
fn size_place(size: u8, picked: bool) -> Size
    ensures { PlaceSized size picked result }
{
    let size = usize::from(size);
    if picked {
        Size {
            wires: 1,
            bytes: 2 + 4 * size,
            cost: 2 * size,
        }
    } else {
        Size::default()
    }
}

// The size of a joined group: guards, picks, the operation, by the decision which picks it has.
pub fn size_joined(joint: Joint) -> Size
    requires { JoinableIn joint }
    ensures { MeasuredIn joint.entry result }
{
    let picks = joint.picks();
    let size = joint.size();
    let kept = size_kept(joint, picks);
    let first = size_place(size, picks.first);
    let second = size_place(size, picks.second);
    let code = joint.circuit.quads[4 * joint.member(0).index()];
    let operation = Size::one(5, base_codes::code_of(code as u8).cost);
    kept + first + second + operation
}
