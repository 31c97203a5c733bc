// A gate as four numbers of a lent array, its quad, a four-address node (specs/Quads.antt of `circuit`): the gate that an argument names, and what a code means.
#![tactic(auto)]

ghost use Rattle.std.specs.Prelude.{◌≡◌, ◌<◌, get_or};
ghost use Rattle.base.specs.Codes.{code_of};
ghost use Rattle.circuit.specs.Rooms.{gate_room, quad_room};

use base::Code;
use circuit::{GateId, QUAD_ROOM};

// The gate whose number stands at a place of the quads, where an argument stands; a figure is never read so.
pub fn argument(quads: &[u32; QUAD_ROOM], at: usize) -> GateId
    requires { (at < quad_room) × (get_or quads.now at 0 < gate_room) }
    ensures { result.0 ≡ get_or quads.now at 0 }
{
    GateId(quads[at] as u16)
}

// What a code means, by the table of codes; a number that is no byte is no code, as FF is none.
pub fn code_entry(code: u32) -> Code
    ensures { result ≡ code_of code }
{
    base_codes::code_of(u8::try_from(code).unwrap_or(0xFF))
}
