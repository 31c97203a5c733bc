// Makes gates into lent arrays: a gate stored, an operation's with its arguments in order, a choice for each variable that an if assigns.
#![tactic(auto)]

ghost use Rattle.std.specs.Prelude.{◌≡◌, [], ◌∷◌, ◌≤◌, ◌<◌};
ghost use Rattle.base.specs.Sets.{has};
ghost use Rattle.base.specs.Codes.{byte_of};
ghost use Rattle.circuit.specs.Gates.{choice};
ghost use Rattle.circuit.specs.PlainCircuit.{turned, apply_gate};
ghost use Rattle.circuit_make.specs.Holding.{Pushed, Applied, Chose, Chosen};
ghost use Rattle.circuit.specs.Rooms.{variable_room};

use base::Operation;
use circuit::{GateId, QUAD_ROOM, VARIABLE_ROOM};

// One gate more, by its four numbers; the count then. The quads and their count go side by side and are no struct: the quads are lent where a
// `Circuit` or a caller's frame has them, and the count is handed on in a register; a struct that owned both would be copied whole into the `Circuit`.
pub fn push(quads: &mut [u32; QUAD_ROOM], count: u16, code: u32, a: u32, b: u32, c: u32) -> u16
    ensures { Pushed (code ∷ a ∷ b ∷ c ∷ []) quads.old count quads.new result }
{
    if circuit::MOST_GATES <= count {
        return circuit::MOST_GATES + 1;
    }
    let i = 4 * (count as usize);
    quads[i] = code;
    quads[i + 1] = a;
    quads[i + 2] = b;
    quads[i + 3] = c;
    count + 1
}

// The byte of an operation, as wide as a quad's numbers.
pub fn byte_of(op: Operation) -> u32
    ensures { result ≡ byte_of op }
{
    base_codes::byte_of(op) as u32
}

// Does the operation's gate take its second argument first? Where it commutes the lower-numbered comes first.
fn turned(op: Operation, a: GateId, b: GateId) -> bool
    ensures { result ≡ turned op a.0 b.0 }
{
    base_codes::commutes(op) && b.0 < a.0
}

// The gate of an operation whose two arguments, as written, are the gates a and b.
pub fn apply_gate(
    quads: &mut [u32; QUAD_ROOM],
    count: u16,
    op: Operation,
    a: GateId,
    b: GateId,
) -> u16
    ensures { Applied (apply_gate op a.0 b.0) quads.old count quads.new result }
{
    let (first, second) = if turned(op, a, b) { (b, a) } else { (a, b) };
    push(
        quads,
        count,
        byte_of(op),
        first.0 as u32,
        second.0 as u32,
        0,
    )
}

// Is variable x in the set? The set is a word's bits, put together by `|` alone: a type for it would be no plainer.
fn among(assigned: u32, x: u8) -> bool
    requires { x < variable_room }
    ensures { result ≡ has assigned x }
{
    (assigned >> x) % 2 == 1
}

// A choice gate, which variable x stands for from now on.
fn choose(
    condition: GateId,
    first: GateId,
    second: GateId,
    x: u8,
    present: &mut [u16; VARIABLE_ROOM],
    quads: &mut [u32; QUAD_ROOM],
    count: u16,
) -> u16
    requires { x < variable_room }
    ensures { Chose (choice condition.0 first.0 second.0) x quads.old present.old count quads.new present.new result }
{
    let more = push(
        quads,
        count,
        circuit::CHOICE,
        condition.0 as u32,
        first.0 as u32,
        second.0 as u32,
    );
    present[x as usize] = count;
    more
}

// For each variable of the set, in rising number, a choice gate (condition, first value, second value).
pub fn make_choices(
    condition: GateId,
    first: &[u16; VARIABLE_ROOM],
    second: &[u16; VARIABLE_ROOM],
    assigned: u32,
    v: u8,
    present: &mut [u16; VARIABLE_ROOM],
    quads: &mut [u32; QUAD_ROOM],
    count: u16,
) -> u16
    requires { v ≤ variable_room }
    ensures { Chosen condition.0 first.now second.now assigned v quads.old present.old count result quads.new present.new }
{
    let mut n = count;
    for x in 0..v {
        if among(assigned, x) {
            let yes = GateId(first[x as usize]);
            let no = GateId(second[x as usize]);
            n = choose(condition, yes, no, x, present, quads, n);
        }
    }
    n
}
