// How a reader of bytes goes on, and what is refused of inputs.
#![tactic(auto)]

ghost use Rattle.std.specs.Prelude.{◌≡◌, ℕ, ◌≤◌, ◌<◌, length};
ghost use Rattle.base.specs.Parsing.{step_of, read_mark};
ghost use Rattle.base.specs.Refusals.{step_at};
ghost use Rattle.base.specs.Rows.{row_in};
ghost use Rattle.base.specs.Inputs.{inputs_row};
ghost use Rattle.base.specs.declared.Kind.{Kind};

use base::{Kind, Row};

// The bytes of `mark` stand at the start of the file: the place past them, or that of the first that does not. Whichever number the caller refuses by lies there.
pub fn read_mark(s: &[u8], mark: &[u8]) -> Result<usize, usize>
    requires { length mark.now ≤ length s.now }
    ensures { (number : ℕ) → step_at number result ≡ step_of (read_mark number mark.now s.now 0) }
{
    for at in 0..mark.len() {
        if s[at] != mark[at] {
            return Err(at);
        }
    }
    Ok(mark.len())
}

// Rows 40 to 42 of the inputs of `count` variables, the lowest first: `kind_of` tells each one's kind, and there is place for `room` results.
pub fn inputs_refusal<F: Fn(u8) -> Kind>(
    count: u8,
    kind_of: F,
    inputs: &[u32],
    room: usize,
) -> Result<(), Row>
    ghost kinds: { ℕ → Kind }
    requires asked { (x : ℕ) → x < count → F.pre kind_of x }
    requires told { (x : ℕ) (k : Kind) → x < count → F.post kind_of x k → k ≡ kinds x }
    ensures { row_in result ≡ inputs_row count kinds inputs.now room }
{
    if inputs.len() != count as usize {
        return Err(Row::InputCount);
    }
    for x in 0..count {
        if 1 < inputs[x as usize] && kind_of(x) == Kind::Bit {
            return Err(Row::InputBit);
        }
    }
    if room < count as usize {
        return Err(Row::ResultRoom);
    }
    Ok(())
}
