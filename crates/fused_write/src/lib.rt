// Writes the fused circuit of a rule and a plan: the plan is checked, the file measured, and then written where there is room for it.
#![tactic(auto)]

ghost use Rattle.std.specs.Prelude.{◌≡◌, ◌≤◌, length, Ok};
ghost use Rattle.base.specs.Buffers.{over};
ghost use Rattle.base.specs.Refusals.{answer_in};
ghost use Rattle.circuit.specs.Clear.{Clear};
ghost use Rattle.plan.specs.Ungrouped.{Ungrouped};
ghost use Rattle.fused.specs.FusedCircuit.{fused_file};
ghost use Rattle.fused.specs.Answers.{fused_answer, write_answer, written_over};
ghost use Rattle.fused_write.specs.Ready.{Ready};

use base::{Answer, Counts, Refusal, Row};
use circuit::Circuit;
use fused_file::Fusion;
use plan::Grouping;

// Checks a plan for a rule and measures its fused circuit; the circuit and the grouping are lent clear and filled as `plan_check::check` fills them.
// Gives all five counts.
pub fn prepare(
    rule: &[u8],
    plan: &[u8],
    circuit: &mut Circuit,
    grouping: &mut Grouping,
) -> Result<Counts, Refusal>
    requires { Clear circuit.old × Ungrouped grouping.old }
    ensures { Ready rule.now plan.now result circuit.new grouping.new }
{
    let counts = plan_check::check(rule, plan, circuit, grouping)?;
    let size = Fusion {
        plan,
        circuit,
        grouping,
    }
    .measure();
    Ok(Counts {
        gates: counts.gates,
        wires: size.wires,
        bytes: file::FIRST_RECORD + size.bytes + 2 * usize::from(rule[5]),
        before: counts.before,
        after: size.cost,
    })
}

// Writes a fused circuit that is prepared and accepted into a buffer that holds it: the file and nothing after it.
pub fn put(
    out: &mut [u8],
    rule: &[u8],
    plan: &[u8],
    counts: Counts,
    circuit: &Circuit,
    grouping: &Grouping,
)
    requires { (counts.bytes ≤ length out.old) × Ready rule.now plan.now (Ok counts) circuit.now grouping.now }
    ensures { out.new ≡ over (fused_file rule.now plan.now) out.old }
{
    let fusion = Fusion {
        plan,
        circuit,
        grouping,
    };
    fusion.put_file(out, rule, counts.wires as u16);
}

// Counts the fused circuit of a rule and a plan, and writes it nowhere: the answer with all five counts that writing it has.
pub fn count(rule: &[u8], plan: &[u8]) -> Answer
    ensures { result ≡ fused_answer rule.now plan.now }
{
    let mut circuit = Circuit::clear();
    let mut grouping = Grouping::clear();
    Answer::from(prepare(rule, plan, &mut circuit, &mut grouping))
}

fn try_write(rule: &[u8], plan: &[u8], out: &mut [u8]) -> Result<Counts, Refusal>
    ensures answer { answer_in result ≡ write_answer rule.now plan.now (length out.old) }
    ensures file { out.new ≡ written_over rule.now plan.now out.old }
{
    let mut circuit = Circuit::clear();
    let mut grouping = Grouping::clear();
    let counts = prepare(rule, plan, &mut circuit, &mut grouping)?;
    if out.len() < counts.bytes {
        return Err(Row::FileRoom.at(0));
    }
    put(out, rule, plan, counts, &circuit, &grouping);
    Ok(counts)
}

// Writes the fused circuit of a rule and a plan into the buffer: the file and nothing after it. A refused plan, or a buffer that is
// shorter than the file, leaves every byte as it was.
pub fn write(rule: &[u8], plan: &[u8], out: &mut [u8]) -> Answer
    ensures answer { result ≡ write_answer rule.now plan.now (length out.old) }
    ensures file { out.new ≡ written_over rule.now plan.now out.old }
{
    Answer::from(try_write(rule, plan, out))
}
