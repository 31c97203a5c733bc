// Runs the fused circuit of a rule and a plan: writes it, then works its figures out from its own bytes.
#![tactic(auto)]

ghost use Rattle.std.specs.Prelude.{◌≡◌, ◌≤◌, length, Ok};
ghost use Rattle.base.specs.Buffers.{over};
ghost use Rattle.base.specs.Refusals.{answer_in};
ghost use Rattle.run.specs.Inputs.{input_row};
ghost use Rattle.run.specs.Direct.{run_answer};
ghost use Rattle.fused.specs.FusedCircuit.{fused_file};
ghost use Rattle.file.specs.FileFigures.{file_figures};
ghost use Rattle.fused.specs.Answers.{fused_answer};
ghost use Rattle.fused_write.specs.Ready.{Ready};
ghost use Rattle.run.specs.FusedRun.{fused_results};

use base::{Answer, Counts, Refusal};
use circuit::Circuit;
use plan::Grouping;
use rule::Kinded;

// The bytes of a short file: most files are, and clearing as many as the longest has would cost such a run more than the run itself.
const FEW_BYTES: usize = 1024;

// Writes a fused circuit that is prepared into bytes that hold it, and works its figures out from them, on inputs that no row refuses. What was
// prepared stays in three: the counts go to the caller, the circuit and the groups nowhere.
fn run_in(
    file: &mut [u8],
    rule: &[u8],
    plan: &[u8],
    counts: Counts,
    circuit: &Circuit,
    grouping: &Grouping,
    inputs: &[u32],
    results: &mut [u32],
)
    requires { ((counts.bytes ≤ length file.old) × (input_row rule.now inputs.now (length results.old) ≡ 0))
        × Ready rule.now plan.now (Ok counts) circuit.now grouping.now }
    ensures { results.new ≡ over (file_figures (fused_file rule.now plan.now) inputs.now) results.old }
{
    fused_write::put(file, rule, plan, counts, circuit, grouping);
    file_figures::run_file(&file[0..counts.bytes], inputs, results);
}

fn try_run(rule: &[u8], plan: &[u8], inputs: &[u32], results: &mut [u32]) -> Result<Counts, Refusal>
    ensures answer { answer_in result ≡ run_answer (fused_answer rule.now plan.now) rule.now inputs.now (length results.old) }
    ensures results { results.new ≡ fused_results rule.now plan.now inputs.now results.old }
{
    let mut circuit = Circuit::clear();
    let mut grouping = Grouping::clear();
    let counts = fused_write::prepare(rule, plan, &mut circuit, &mut grouping)?;
    run_direct::inputs_refusal(Kinded { bytes: rule }, inputs, results.len())?;
    if counts.bytes <= FEW_BYTES {
        let mut file = [0u8; FEW_BYTES];
        run_in(
            &mut file, rule, plan, counts, &circuit, &grouping, inputs, results,
        );
    } else {
        let mut file = [0u8; fused::MOST_FUSED_BYTES];
        run_in(
            &mut file, rule, plan, counts, &circuit, &grouping, inputs, results,
        );
    }
    Ok(counts)
}

// Runs the fused circuit of a rule and a plan on inputs: the answer with all five counts, and in the first V results every variable's figure, 0 for a working one.
// A refusal of rule, plan or inputs writes nothing.
pub fn run(rule: &[u8], plan: &[u8], inputs: &[u32], results: &mut [u32]) -> Answer
    ensures answer { result ≡ run_answer (fused_answer rule.now plan.now) rule.now inputs.now (length results.old) }
    ensures results { results.new ≡ fused_results rule.now plan.now inputs.now results.old }
{
    Answer::from(try_run(rule, plan, inputs, results))
}
