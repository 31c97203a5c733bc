// The tool as C and Rust call it: each operation passed on, with the promise that it has, and with what the demands say of the very bytes and words that it is lent.
#![tactic(auto)]

ghost use Rattle.std.specs.Prelude.{◌≡◌, length, take, drop};
ghost use Rattle.base.specs.SetsHeld.{sets_in};
ghost use Rattle.circuit.specs.Whole.{rule_answer};
ghost use Rattle.circuit_needed.specs.Built.{built_quads, built_needs};
ghost use Rattle.plan.specs.Rows.{plan_answer};
ghost use Rattle.fused.specs.Answers.{fused_answer, write_answer, written_over};
ghost use Rattle.run.specs.FusedRun.{fused_results};
ghost use Rattle.run.specs.Direct.{run_answer, run_results};
ghost use Rattle.file.specs.Answers.{circuit_answer, part_start, part_length, record_part, circuit_run_answer, circuit_run_results};
ghost use Rattle.demands.specs.Table.{AnsweredBy, AnsweredAfter, RuleAnswered, plan_rows, run_rows, buffer_rows, circuit_rows, file_run_rows};
ghost use Rattle.demands.specs.Promises.{RunWritten, FileWritten, AcceptedExactly, FileReadsEarlier, FileGives, FusedAsDirect, OwnAsDirect, OneArray};

use base::Answer;
use circuit::{Circuit, NEED_WORDS, QUAD_ROOM};
use file::WireId;
use file_reader::Part;

// Reads a rule: its refusal by rows 1 to 11, or its gates and their cost.
#[unsafe(no_mangle)]
pub extern "C" fn linnet_read_rule(rule: &[u8]) -> Answer
    ensures answer { result ≡ rule_answer rule.now }
    ensures table { RuleAnswered rule.now result }
{
    circuit_build::read_rule(rule)
}

// A direct run of a rule on its inputs: each variable's figure at its end, 0 for a working one, in the first V results. A refusal writes nothing.
#[unsafe(no_mangle)]
pub extern "C" fn linnet_run_rule(rule: &[u8], inputs: &[u32], results: &mut [u32]) -> Answer
    ensures answer { result ≡ run_answer (rule_answer rule.now) rule.now inputs.now (length results.old) }
    ensures results { results.new ≡ run_results (rule_answer rule.now) rule.now inputs.now results.old }
    ensures table { AnsweredAfter (rule_answer rule.now) (run_rows rule.now inputs.now (length results.old)) result }
    ensures written { result.number ≡ 0 → RunWritten rule.now inputs.now results.old results.new }
{
    run_direct::run(rule, inputs, results)
}

// A plain circuit shown, laid out as C lays it out; the quads of the gates are its rows.
#[repr(C)]
#[derive(Clone, Copy)]
pub struct Shown {
    pub answer: Answer,
    pub rows: [u32; QUAD_ROOM],
    pub needs: [u64; NEED_WORDS],
}

// Shows the plain circuit of a rule: the answer of reading it, four numbers a gate, and each gate's precondition; zeros after the gates.
#[unsafe(no_mangle)]
pub extern "C" fn linnet_show_plain(rule: &[u8]) -> Shown
    ensures answer { result.answer ≡ rule_answer rule.now }
    ensures rows { result.rows ≡ built_quads rule.now }
    ensures needs { sets_in result.needs ≡ built_needs rule.now }
    ensures table { RuleAnswered rule.now result.answer }
    ensures once { OneArray (built_needs rule.now) }
{
    let mut circuit = Circuit::clear();
    let built = circuit_build::build(rule, &mut circuit);
    Shown {
        answer: Answer::from(built),
        rows: circuit.quads,
        needs: circuit.needs,
    }
}

// Operation 03: checks a plan for a rule.
#[unsafe(no_mangle)]
pub extern "C" fn linnet_check_plan(rule: &[u8], plan: &[u8]) -> Answer
    ensures answer { result ≡ plan_answer rule.now plan.now }
    ensures table { AnsweredAfter (rule_answer rule.now) (plan_rows rule.now plan.now) result }
    ensures accepted { AcceptedExactly rule.now plan.now result }
{
    plan_check::check_plan(rule, plan)
}

// Operation 04: writes the fused circuit into the buffer.
#[unsafe(no_mangle)]
pub extern "C" fn linnet_write_fused(rule: &[u8], plan: &[u8], out: &mut [u8]) -> Answer
    ensures answer { result ≡ write_answer rule.now plan.now (length out.old) }
    ensures file { out.new ≡ written_over rule.now plan.now out.old }
    ensures table { AnsweredAfter (plan_answer rule.now plan.now) (buffer_rows rule.now plan.now (length out.old)) result }
    ensures earlier { result.number ≡ 0 → FileReadsEarlier (take result.bytes out.new) }
    ensures figures { result.number ≡ 0 → FileGives rule.now (take result.bytes out.new) }
{
    fused_write::write(rule, plan, out)
}

// Operation 05: runs the fused circuit on inputs.
#[unsafe(no_mangle)]
pub extern "C" fn linnet_run_fused(
    rule: &[u8],
    plan: &[u8],
    inputs: &[u32],
    results: &mut [u32],
) -> Answer
    ensures answer { result ≡ run_answer (fused_answer rule.now plan.now) rule.now inputs.now (length results.old) }
    ensures results { results.new ≡ fused_results rule.now plan.now inputs.now results.old }
    ensures table { AnsweredAfter (plan_answer rule.now plan.now)
        (run_rows rule.now inputs.now (length results.old)) result }
    ensures direct { FusedAsDirect rule.now plan.now inputs.now results.old result results.new }
{
    run_fused::run(rule, plan, inputs, results)
}

// Operation 07: reads a circuit file of any house.
#[unsafe(no_mangle)]
pub extern "C" fn linnet_read_circuit(file: &[u8]) -> Answer
    ensures answer { result ≡ circuit_answer file.now }
    ensures table { AnsweredBy (circuit_rows file.now) 0 result }
{
    file_reader::read(file)
}

// Operation 08: where a wire's record lies in the caller's file; C cannot be handed the part itself.
#[unsafe(no_mangle)]
pub extern "C" fn linnet_record(file: &[u8], wire: usize) -> Part
    ensures start { result.start ≡ part_start file.now wire }
    ensures length { result.length ≡ part_length file.now wire }
    ensures bytes { take result.length (drop result.start file.now) ≡ record_part file.now wire }
{
    // Here a number of C's becomes a wire's or none: one of more than two bytes is no wire.
    match u16::try_from(wire) {
        Ok(wire) => file_reader::part_of(file, WireId(wire)),
        Err(_) => Part {
            start: 0,
            length: 0,
        },
    }
}

// Operation 09: runs a circuit file on inputs.
#[unsafe(no_mangle)]
pub extern "C" fn linnet_run_circuit(file: &[u8], inputs: &[u32], results: &mut [u32]) -> Answer
    ensures answer { result ≡ circuit_run_answer file.now inputs.now (length results.old) }
    ensures results { results.new ≡ circuit_run_results file.now inputs.now results.old }
    ensures table { AnsweredAfter (circuit_answer file.now) (file_run_rows file.now inputs.now (length results.old)) result }
    ensures written { result.number ≡ 0 → FileWritten file.now inputs.now results.old results.new }
    ensures own { OwnAsDirect file.now inputs.now results.old result results.new }
{
    file_reader::run(file, inputs, results)
}
