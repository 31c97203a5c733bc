// Runs a rule directly on its inputs: rows 40 to 42, and every result variable's figure at its end.
#![tactic(auto)]

ghost use Rattle.std.specs.Prelude.{◌≡◌, ◌≤◌, map, length, get_or};
ghost use Rattle.base.specs.Lists.{upto};
ghost use Rattle.base.specs.Buffers.{over};
ghost use Rattle.base.specs.Parsing.{IsRead};
ghost use Rattle.base.specs.Rows.{row_in};
ghost use Rattle.base.specs.Refusals.{answer_in};
ghost use Rattle.rule.specs.Header.{variables};
ghost use Rattle.rule.specs.Rule.{read_rule};
ghost use Rattle.circuit.specs.Running.{written_for, run_writes};
ghost use Rattle.circuit.specs.Whole.{rule_answer};
ghost use Rattle.run.specs.Inputs.{input_row};
ghost use Rattle.run.specs.Direct.{run_answer, run_results};

use base::{Answer, Counts, Refusal, Row};
use circuit::VARIABLE_ROOM;
use rule::{Kinded, Rule};

// What a run writes of the figures at its end, into the first V results: 0 for a working variable.
fn write_results(rule: Rule, figures: &[u32; VARIABLE_ROOM], results: &mut [u32])
    requires { variables rule.bytes.now ≤ length results.old }
    ensures { results.new ≡ over (map (λ x. written_for rule.entry.bytes.now x (get_or figures.now x 0)) (upto (variables rule.entry.bytes.now))) results.old }
{
    for x in 0..rule.variables() {
        let i = x as usize;
        let figure = figures[i];
        results[i] = if rule.working_at(x) { 0 } else { figure };
    }
}

// The run of an accepted rule on V inputs, its working figures kept to its end, and what it writes into the first V results.
fn run_checked(rule: &[u8], inputs: &[u32], results: &mut [u32])
    requires { IsRead (read_rule rule.now)
        × (length inputs.now ≡ variables rule.now)
        × (variables rule.now ≤ length results.old) }
    ensures { results.new ≡ over (run_writes rule.now inputs.now) results.old }
{
    let rule = Rule { bytes: rule };
    let v = rule.variables() as usize;
    let mut figures = [0u32; VARIABLE_ROOM];
    base_words::copy32(inputs, &mut figures);
    run_walk::run_block(rule, 6 + v, rule::NESTED, &mut figures);
    write_results(rule, &figures, results);
}

// Rows 40 to 42 of the inputs of a rule, the lowest first. `room` is how many results there is place for.
pub fn inputs_refusal(rule: Kinded, inputs: &[u32], room: usize) -> Result<(), Row>
    ensures { row_in result ≡ input_row rule.entry.bytes.now inputs.now room }
{
    base_answers::inputs_refusal(rule.bytes[5], |x| rule.kind_at(x), inputs, room)
}

// A direct run of a rule on its inputs: into the first V results go every variable's figure at its end, 0 for a working one. A refusal writes nothing.
fn try_run(rule: &[u8], inputs: &[u32], results: &mut [u32]) -> Result<Counts, Refusal>
    ensures answer { answer_in result ≡ run_answer (rule_answer rule.now) rule.now inputs.now (length results.old) }
    ensures results { results.new ≡ run_results (rule_answer rule.now) rule.now inputs.now results.old }
{
    let counts = circuit_build::read(rule)?;
    inputs_refusal(Kinded { bytes: rule }, inputs, results.len())?;
    run_checked(rule, inputs, results);
    Ok(counts)
}

// The same in the seven numbers.
pub fn run(rule: &[u8], inputs: &[u32], results: &mut [u32]) -> Answer
    ensures answer { result ≡ run_answer (rule_answer rule.now) rule.now inputs.now (length results.old) }
    ensures results { results.new ≡ run_results (rule_answer rule.now) rule.now inputs.now results.old }
{
    Answer::from(try_run(rule, inputs, results))
}
