// Checking a plan for a rule, rows 20 to 26, 32 and 27 to 30 after the rule's own, and what the layers above need of an accepted plan.
#![tactic(auto)]

ghost use Rattle.std.specs.Prelude.{◌≡◌};
ghost use Rattle.base.specs.Refusals.{answer_in};
ghost use Rattle.circuit.specs.Clear.{Clear};
ghost use Rattle.plan.specs.Rows.{plan_answer};
ghost use Rattle.plan.specs.Ungrouped.{Ungrouped};
ghost use Rattle.plan_check.specs.Handed.{Handed};

use base::{Answer, Counts, Refusal};
use circuit::Circuit;
use plan::Grouping;

// Checks a plan for a rule: the rule's refusal first, then the first failing row. Into memory that is lent clear go the plain circuit of the rule, as
// `circuit_build::build` gives it, and the plan's groups: each gate's group and its place in the plan (0 for a group alone), and the groups in the order of
// writing; no groups where the plan is refused.
pub fn check(
    rule: &[u8],
    plan: &[u8],
    circuit: &mut Circuit,
    grouping: &mut Grouping,
) -> Result<Counts, Refusal>
    requires { Clear circuit.old × Ungrouped grouping.old }
    ensures answer { answer_in result ≡ plan_answer rule.now plan.now }
    ensures handed { Handed rule.now plan.now circuit.new grouping.new }
{
    grouping.groups = 0;
    let counts = circuit_build::build(rule, circuit)?;
    plan_groups::group_gates(plan, circuit.count, grouping)?;
    if let Err(row) = plan_fit::check_groups(plan, circuit) {
        *grouping = Grouping::clear();
        return Err(row.at(0));
    }
    match plan_order::order_groups(circuit, grouping) {
        Ok(groups) => {
            grouping.groups = groups;
            Ok(counts)
        }
        Err(circle) => {
            *grouping = Grouping::clear();
            Err(circle.at(0))
        }
    }
}

// Checks a plan for a rule: the answer alone.
pub fn check_plan(rule: &[u8], plan: &[u8]) -> Answer
    ensures { result ≡ plan_answer rule.now plan.now }
{
    let mut circuit = Circuit::clear();
    let mut grouping = Grouping::clear();
    Answer::from(check(rule, plan, &mut circuit, &mut grouping))
}
