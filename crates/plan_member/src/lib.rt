// Document 01, "The plan file and its check": reading a member of a group in a plan's bytes. The definitions and theorems of the plan's check are in `plan`.
#![tactic(auto)]

ghost use Rattle.std.specs.Prelude.{◌≡◌, ◌≤◌, ◌<◌, length, get_or};
ghost use Rattle.plan.specs.PlanFile.{group_at, after};

use circuit::GateId;

// Member k of the group at the place `at` of the plan. The two stay apart: the tests of a group are closures over its place, and a struct of both is no plainer.
pub fn member(plan: &[u8], at: usize, k: usize) -> GateId
    requires { (after plan.now at ≤ length plan.now) × (k < get_or plan.now at 0) }
    ensures { result.0 ≡ get_or (group_at plan.now at) k 0 }
{
    GateId(base_words::read16(plan, at + 1 + 2 * k))
}
