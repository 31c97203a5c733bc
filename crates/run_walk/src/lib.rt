// Runs the blocks of an accepted rule over its bytes: statement by statement, on the variables' figures.
#![tactic(auto)]

ghost use Rattle.std.specs.Prelude.{◌≡◌, ◌+◌, ◌<◌, length, get_or};
ghost use Rattle.base.specs.Parsing.{IsRead};
ghost use Rattle.rule.specs.Expressions.{read_expr};
ghost use Rattle.rule.specs.Blocks.{read_assign, read_statement, read_block};
ghost use Rattle.circuit.specs.Running.{run_statement, run_block};
ghost use Rattle.run_walk.specs.Walking.{VariablesFit, WorkedOut, Ran, Passed};
ghost use Rattle.circuit.specs.Rooms.{variable_room};

use base::{Form, Kind};
use circuit::VARIABLE_ROOM;
use rule::{Kinded, Rule};

// An expression's figure, and the place after the expression; no pair, since both are numbers and the names tell them apart.
#[derive(Clone, Copy)]
struct Value {
    pub figure: u32,
    pub next: usize,
}

// The figure of the variable at `at`.
fn run_variable(s: &[u8], at: usize, figures: &[u32; VARIABLE_ROOM]) -> Value
    requires { (at + 1 < length s.now) × (get_or s.now (at + 1) 0 < variable_room) }
    ensures { result ≡ record { figure = get_or figures.now (get_or s.now (at + 1) 0) 0; next = at + 2 } }
{
    let x = s[at + 1] as usize;
    Value {
        figure: figures[x],
        next: at + 2,
    }
}

// The figure of the expression at `at`, of the kind wanted, worked out from the variables' figures.
#[cycle(run_argument_run_expr)]
fn run_expr(rule: Rule, at: usize, want: Kind, deep: u8, figures: &[u32; VARIABLE_ROOM]) -> Value
    requires { IsRead (read_expr deep rule.bytes.now want at) }
    ensures { WorkedOut figures.now (read_expr deep rule.entry.bytes.now want at) result }
{
    let s = rule.bytes;
    let c = base_codes::code_of(s[at]);
    match c.form {
        Form::Variable => run_variable(s, at, figures),
        Form::Word => Value {
            figure: base_words::read32(s, at + 1),
            next: at + 5,
        },
        Form::Bit => Value {
            figure: s[at + 1] as u32,
            next: at + 2,
        },
        Form::Apply(op) => {
            let takes = c.takes;
            let x = run_argument(rule, at + 1, takes, deep - 1, figures);
            if c.arity == 1 {
                Value {
                    figure: base_codes::apply(op, x.figure, 0),
                    next: x.next,
                }
            } else {
                let y = run_argument(rule, x.next, takes, deep - 1, figures);
                Value {
                    figure: base_codes::apply(op, x.figure, y.figure),
                    next: y.next,
                }
            }
        }
        // No code of an expression: reading took none such.
        _ => Value {
            figure: 0,
            next: at,
        },
    }
}

// The same for an argument or a value, most of which are variables: no further call for one.
#[cycle(run_argument_run_expr)]
fn run_argument(
    rule: Rule,
    at: usize,
    want: Kind,
    deep: u8,
    figures: &[u32; VARIABLE_ROOM],
) -> Value
    requires { IsRead (read_expr deep rule.bytes.now want at) }
    ensures { WorkedOut figures.now (read_expr deep rule.entry.bytes.now want at) result }
{
    let s = rule.bytes;
    if s[at] == base_codes::VARIABLE {
        return run_variable(s, at, figures);
    }
    run_expr(rule, at, want, deep, figures)
}

// 01 variable expression, its code at `at`: works out, then stores.
fn run_assign(rule: Rule, at: usize, figures: &mut [u32; VARIABLE_ROOM]) -> usize
    requires { IsRead (read_assign rule.bytes.now at) }
    ensures { Ran run_statement (read_assign rule.entry.bytes.now at) figures.old result figures.new }
{
    let s = rule.bytes;
    let x = s[at + 1];
    let want = rule.kind_at(x);
    let value = run_argument(rule, at + 2, want, rule::DEEPEST, figures);
    figures[x as usize] = value.figure;
    value.next
}

// Past the block at `at`, which does not run.
fn pass_block(rule: Rule, at: usize, nest: u8) -> usize
    requires { IsRead (read_block rule.bytes.now nest at) }
    ensures { Passed (read_block rule.entry.bytes.now nest at) result }
{
    rule_reader::read_block(Kinded { bytes: rule.bytes }, at, nest).unwrap()
}

// The statement at `at`. An if works out its bit once, and only the block that the bit names runs.
#[cycle(run_block_run_statement)]
fn run_statement(rule: Rule, at: usize, nest: u8, figures: &mut [u32; VARIABLE_ROOM]) -> usize
    requires { (at < length rule.bytes.now) × IsRead (read_statement rule.bytes.now nest at) }
    ensures { Ran run_statement (read_statement rule.entry.bytes.now nest at) figures.old result figures.new }
{
    let s = rule.bytes;
    let c = base_codes::code_of(s[at]);
    match c.form {
        Form::Assign => run_assign(rule, at, figures),
        Form::Skip => at + 1,
        Form::Branch => {
            let test = run_expr(rule, at + 1, Kind::Bit, rule::DEEPEST, figures);
            if test.figure == 1 {
                let second = run_block(rule, test.next, nest - 1, figures);
                pass_block(rule, second, nest - 1)
            } else {
                let second = pass_block(rule, test.next, nest - 1);
                run_block(rule, second, nest - 1, figures)
            }
        }
        _ => at,
    }
}

// The block at `at`: its statements in file order. A loop over them, so that only nesting takes stack.
#[cycle(run_block_run_statement)]
pub fn run_block(rule: Rule, at: usize, nest: u8, figures: &mut [u32; VARIABLE_ROOM]) -> usize
    requires { IsRead (read_block rule.bytes.now nest at) }
    ensures { Ran run_block (read_block rule.entry.bytes.now nest at) figures.old result figures.new }
{
    let s = rule.bytes;
    let mut here = at;
    while s[here] != 0 {
        here = run_statement(rule, here, nest, figures);
    }
    here + 1
}
