// Reads a rule file: any bytes are taken, or refused by a number and a place.
#![tactic(auto)]

ghost use Rattle.std.specs.Prelude.{◌≡◌, true, ◌+◌, ◌≤◌, ◌<◌, length};
ghost use Rattle.base.specs.Answers.{answer_of};
ghost use Rattle.base.specs.Parsing.{step_of, Past};
ghost use Rattle.base.specs.Refusals.{step_in};
ghost use Rattle.rule.specs.Header.{variables, read_kinds, read_header};
ghost use Rattle.rule.specs.Expressions.{read_variable, read_word, read_bit, read_expr};
ghost use Rattle.rule.specs.Blocks.{read_assign, read_statement, read_block};
ghost use Rattle.rule.specs.Rule.{read_rule};
ghost use Rattle.rule.specs.Limits.{least_rule_bytes, most_rule_bytes, most_variables};

use base::{Answer, Counts, Form, Kind, Refusal, Row};
use rule::Kinded;

// 10 variable, its code at `at`.
fn read_variable(rule: Kinded, at: usize, want: Kind, deep: u8) -> Result<usize, Refusal>
    requires { at < length rule.bytes.now }
    ensures { step_in result ≡ step_of (read_variable rule.entry.bytes.now want deep at) }
{
    let s = rule.bytes;
    if deep == 0 {
        return Err(Refusal(Row::TooDeep, at));
    }
    if s.len() <= at + 1 {
        return Err(Refusal(Row::RuleCut, s.len()));
    }
    let x = s[at + 1];
    if rule.variables() <= x {
        return Err(Refusal(Row::NoVariable, at + 1));
    }
    if rule.kind_at(x) != want {
        return Err(Refusal(Row::WrongKind, at + 1));
    }
    Ok(at + 2)
}

// 11 and four bytes, its code at `at`.
fn read_word(s: &[u8], at: usize, want: Kind, deep: u8) -> Result<usize, Refusal>
    requires { at < length s.now }
    ensures { step_in result ≡ step_of (read_word s.now want deep at) }
{
    if Kind::Word != want {
        return Err(Refusal(Row::WrongKind, at));
    }
    if deep == 0 {
        return Err(Refusal(Row::TooDeep, at));
    }
    if s.len() - at < 5 {
        return Err(Refusal(Row::RuleCut, s.len()));
    }
    Ok(at + 5)
}

// 12 and 00 or 01, its code at `at`.
fn read_bit(s: &[u8], at: usize, want: Kind, deep: u8) -> Result<usize, Refusal>
    requires { at < length s.now }
    ensures { step_in result ≡ step_of (read_bit s.now want deep at) }
{
    if Kind::Bit != want {
        return Err(Refusal(Row::WrongKind, at));
    }
    if deep == 0 {
        return Err(Refusal(Row::TooDeep, at));
    }
    if s.len() <= at + 1 {
        return Err(Refusal(Row::RuleCut, s.len()));
    }
    if 1 < s[at + 1] {
        return Err(Refusal(Row::UnknownCode, at + 1));
    }
    Ok(at + 2)
}

// Is a variable of the kind wanted read at `at`? Most arguments are one, and take no further call.
fn is_variable(rule: Kinded, at: usize, want: Kind, deep: u8) -> bool
    ensures { result ≡ true → (at + 1 < length rule.entry.bytes.now) × (Past (at + 2) ≡ step_of (read_expr deep rule.entry.bytes.now want at)) }
{
    let s = rule.bytes;
    if deep == 0 {
        return false;
    }
    // One test for both of its bytes: there are six at least.
    if s.len() - 2 < at {
        return false;
    }
    if s[at] != base_codes::VARIABLE {
        return false;
    }
    let x = s[at + 1];
    if rule.variables() <= x {
        return false;
    }
    rule.kind_at(x) == want
}

// An expression of the kind wanted, at most `deep` levels deep.
fn read_expr(rule: Kinded, at: usize, want: Kind, deep: u8) -> Result<usize, Refusal>
    ensures { step_in result ≡ step_of (read_expr deep rule.entry.bytes.now want at) }
{
    let s = rule.bytes;
    if s.len() <= at {
        return Err(Refusal(Row::RuleCut, s.len()));
    }
    let c = base_codes::code_of(s[at]);
    let form = c.form;
    match form {
        Form::Variable => read_variable(rule, at, want, deep),
        Form::Word => read_word(s, at, want, deep),
        Form::Bit => read_bit(s, at, want, deep),
        Form::Apply(_) => {
            let gives = c.gives;
            let takes = c.takes;
            if gives != want {
                return Err(Refusal(Row::WrongKind, at));
            }
            if deep == 0 {
                return Err(Refusal(Row::TooDeep, at));
            }
            let next = if is_variable(rule, at + 1, takes, deep - 1) {
                at + 3
            } else {
                read_expr(rule, at + 1, takes, deep - 1)?
            };
            if c.arity == 1 {
                return Ok(next);
            }
            if is_variable(rule, next, takes, deep - 1) {
                return Ok(next + 2);
            }
            read_expr(rule, next, takes, deep - 1)
        }
        _ => Err(Refusal(Row::UnknownCode, at)),
    }
}

// 01 variable expression, its code at `at`.
fn read_assign(rule: Kinded, at: usize) -> Result<usize, Refusal>
    requires { at < length rule.bytes.now }
    ensures { step_in result ≡ step_of (read_assign rule.entry.bytes.now at) }
{
    let s = rule.bytes;
    if s.len() <= at + 1 {
        return Err(Refusal(Row::RuleCut, s.len()));
    }
    let x = s[at + 1];
    if rule.variables() <= x {
        return Err(Refusal(Row::NoVariable, at + 1));
    }
    let want = rule.kind_at(x);
    if is_variable(rule, at + 2, want, rule::DEEPEST) {
        return Ok(at + 4);
    }
    read_expr(rule, at + 2, want, rule::DEEPEST)
}

// A statement, its code at `at`. `nest` is how many ifs may still nest.
#[cycle(read_block_read_statement)]
fn read_statement(rule: Kinded, at: usize, nest: u8) -> Result<usize, Refusal>
    requires { at < length rule.bytes.now }
    ensures { step_in result ≡ step_of (read_statement rule.entry.bytes.now nest at) }
{
    let s = rule.bytes;
    let c = base_codes::code_of(s[at]);
    let form = c.form;
    match form {
        Form::Assign => read_assign(rule, at),
        Form::Skip => Ok(at + 1),
        Form::Branch => {
            if nest == 0 {
                return Err(Refusal(Row::TooDeep, at));
            }
            // A refusal goes on in its two parts. By `?` here the compiler moves what an assignment gives in one piece, which waits until its parts are stored.
            match read_expr(rule, at + 1, Kind::Bit, rule::DEEPEST) {
                Ok(first) => match read_block(rule, first, nest - 1) {
                    Ok(second) => read_block(rule, second, nest - 1),
                    Err(Refusal(row, place)) => Err(Refusal(row, place)),
                },
                Err(Refusal(row, place)) => Err(Refusal(row, place)),
            }
        }
        _ => Err(Refusal(Row::UnknownCode, at)),
    }
}

// A block: statements closed by 00. A loop over them, so that only nesting takes stack.
#[cycle(read_block_read_statement)]
pub fn read_block(rule: Kinded, at: usize, nest: u8) -> Result<usize, Refusal>
    ensures { step_in result ≡ step_of (read_block rule.entry.bytes.now nest at) }
{
    let s = rule.bytes;
    let mut here = at;
    loop {
        if s.len() <= here {
            return Err(Refusal(Row::RuleCut, s.len()));
        }
        if s[here] == 0 {
            return Ok(here + 1);
        }
        // A skip goes on by itself: there is nothing to read but its code.
        if s[here] == base_codes::SKIP {
            here += 1;
            continue;
        }
        here = read_statement(rule, here, nest)?;
    }
}

// The kind bytes of `count` variables, from `from` on.
fn read_kinds(s: &[u8], from: usize, count: usize) -> Result<usize, Refusal>
    requires { (from ≤ length s.now) × (count ≤ most_variables) }
    ensures { step_in result ≡ step_of (read_kinds count s.now from) }
{
    for at in from..from + count {
        if s.len() <= at {
            return Err(Refusal(Row::RuleCut, s.len()));
        }
        if rule::LAST_KIND < s[at] {
            return Err(Refusal(Row::RuleHead, at));
        }
    }
    Ok(from + count)
}

// The mark and version, V and the kind bytes.
fn read_header(s: &[u8]) -> Result<usize, Refusal>
    requires { least_rule_bytes ≤ length s.now }
    ensures { step_in result ≡ step_of (read_header s.now) }
{
    if let Err(at) = base_answers::read_mark(s, b"RUL\x00\x01") {
        return Err(Row::RuleMark.at(at));
    }
    let count = s[5];
    if count == 0 {
        return Err(Refusal(Row::RuleHead, 5));
    }
    if rule::MOST_VARIABLES < count {
        return Err(Refusal(Row::RuleHead, 5));
    }
    read_kinds(s, 6, count as usize)
}

// What follows the size: the header, a block, and nothing after it.
fn read_bytes(s: &[u8]) -> Result<usize, Refusal>
    requires { (least_rule_bytes ≤ length s.now) × (length s.now ≤ most_rule_bytes) }
    ensures { step_in result ≡ step_of (read_rule s.now) }
{
    let body = read_header(s)?;
    let end = read_block(Kinded { bytes: s }, body, rule::NESTED)?;
    if end < s.len() {
        return Err(Refusal(Row::BytesLeft, end));
    }
    Ok(end)
}

// Rows 1 to 9: the place after the rule, or its refusal.
pub fn read(rule: &[u8]) -> Result<usize, Refusal>
    ensures { step_in result ≡ step_of (read_rule rule.now) }
{
    if rule.len() < rule::LEAST_RULE_BYTES {
        return Err(Refusal(Row::RuleSize, 0));
    }
    if rule::MOST_RULE_BYTES < rule.len() {
        return Err(Refusal(Row::RuleSize, 0));
    }
    read_bytes(rule)
}

// The same as an answer, which counts nothing.
pub fn read_rule(rule: &[u8]) -> Answer
    ensures { result ≡ answer_of (step_of (read_rule rule.now)) }
{
    match read(rule) {
        Ok(_) => Answer::from(Ok(Counts::default())),
        Err(refusal) => Answer::from(refusal),
    }
}
