// The codes of a rule file: what each opens, and the operation table.
#![tactic(auto)]

ghost use Rattle.std.specs.Prelude.{◌≡◌, ◌&&◌, ◌||◌, ◌≤◌, eqb};
ghost use Rattle.base.specs.Results.{bit_of, result_of};
ghost use Rattle.base.specs.Codes.{start_kind, plain, entry_of, commutes, operation_of, byte_of, code_of};

use base::{Code, Form, Kind, Operation};

// The code of a variable, for readers that test for it before they ask for the whole code.
pub const VARIABLE: u8 = 0x10;

// The code of a skip, for the same.
pub const SKIP: u8 = 0x02;

// The kind that the code of an input names, in a circuit file. No From: any byte but 01 is a word's here, and elsewhere it is none.
pub fn start_kind(b: u8) -> Kind
    ensures { result ≡ start_kind b }
{
    if b == 1 { Kind::Bit } else { Kind::Word }
}

// A code with no arguments.
fn plain_code(form: Form, gives: Kind) -> Code
    ensures { result ≡ plain form gives }
{
    Code {
        form,
        takes: Kind::Word,
        gives,
        arity: 0,
        cost: 0,
    }
}

// The operation table, column by column: a compiler makes a comparison of each, and a jump for each row of a table by rows.
fn takes_of(op: Operation) -> Kind
    ensures { result ≡ (entry_of op).takes }
{
    match op {
        Operation::Sum => Kind::Word,
        Operation::Difference => Kind::Word,
        Operation::Product => Kind::Word,
        Operation::LessThan => Kind::Word,
        Operation::Equal => Kind::Word,
        Operation::And => Kind::Bit,
        Operation::Or => Kind::Bit,
        Operation::Not => Kind::Bit,
    }
}

fn gives_of(op: Operation) -> Kind
    ensures { result ≡ (entry_of op).gives }
{
    match op {
        Operation::Sum => Kind::Word,
        Operation::Difference => Kind::Word,
        Operation::Product => Kind::Word,
        Operation::LessThan => Kind::Bit,
        Operation::Equal => Kind::Bit,
        Operation::And => Kind::Bit,
        Operation::Or => Kind::Bit,
        Operation::Not => Kind::Bit,
    }
}

fn arity_of(op: Operation) -> u8
    ensures { result ≡ (entry_of op).arity }
{
    match op {
        Operation::Sum => 2,
        Operation::Difference => 2,
        Operation::Product => 2,
        Operation::LessThan => 2,
        Operation::Equal => 2,
        Operation::And => 2,
        Operation::Or => 2,
        Operation::Not => 1,
    }
}

fn cost_of(op: Operation) -> u8
    ensures { result ≡ (entry_of op).cost }
{
    match op {
        Operation::Sum => 0,
        Operation::Difference => 0,
        Operation::Product => 15,
        Operation::LessThan => 40,
        Operation::Equal => 20,
        Operation::And => 1,
        Operation::Or => 1,
        Operation::Not => 0,
    }
}

// The operation's entry of the table.
pub fn entry_of(op: Operation) -> Code
    ensures { result ≡ entry_of op }
{
    Code {
        form: Form::Apply(op),
        takes: takes_of(op),
        gives: gives_of(op),
        arity: arity_of(op),
        cost: cost_of(op),
    }
}

// Does the operation give the same in either order of its arguments?
pub fn commutes(op: Operation) -> bool
    ensures { result ≡ commutes op }
{
    match op {
        Operation::Sum => true,
        Operation::Difference => false,
        Operation::Product => true,
        Operation::LessThan => false,
        Operation::Equal => true,
        Operation::And => true,
        Operation::Or => true,
        Operation::Not => false,
    }
}

// The operation of a byte of the operation range. No TryFrom: it is a part of the one decision over the code bytes below, which has asked for the range.
fn operation_of(b: u8) -> Operation
    requires { (0x20 ≤ b) × (b ≤ 0x27) }
    ensures { result ≡ operation_of b }
{
    match b {
        0x20 => Operation::Sum,
        0x21 => Operation::Difference,
        0x22 => Operation::Product,
        0x23 => Operation::LessThan,
        0x24 => Operation::Equal,
        0x25 => Operation::And,
        0x26 => Operation::Or,
        _ => Operation::Not,
    }
}

// The byte of an operation.
pub fn byte_of(op: Operation) -> u8
    ensures { result ≡ byte_of op }
{
    op as u8
}

// The decision over the code bytes, each giving kind, arity and cost.
pub fn code_of(b: u8) -> Code
    ensures { result ≡ code_of b }
{
    match b {
        0x00 => plain_code(Form::End, Kind::Word),
        0x01 => plain_code(Form::Assign, Kind::Word),
        0x02 => plain_code(Form::Skip, Kind::Word),
        0x03 => plain_code(Form::Branch, Kind::Word),
        0x10 => plain_code(Form::Variable, Kind::Word),
        0x11 => plain_code(Form::Word, Kind::Word),
        0x12 => plain_code(Form::Bit, Kind::Bit),
        0x20..=0x27 => entry_of(operation_of(b)),
        _ => plain_code(Form::Unknown, Kind::Word),
    }
}

// The operation's result on the figures of its arguments.
pub fn apply(op: Operation, a: u32, b: u32) -> u32
    ensures { result ≡ result_of op a b }
{
    match op {
        Operation::Sum => base_words::sum(a, b),
        Operation::Difference => base_words::difference(a, b),
        Operation::Product => base_words::product(a, b),
        Operation::LessThan => bit(a < b),
        Operation::Equal => bit(a == b),
        Operation::And => and(a, b),
        Operation::Or => or(a, b),
        Operation::Not => bit(a != 1),
    }
}

// A test's figure.
fn bit(test: bool) -> u32
    ensures { result ≡ bit_of test }
{
    test as u32
}

fn and(a: u32, b: u32) -> u32
    ensures { result ≡ bit_of (eqb a 1 && eqb b 1) }
{
    bit(a == 1 && b == 1)
}

fn or(a: u32, b: u32) -> u32
    ensures { result ≡ bit_of (eqb a 1 || eqb b 1) }
{
    bit(a == 1 || b == 1)
}
