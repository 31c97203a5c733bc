// Prints what reading answers for many files made by plain loops. The file `stdout` has the lines that
// the implementation in compare/ printed, which was not written from this code.
#![tactic(auto)]

ghost use Rattle.std.specs.Prelude.{◌<◌, ◌≤◌, length};
ghost use Rattle.streams.specs.Counts.{IsPrefixLen};

use base::Answer;
use std::fs;
use std::rt::Files;

// Document 01's rule R1.
const R1: [u8; 29] = [
    0x52, 0x55, 0x4C, 0x00, 0x01, 0x03, 0x01, 0x00, 0x00, 0x03, 0x10, 0x00, 0x01, 0x01, 0x22, 0x10,
    0x01, 0x10, 0x02, 0x00, 0x01, 0x01, 0x22, 0x10, 0x02, 0x10, 0x02, 0x00, 0x00,
];

// The head of a rule of one variable, a word; its last byte is the variable's kind.
const HEAD: [u8; 7] = *b"RUL\x00\x01\x01\x00";

// A line: the label, a number, and what reading answers.
fn line(rt: &impl Print, label: &str, n: usize, rule: &[u8]) {
    let a = rule_reader::read_rule(rule);
    let _ = println!(rt; "{label} {n} {} {}", a.number, a.place);
}

// R1 with byte i made v, where that is a change.
fn change(rt: &impl Print, i: usize, v: u8)
    requires { i < 29 }
{
    let mut rule = R1;
    if rule[i] == v {
        return;
    }
    rule[i] = v;
    let a = rule_reader::read_rule(&rule);
    let _ = println!(rt; "change {i} {v} {} {}", a.number, a.place);
}

fn changes_at(rt: &impl Print, i: usize)
    requires { i < 29 }
{
    for v in 0..=255 {
        change(rt, i, v);
    }
}

fn changes(rt: &impl Print) {
    for i in 0..29 {
        changes_at(rt, i);
    }
}

// Every cut of a rule, the whole rule too.
fn cuts(rt: &impl Print, label: &str, rule: &[u8]) {
    for n in 0..=rule.len() {
        line(rt, label, n, &rule[..n]);
    }
}

// What the file has, as far as buf has room for it; a read that fails is the end here, and in `fuse` it is no file.
fn read_file<'a>(files: &impl Files, path: &str, buf: &'a mut [u8]) -> &'a [u8]
    ensures { IsPrefixLen (length result.now) buf.old }
{
    let Ok(mut file) = fs::open(files, path) else {
        return &buf[..0];
    };
    let n = streams::read_full(&mut file, buf);
    &buf[..n]
}

// How many answers have one number, and the sum of their places.
#[derive(Clone, Copy, Default)]
struct Tally {
    count: u64,
    places: u64,
}

// One answer more, with those of its number.
fn count(tallies: &mut [Tally; 10], a: Answer) {
    if let Some(t) = tallies.get_mut(usize::from(a.number)) {
        t.count = t.count.wrapping_add(1);
        t.places = t.places.wrapping_add(a.place as u64);
    }
}

fn print_tallies(rt: &impl Print, tallies: &[Tally; 10]) {
    for (k, t) in tallies.iter().enumerate() {
        let _ = println!(rt; "lengths {k} {} {}", t.count, t.places);
    }
}

// Every length from 0 to 65,535 of a file of skips that is never closed.
fn lengths(rt: &impl Print) {
    let mut rule = [2u8; 65535];
    rule[..7].copy_from_slice(&HEAD);
    let mut tallies = [Tally::default(); 10];
    for n in 0..=65535 {
        count(&mut tallies, rule_reader::read_rule(&rule[..n]));
    }
    print_tallies(rt, &tallies);
}

// The header of one word, skips, and a closing 00 at `last`.
fn closed_at(last: usize) -> [u8; 4097]
    requires { last < 4097 }
{
    let mut rule = [2u8; 4097];
    rule[..7].copy_from_slice(&HEAD);
    rule[last] = 0;
    rule
}

// A rule of n bytes, all skips.
fn skips(rt: &impl Print, n: usize)
    requires { (8 ≤ n) × (n ≤ 4097) }
{
    let rule = closed_at(n - 1);
    line(rt, "skips", n, &rule[..n]);
}

// The byte at every step from `from` on, so many times.
fn every(mut rule: [u8; 64], from: usize, step: usize, times: usize, byte: u8) -> [u8; 64]
    requires { 1 ≤ step }
{
    for b in rule.iter_mut().skip(from).step_by(step).take(times) {
        *b = byte;
    }
    rule
}

// The header of one variable, and room for a block.
fn header(kind: u8) -> [u8; 64] {
    let mut rule = [0u8; 64];
    rule[..7].copy_from_slice(&HEAD);
    rule[6] = kind;
    rule
}

// v0 := an expression d deep, sums that lean on the left.
fn deep(rt: &impl Print, d: usize)
    requires { (1 ≤ d) × (d ≤ 10) }
{
    let mut rule = header(0);
    rule[7] = 1;
    let codes = every(rule, 9, 1, d - 1, 0x20);
    let whole = every(codes, 8 + d, 2, d, 0x10);
    line(rt, "deep", d, &whole[..9 + 3 * d]);
}

// Ifs on v0, d deep, each in the first block of the one before.
fn nested(rt: &impl Print, d: usize)
    requires { (1 ≤ d) × (d ≤ 10) }
{
    let codes = every(header(1), 7, 3, d, 0x03);
    let whole = every(codes, 8, 3, d, 0x10);
    line(rt, "nested", d, &whole[..8 + 5 * d]);
}

fn deeps(rt: &impl Print) {
    for d in 1..=10 {
        deep(rt, d);
    }
}

fn nests(rt: &impl Print) {
    for d in 1..=10 {
        nested(rt, d);
    }
}

fn main(rt: HostRuntime) {
    let mut room = [0u8; 4097];
    let good = read_file(&rt, "good.rul", &mut room);
    changes(&rt);
    cuts(&rt, "cut", &R1);
    cuts(&rt, "good", good);
    lengths(&rt);
    for n in [8, 9, 4095, 4096, 4097] {
        skips(&rt, n);
    }
    deeps(&rt);
    nests(&rt);
}
