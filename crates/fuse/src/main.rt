// Reads rule.rul and rule.pln in the current folder, writes fused.cir there if the plan is accepted, and prints one line.
#![tactic(auto)]

ghost use Rattle.std.specs.Prelude.{◌≡◌, ◌≤◌, eqb, IfSome, length};
ghost use Rattle.std.specs.Bool.{then_some};
ghost use Rattle.base.specs.Buffers.{over};
ghost use Rattle.fused.specs.Answers.{write_answer, written_over};
ghost use Rattle.report.specs.Line.{line_of};
ghost use Rattle.report.specs.Limits.{most_line};
ghost use Rattle.streams.specs.Counts.{IsPrefixLen};

use std::fmt::InlineText;
use std::fs::{OpenFile, OpenOptions, Permissions};
use std::io::{Eprint, Error, ErrorKind, Read, Write};
use std::os::unix::fs::{OpenOptionsExt, PermissionsExt};
use std::random::RandomSource;
use std::rt::Files;
use std::{fs, io};

// One byte more than the limit of each file is read, so that a longer one is seen.
const RULE_ROOM: usize = rule::MOST_RULE_BYTES + 1;

const PLAN_ROOM: usize = plan::MOST_PLAN_BYTES + 1;

// How many names are tried for the file that becomes fused.cir, where files have them already.
const TRIES: usize = 1000;

// Nothing is left to read: a read answers 0, neither a byte nor a failure.
fn at_end(file: &mut impl Read) -> bool {
    let mut next = [0u8; 1];
    matches!(file.read(&mut next), Ok(0))
}

// What an open file has, as far as buf has room for it. A file that a failing read cuts short is one that cannot be read, and counts as empty.
fn read_open<'a>(file: &mut impl Read, buf: &'a mut [u8]) -> &'a [u8]
    ensures { IsPrefixLen (length result.now) buf.old }
{
    let n = streams::read_full(file, buf);
    if n < buf.len() && !at_end(file) {
        return &buf[..0];
    }
    &buf[..n]
}

// What the file has, as far as buf has room for it; a file that cannot be read has nothing. `conform_rules` has one that takes a cut read as it is: a
// common one would ask which.
fn read_file<'a>(files: &impl Files, path: &str, buf: &'a mut [u8]) -> &'a [u8]
    ensures { IsPrefixLen (length result.now) buf.old }
{
    match fs::open(files, path) {
        Ok(mut file) => read_open(&mut file, buf),
        Err(_) => &buf[..0],
    }
}

// All of the bytes are in the file, on its device, and the file is closed. Others may read it, as they may a file made
// in the usual way: one of create_temp is its owner's alone.
fn fill<F: Write + OpenFile + Drop>(mut file: F, bytes: &[u8]) -> io::Result<()> {
    file.write_all(bytes)?;
    file.sync_all()?;
    let _ = file.set_permissions(Permissions::from_mode(0o644));
    Ok(())
}

// An open file and its name: `fused.cir.` and six hexadecimal digits, at random.
#[derive(Drop)]
struct Temp<F> {
    file: F,
    name: InlineText<16>,
}

// Makes a file under a name that no file had.
fn create_temp<R: Files + RandomSource>(rt: &R) -> io::Result<Temp<R::File>> {
    for _ in 0..TRIES {
        let mut bits = [0u8; 4];
        rt.fill_bytes(&mut bits)?;
        let digits = u32::from_le_bytes(bits) & 0xFFFFFF;
        let name = InlineText::<16>::of(format_args!("fused.cir.{digits:06x}"));
        let made = OpenOptions::new()
            .write(true)
            .create_new(true)
            .mode(0o600)
            .open(rt, name.as_str());
        match made {
            Ok(file) => return Ok(Temp { file, name }),
            Err(e) if e.kind() == ErrorKind::AlreadyExists => {}
            Err(e) => return Err(e),
        }
    }
    Err(Error::from(ErrorKind::AlreadyExists))
}

// Fills a file and renames it.
fn put<R: Files>(rt: &R, file: R::File, name: &str, bytes: &[u8]) -> io::Result<()> {
    fill(file, bytes)?;
    fs::rename(rt, name, "fused.cir")
}

// What was done, or nothing where it failed and that was told.
fn told<T>(rt: &impl Eprint, done: io::Result<T>) -> Option<T> {
    match done {
        Ok(value) => Some(value),
        Err(e) => {
            streams::fail(rt, "fused.cir", e);
            None
        }
    }
}

// Writes the bytes under a name of their own and renames that, so that fused.cir is whole or not there. Where that fails it is told first; then the other
// file goes.
fn save<R: Files + RandomSource + Eprint>(rt: &R, bytes: &[u8]) -> Option<()> {
    let temp = told(rt, create_temp(rt))?;
    let name = temp.name;
    let saved = told(rt, put(rt, temp.file, name.as_str(), bytes));
    if saved.is_none() {
        let _ = fs::remove_file(rt, name.as_str());
    }
    saved
}

// What is to be saved and printed: how many bytes of the file, where there is one, and of the line stand in their buffers.
#[derive(Clone, Copy)]
struct Fused {
    file: Option<usize>,
    line: usize,
}

// All that the program says of a rule and a plan, whole before any of it is saved or printed: the file of an accepted plan, and the line.
// The line buffer holds the longest line.
fn fuse_rule(rule: &[u8], plan: &[u8], file: &mut [u8], line: &mut [u8]) -> Fused
    requires { most_line ≤ length line.old }
    ensures file { result.file ≡ then_some (eqb (write_answer rule.now plan.now (length file.old)).number 0)
        (write_answer rule.now plan.now (length file.old)).bytes }
    ensures saved { file.new ≡ written_over rule.now plan.now file.old }
    ensures counted { result.line ≡ length (line_of (write_answer rule.now plan.now (length file.old))) }
    ensures printed { line.new ≡ over (line_of (write_answer rule.now plan.now (length file.old))) line.old }
    ensures within { IfSome result.file (λ n. n ≤ length file.new) × (result.line ≤ length line.new) }
{
    // The answer is C's struct of seven numbers; from here on an Option says it.
    let answer = fused_write::write(rule, plan, file);
    let n = report_lines::write_line(answer, line);
    Fused {
        file: (answer.number == 0).then_some(answer.bytes),
        line: n,
    }
}

// One byte more than each limit is read, so that a file too long is seen to be. There is no line where the file could not be saved, and the line is
// printed in one write.
fn main(rt: HostRuntime) {
    let mut rule = [0u8; RULE_ROOM];
    let mut plan = [0u8; PLAN_ROOM];
    let mut file = [0u8; file::MOST_FILE_BYTES];
    let mut line = [0u8; report::MOST_LINE];
    let rule = read_file(&rt, "rule.rul", &mut rule);
    let plan = read_file(&rt, "rule.pln", &mut plan);
    let fused = fuse_rule(rule, plan, &mut file, &mut line);
    if let Some(bytes) = fused.file {
        if save(&rt, &file[..bytes]).is_none() {
            return;
        }
    }
    if let Err(e) = rt.write_all(&line[..fused.line]) {
        streams::fail(&rt, "standard output", e);
    }
}
