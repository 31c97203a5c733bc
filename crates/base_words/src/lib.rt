// Big-endian numbers in lent bytes, and sums, differences and products of words.
#![tactic(auto)]

ghost use Rattle.std.specs.Prelude.{◌≡◌, ◌+◌, ◌<◌, ◌≤◌, length};
ghost use Rattle.base.specs.Numbers.{bytes_of, number_at, sum_of, difference_of, product_of};
ghost use Rattle.base.specs.Buffers.{over};

// Three widths, each two of half its width, and no one function over the width: it would give a u64, which every caller would cast back.
pub fn read16(s: &[u8], at: usize) -> u16
    requires { at + 2 ≤ length s.now }
    ensures { result ≡ number_at 2 s.now at }
{
    (s[at] as u16) * 256 + (s[at + 1] as u16)
}

pub fn read32(s: &[u8], at: usize) -> u32
    requires { at + 4 ≤ length s.now }
    ensures { result ≡ number_at 4 s.now at }
{
    (read16(s, at) as u32) * 65536 + (read16(s, at + 2) as u32)
}

pub fn read64(s: &[u8], at: usize) -> u64
    requires { at + 8 ≤ length s.now }
    ensures { result ≡ number_at 8 s.now at }
{
    (read32(s, at) as u64) * 4294967296 + (read32(s, at + 4) as u64)
}

pub fn put16(out: &mut [u8], x: u16)
    requires { 2 ≤ length out.old }
    ensures { out.new ≡ over (bytes_of 2 x) out.old }
{
    out[0] = (x / 256) as u8;
    out[1] = (x % 256) as u8;
}

// The high half first; the low half goes into the rest of the lent buffer.
pub fn put32(out: &mut [u8], x: u32)
    requires { 4 ≤ length out.old }
    ensures { out.new ≡ over (bytes_of 4 x) out.old }
{
    put16(out, (x / 65536) as u16);
    put16(&mut out[2..], (x % 65536) as u16);
}

pub fn put64(out: &mut [u8], x: u64)
    requires { 8 ≤ length out.old }
    ensures { out.new ≡ over (bytes_of 8 x) out.old }
{
    put32(out, (x / 4294967296) as u32);
    put32(&mut out[4..], (x % 4294967296) as u32);
}

pub fn sum(a: u32, b: u32) -> u32
    ensures { result ≡ sum_of a b }
{
    a.wrapping_add(b)
}

pub fn difference(a: u32, b: u32) -> u32
    ensures { result ≡ difference_of a b }
{
    a.wrapping_sub(b)
}

// A product of two words fits 64 bits; the remainder brings it back to a word.
pub fn product(a: u32, b: u32) -> u32
    ensures { result ≡ product_of a b }
{
    ((a as u64) * (b as u64) % 4294967296) as u32
}

// `from` at the start of `to`, and nothing after it touched.
pub fn copy32(from: &[u32], to: &mut [u32])
    requires { length from.now ≤ length to.old }
    ensures { to.new ≡ over from.now to.old }
{
    to[..from.len()].copy_from_slice(from);
}
