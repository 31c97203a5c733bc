// Sets of numbers held as bits of words: number q is bit q % 64 of the word q / 64 after the set's first. A lent array holds one set or many, each from a base on.
#![tactic(auto)]

ghost use Rattle.std.specs.Prelude.{◌≡◌, ◌+◌, ◌/◌, ◌%◌, ◌^◌, ◌<◌, length};
ghost use Rattle.base.specs.Bits.{bit};
ghost use Rattle.base.specs.BitWords.{bit_in, put_bit, strike_bit};

// Bit t of a word.
pub fn bit_of(x: u64, t: u8) -> bool
    requires { t < 64 }
    ensures { result ≡ bit x t }
{
    (x >> t) % 2 == 1
}

// The bit of number q in its word.
fn mark(q: u16) -> u64
    ensures { result ≡ 2 ^ (q % 64) }
{
    1 << (q % 64)
}

// Is number q in the set from word `base` on?
pub fn has(words: &[u64], base: usize, q: u16) -> bool
    requires { base + q / 64 < length words.now }
    ensures { result ≡ bit_in base words.now q }
{
    let i = base + (q / 64) as usize;
    bit_of(words[i], (q % 64) as u8)
}

// Number q is put in the set from word `base` on.
pub fn put(words: &mut [u64], base: usize, q: u16)
    requires { base + q / 64 < length words.old }
    ensures { words.new ≡ put_bit base q words.old }
{
    let i = base + (q / 64) as usize;
    words[i] = words[i] | mark(q);
}

// Number q, which is in the set of the first words, is struck from it.
pub fn strike(words: &mut [u64], q: u16)
    requires { q / 64 < length words.old }
    ensures { words.new ≡ strike_bit q words.old }
{
    let i = (q / 64) as usize;
    words[i] = words[i] ^ mark(q);
}
