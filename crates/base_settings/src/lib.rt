// Document 01, "Needed gates" and "The fused circuit file", at the eight conditions of document 02's C-17: a set of settings is 256 bits, bit j for setting j, in four words, the lowest first.
// A set in hand is a `Set`; lent arrays hold plain words, so many a set, which `load` and `store` look at.
#![tactic(auto)]

ghost use Rattle.std.specs.Prelude.{◌≡◌, ◌+◌, ◌-◌, ◌*◌, ◌<◌, ◌≤◌, ◌^◌, length, get_or, set, replicate, eqb};
ghost use Rattle.std.specs.Int.Bits.{bit_and};
ghost use Rattle.base.specs.Buffers.{over, padded};
ghost use Rattle.base.specs.Numbers.{bytes_of};
ghost use Rattle.base.specs.Bits.{collect};
ghost use Rattle.base.specs.BitWords.{joined};
ghost use Rattle.base.specs.Sets as sets;
ghost use Rattle.base.specs.Guards as guards;
ghost use Rattle.base.specs.SetLimits.{word_conditions, set_conditions, set_settings, set_words, set_bytes};
ghost use Rattle.base.specs.SetsHeld.{words_of, set_of, sets_in};

use base::{ConditionList, LIST_ROOM, SET_CONDITIONS, SET_WORDS, Set};

// The settings of so many conditions.
const SETTINGS: u16 = 1 << SET_CONDITIONS;

// The conditions whose settings a word tells apart.
const WORD_CONDITIONS: u8 = 6;

// A word of which every bit is 1.
const ONES: u64 = 0xFFFFFFFFFFFFFFFF;

// Set i of lent words.
pub fn load(words: &[u64], i: usize) -> Set
    requires { set_words * i + set_words ≤ length words.now }
    ensures { set_of result ≡ get_or (sets_in words.now) i 0 }
{
    let at = SET_WORDS * i;
    Set {
        w0: words[at],
        w1: words[at + 1],
        w2: words[at + 2],
        w3: words[at + 3],
    }
}

// Set i of lent words is made s.
pub fn store(words: &mut [u64], i: usize, s: Set)
    requires { set_words * i + set_words ≤ length words.old }
    ensures { sets_in words.new ≡ set (sets_in words.old) i (set_of s) }
{
    let at = SET_WORDS * i;
    words[at] = s.w0;
    words[at + 1] = s.w1;
    words[at + 2] = s.w2;
    words[at + 3] = s.w3;
}

// The set of which every word is w.
fn each(w: u64) -> Set
    ensures { set_of result ≡ joined (replicate set_words w) }
{
    Set {
        w0: w,
        w1: w,
        w2: w,
        w3: w,
    }
}

// No setting.
pub fn empty() -> Set
    ensures { set_of result ≡ sets.empty }
{
    each(0)
}

// Every setting.
pub fn whole() -> Set
    ensures { set_of result ≡ sets.whole set_settings }
{
    each(ONES)
}

// Is it every setting?
pub fn is_whole(s: Set) -> bool
    ensures { result ≡ eqb (set_of s) (sets.whole set_settings) }
{
    s.w0 & s.w1 & s.w2 & s.w3 == ONES
}

// Word i of a set.
fn word(s: Set, i: u8) -> u64
    requires { i < set_words }
    ensures { result ≡ get_or (words_of s) i 0 }
{
    match i {
        0 => s.w0,
        1 => s.w1,
        2 => s.w2,
        _ => s.w3,
    }
}

// Is setting j in the set s?
pub fn has(s: Set, j: u8) -> bool
    requires { j < set_settings }
    ensures { result ≡ sets.has (set_of s) j }
{
    base_bits::bit_of(word(s, j / 64), j % 64)
}

// The settings of either set.
pub fn union(a: Set, b: Set) -> Set
    ensures { set_of result ≡ sets.union (set_of a) (set_of b) }
{
    Set {
        w0: a.w0 | b.w0,
        w1: a.w1 | b.w1,
        w2: a.w2 | b.w2,
        w3: a.w3 | b.w3,
    }
}

// The union of a set with the whole one, which is the whole one: the set is not looked at, and a read of it for this falls away.
pub fn with_whole(s: Set) -> Set
    ensures { set_of result ≡ sets.union (set_of s) (sets.whole set_settings) }
{
    whole()
}

// No setting is in both sets.
pub fn excludes(a: Set, b: Set) -> bool
    ensures { result ≡ sets.excludes (set_of a) (set_of b) }
{
    (a.w0 & b.w0) | (a.w1 & b.w1) | (a.w2 & b.w2) | (a.w3 & b.w3) == 0
}

// The settings that give condition t the bit 1: the same in each word for a condition within a word, else whole words.
fn giving(t: u8) -> Set
    requires { t < set_conditions }
    ensures { set_of result ≡ sets.giving set_settings t }
{
    match t {
        0 => each(0xAAAAAAAAAAAAAAAA),
        1 => each(0xCCCCCCCCCCCCCCCC),
        2 => each(0xF0F0F0F0F0F0F0F0),
        3 => each(0xFF00FF00FF00FF00),
        4 => each(0xFFFF0000FFFF0000),
        5 => each(0xFFFFFFFF00000000),
        6 => Set {
            w0: 0,
            w1: ONES,
            w2: 0,
            w3: ONES,
        },
        _ => Set {
            w0: 0,
            w1: 0,
            w2: ONES,
            w3: ONES,
        },
    }
}

// A set of settings parted by a condition: its two cofactors.
#[derive(Clone, Copy)]
pub struct Parted {
    pub given: Set,
    pub without: Set,
}

// The set s parted by condition t: those that give t the bit 1, and the others, which give it 0.
pub fn part(t: u8, s: Set) -> Parted
    requires { t < set_conditions }
    ensures given { set_of result.given ≡ sets.given set_settings t (set_of s) }
    ensures without { set_of result.without ≡ sets.without set_settings t (set_of s) }
{
    let m = giving(t);
    let g = Set {
        w0: s.w0 & m.w0,
        w1: s.w1 & m.w1,
        w2: s.w2 & m.w2,
        w3: s.w3 & m.w3,
    };
    Parted {
        given: g,
        without: Set {
            w0: s.w0 ^ g.w0,
            w1: s.w1 ^ g.w1,
            w2: s.w2 ^ g.w2,
            w3: s.w3 ^ g.w3,
        },
    }
}

// 2 to the t.
fn power(t: u8) -> u8
    requires { t < set_conditions }
    ensures { result ≡ 2 ^ t }
{
    1 << t
}

// The movers of a condition within one word: the settings j that give t the bit 0 and of which just one of j and j + 2^t is in it.
fn word_movers(w: u64, t: u8) -> u64
    requires { t < word_conditions }
    ensures { result ≡ sets.movers word_conditions w t }
{
    let far = power(t);
    let m = giving(t);
    ((w >> far) ^ w) & !m.w0
}

// The movers of condition t: j and j + 2^t are in one word, or the same bit of two words.
fn movers(s: Set, t: u8) -> Set
    requires { t < set_conditions }
    ensures { set_of result ≡ sets.movers set_conditions (set_of s) t }
{
    if t < WORD_CONDITIONS {
        return Set {
            w0: word_movers(s.w0, t),
            w1: word_movers(s.w1, t),
            w2: word_movers(s.w2, t),
            w3: word_movers(s.w3, t),
        };
    }
    if t == WORD_CONDITIONS {
        return Set {
            w0: s.w1 ^ s.w0,
            w1: 0,
            w2: s.w3 ^ s.w2,
            w3: 0,
        };
    }
    Set {
        w0: s.w2 ^ s.w0,
        w1: s.w3 ^ s.w1,
        w2: 0,
        w3: 0,
    }
}

// Does s rest on condition t? Some setting j gives t the bit 0, and just one of j and j + 2^t is in s.
pub fn rests_on(s: Set, t: u8) -> bool
    requires { t < set_conditions }
    ensures { result ≡ sets.rests_on set_conditions (set_of s) t }
{
    let m = movers(s, t);
    m.w0 | m.w1 | m.w2 | m.w3 != 0
}

// The conditions that s rests on, one after another.
pub fn rested(s: Set) -> ConditionList
    ensures counted { result.count ≡ length (sets.rests set_conditions (set_of s)) }
    ensures listed { result.at ≡ padded set_conditions (sets.rests set_conditions (set_of s)) }
    ensures chosen { result.on ≡ collect set_conditions (sets.rests_on set_conditions (set_of s)) }
{
    let mut at = [0u8; LIST_ROOM];
    let mut on: u8 = 0;
    let mut count: u8 = 0;
    for t in 0..SET_CONDITIONS {
        if rests_on(s, t) {
            at[count as usize] = t;
            on |= power(t);
            count += 1;
        }
    }
    ConditionList { count, on, at }
}

// The bits of a table over so many conditions.
fn size(count: u8) -> u16
    requires { count ≤ set_conditions }
    ensures { result ≡ 2 ^ count }
{
    1 << count
}

// The setting after this one, of those that give 1 to conditions of `on` alone: a carry passes over the conditions that are none of `on`.
fn next_setting(on: u16, setting: u16) -> u16
    requires { (on < set_settings) × (setting < set_settings) }
    ensures { result ≡ bit_and (setting + (set_settings - on)) on }
{
    (setting + (SETTINGS - on)) & on
}

// The guard's table of s: over the conditions that s rests on, which r lists. Bit j says whether the setting that gives them the bits of j is in s.
pub fn table(s: Set, r: ConditionList) -> Set
    requires { (r.count ≡ length (sets.rests set_conditions (set_of s))) × (r.on ≡ collect set_conditions (sets.rests_on set_conditions (set_of s))) }
    ensures { set_of result ≡ guards.table set_conditions (set_of s) }
{
    let on = r.on as u16;
    let n = size(r.count);
    let mut bits = [0u64; SET_WORDS];
    let mut setting: u16 = 0;
    for j in 0..n {
        if has(s, setting as u8) {
            base_bits::put(&mut bits, 0, j);
        }
        setting = next_setting(on, setting);
    }
    load(&bits, 0)
}

// The bytes of a set, the highest first.
pub fn put_bytes(out: &mut [u8], s: Set)
    requires { set_bytes ≤ length out.old }
    ensures { out.new ≡ over (bytes_of set_bytes (set_of s)) out.old }
{
    base_words::put64(out, s.w3);
    base_words::put64(&mut out[8..], s.w2);
    base_words::put64(&mut out[16..], s.w1);
    base_words::put64(&mut out[24..], s.w0);
}
