// Definitions and laws of the rule file (specs/): its format, what a kind byte says, any bytes to a tree or a refusal 1 to 9. The reader is `rule_reader`.
#![tactic(auto)]

ghost use Rattle.std.specs.Prelude.{◌≡◌, ◌+◌, ◌<◌, ◌≤◌, length};
ghost use Rattle.rule.specs.Header.{variables, kind_at, working_at, HasKinds};
ghost use Rattle.rule.specs.Limits.{most_variables};

use base::Kind;

// The limits of a rule file, as specs/Limits.antt has them.
pub const LEAST_RULE_BYTES: usize = 6;

pub const MOST_RULE_BYTES: usize = 4096;

pub const MOST_VARIABLES: u8 = 32;

pub const LAST_KIND: u8 = 3;

pub const DEEPEST: u8 = 8;

pub const NESTED: u8 = 8;

// Bytes that have a kind byte for each variable.
#[derive(Clone, Copy)]
pub struct Kinded<'a> {
    pub bytes: &'a [u8],
    ghost kinds: { HasKinds bytes.now },
}

impl Kinded<'_> {
    // The kind of variable x, of any bytes that have its kind byte.
    pub fn kind_in(bytes: &[u8], x: u8) -> Kind
        requires { 6 + x < length bytes.now }
        ensures { result ≡ kind_at bytes.now x }
    {
        if bytes[6 + x as usize] % 2 == 1 {
            Kind::Bit
        } else {
            Kind::Word
        }
    }

    // Whether variable x is a working one, of any bytes that have its kind byte.
    pub fn working_in(bytes: &[u8], x: u8) -> bool
        requires { 6 + x < length bytes.now }
        ensures { result ≡ working_at bytes.now x }
    {
        bytes[6 + x as usize] / 2 % 2 == 1
    }

    // V.
    pub fn variables(self) -> u8
        ensures { result ≡ variables self.entry.bytes.now }
    {
        self.bytes[5]
    }

    // The kind of variable x.
    pub fn kind_at(self, x: u8) -> Kind
        requires { x < variables self.bytes.now }
        ensures { result ≡ kind_at self.entry.bytes.now x }
    {
        Kinded::kind_in(self.bytes, x)
    }
}

// The bytes of a rule whose header was read: a kind byte stands there for each variable, and there are no more variables than there may be.
#[derive(Clone, Copy)]
pub struct Rule<'a> {
    pub bytes: &'a [u8],
    ghost kinds: { HasKinds bytes.now },
    ghost few: { variables bytes.now ≤ most_variables },
}

impl Rule<'_> {
    // V.
    pub fn variables(self) -> u8
        ensures { result ≡ variables self.entry.bytes.now }
    {
        self.bytes[5]
    }

    // The kind of variable x.
    pub fn kind_at(self, x: u8) -> Kind
        requires { x < variables self.bytes.now }
        ensures { result ≡ kind_at self.entry.bytes.now x }
    {
        Kinded::kind_in(self.bytes, x)
    }

    // Whether variable x is a working one.
    pub fn working_at(self, x: u8) -> bool
        requires { x < variables self.bytes.now }
        ensures { result ≡ working_at self.entry.bytes.now x }
    {
        Kinded::working_in(self.bytes, x)
    }
}
