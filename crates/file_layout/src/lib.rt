// Document 02, C-11: rows 60 and 61 of a circuit file, as tests over its bytes: its head, and its records laid out one after another.
#![tactic(auto)]

ghost use Rattle.std.specs.Prelude.{◌≡◌, ◌&&◌, cond, Some, None, ◌+◌, ◌≤◌, length, get_or};
ghost use Rattle.file.specs.FileFigures.{size_at, first_record};
ghost use Rattle.file.specs.CircuitRows.{marked, headed, whole_at, laid};
ghost use Rattle.file_layout.specs.Said.{said_size};

use file::Version;

// The mark and one of the two versions.
fn marked(file: &[u8]) -> bool
    requires { first_record ≤ length file.now }
    ensures { result ≡ marked file.now }
{
    file.starts_with(b"CIR\0") && (file[4] == Version::One as u8 || file[4] == Version::Two as u8)
}

// Row 60: does none of it apply to the file?
#[tactic(auto, using(std::proofs::lemmas::Bool::Decides::nat_tests), unfolding(file::specs::CircuitRows::headed))]
pub fn headed(file: &[u8]) -> bool
    ensures { result ≡ headed file.now }
{
    file::FIRST_RECORD <= file.len()
        && file.len() <= file::MOST_FILE_BYTES
        && marked(file)
        && 1 <= file[5]
        && file[5] <= file::MOST_FILE_VARIABLES
        && usize::from(base_words::read16(file, 6)) <= file::MOST_WIRES
}

// The byte at a place, as the definitions read it (`get_or`): 0 past the end, where no record is whole.
fn byte_at(file: &[u8], at: usize) -> u8
    ensures { result ≡ get_or file.now at 0 }
{
    file.get(at).copied().unwrap_or(0)
}

// The bytes that the record at a place says it has; none for an unknown code, a bit constant above 01, a pick with no pair
// or a guard of more wires than its version allows.
fn said_size(file: &[u8], at: usize) -> Option<usize>
    requires { (first_record ≤ length file.now) × (at ≤ length file.now) }
    ensures { result ≡ said_size file.now at }
{
    let count = usize::from(byte_at(file, at + 1));
    let version = Version::from(file[4]);
    match byte_at(file, at) {
        0x00 | 0x01 => Some(2),
        0x11 | 0x20..=0x26 => Some(5),
        0x12 => (count <= 1).then_some(2),
        0x27 => Some(3),
        0x30 => Some(7),
        0x31 => (1 <= count).then_some(2 + 4 * count),
        0x32 => (count <= version.most_guard_wires()).then_some(
            2 + 2 * count + version.table_bytes(),
        ),
        _ => None,
    }
}

// The bytes of the record at a place, if a whole one begins there.
fn whole_size(file: &[u8], at: usize) -> Option<usize>
    requires { (first_record ≤ length file.now) × (at ≤ length file.now) }
    ensures { result ≡ cond (whole_at file.now at) (Some (size_at file.now at)) None }
{
    let size = said_size(file, at)?;
    (size <= file.len() - at).then_some(size)
}

// Row 61: does none of it apply to the file?
pub fn laid(file: &[u8]) -> bool
    requires { first_record ≤ length file.now }
    ensures { result ≡ laid file.now }
{
    let mut at = file::FIRST_RECORD;
    for _ in 0..base_words::read16(file, 6) {
        let Some(size) = whole_size(file, at) else {
            return false;
        };
        at += size;
    }
    file.len() - at == 2 * usize::from(file[5])
}
