//! Names as they are printed, and their numbers.

ghost use Rattle.std.specs.Prelude.{◌≡◌, ◌≤◌, ◌<◌, ◌+◌, ◌==◌, length, take, drop, position, IfSome, IfNone};
ghost use Rattle.std.specs.Int.{w64, to_be_bytes, from_be_bytes};
ghost use Rattle.record_reader.specs.Names as spec;
ghost use Rattle.record_reader.specs.Names.{NameFits, label_of, name_text};
ghost use Rattle.record_reader.specs.declared.line.Name.{Name};

use crate::line::Name;
use crate::word::number_of;
use inet_io::is_label;

/// The eight bytes from that place on as a number, the first of them highest.
fn number_at(bytes: &[u8], place: usize) -> u64
    requires { place + 8 ≤ length bytes.now }
    ensures number { result ≡ from_be_bytes w64 (take 8 (drop place bytes.now)) }
    ensures bytes { to_be_bytes w64 result ≡ take 8 (drop place bytes.now) }
{
    u64::from_be_bytes([
        bytes[place],
        bytes[place + 1],
        bytes[place + 2],
        bytes[place + 3],
        bytes[place + 4],
        bytes[place + 5],
        bytes[place + 6],
        bytes[place + 7],
    ])
}

/// The label in a field of 16 bytes.
fn padded(label: &[u8]) -> [u8; 16]
    requires { length label.now ≤ 16 }
    ensures { result ≡ spec.padded label.now }
{
    let mut field = [0; 16];
    field[..label.len()].copy_from_slice(label);
    field
}

/// The name of that section and label.
#[tactic(auto, unfolding(crate::specs::Names::name_of))]
fn name_with(section: u32, label: &[u8]) -> Name
    requires { length label.now ≤ 16 }
    ensures name { result ≡ spec.name_of section label.now }
    ensures label { label_of result ≡ label.now }
{
    let field = padded(label);
    Name {
        section,
        high: number_at(&field, 0),
        low: number_at(&field, 8),
        length: label.len(),
    }
}

/// The place of the first dot.
fn place_of_dot(word: &[u8]) -> Option<usize>
    ensures place { result ≡ position (λ b. b == 46) word.now }
    ensures bound { IfSome result (λ place. place < length word.now) }
{
    word.iter().position(|b| *b == b'.')
}

/// Reads a name: a section from 1 to 64, a dot and a label. Any other word is none.
pub fn name_from(word: &[u8]) -> Option<Name>
    ensures spelled { IfSome result (λ name. word.now ≡ name_text name) }
    ensures fits { IfSome result NameFits }
    ensures none { IfNone result ((name : Name) → NameFits name → word.now ≡ name_text name → ⊥) }
{
    let dot = place_of_dot(word)?;
    let section = number_of(&word[..dot], 1, 64)?;
    let label = &word[dot + 1..];
    if !is_label(label) {
        return None;
    }
    Some(name_with(section as u32, label))
}
