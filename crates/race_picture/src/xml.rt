//! Tags, attributes and escaped text, appended to what is written so far.

ghost use Rattle.std.specs.Prelude.{◌≡◌, ◌∷◌, ◌++◌, [], OnOk, codes, decimal};
ghost use Rattle.race_picture.specs.Xml as spec;

use itoa::write_digits;
use std::alloc::AllocError;

/// Appends a text.
pub fn put(out: &mut Vec<u8>, text: &[u8]) -> Result<(), AllocError>
    ensures { OnOk result (out.new.items ≡ out.old.items ++ text.now) }
{
    out.extend_from_slice(text)
}

/// Appends a number in decimal digits.
pub fn put_number(out: &mut Vec<u8>, n: u64) -> Result<(), AllocError>
    ensures { OnOk result (out.new.items ≡ out.old.items ++ decimal n) }
{
    let mut digits = [0; 20];
    let start = write_digits(n, &mut digits, 20);
    put(out, &digits[start..])
}

/// Whether a byte may stand for itself.
fn is_plain(b: u8) -> bool
    ensures { result ≡ spec.is_plain b }
{
    32 <= b && b <= 126 && !(b == b'"' || b == b'&' || b == b'<' || b == b'>')
}

/// Appends a byte of a text.
fn put_byte(out: &mut Vec<u8>, b: u8) -> Result<(), AllocError>
    ensures { OnOk result (out.new.items ≡ out.old.items ++ spec.escape b) }
{
    if is_plain(b) {
        out.push(b)?;
        return Ok(());
    }
    if b < 32 {
        return put(out, b"?");
    }
    put(out, b"&#")?;
    put_number(out, u64::from(b))?;
    put(out, b";")
}

/// Appends a text, escaped.
pub fn put_escaped(out: &mut Vec<u8>, text: &[u8]) -> Result<(), AllocError>
    ensures { OnOk result (out.new.items ≡ out.old.items ++ spec.escaped text.now) }
{
    for b in text {
        put_byte(out, *b)?;
    }
    Ok(())
}

/// Appends an attribute whose value is a number.
#[tactic(auto, unfolding(crate::specs::Xml::attribute_text))]
pub fn put_count(out: &mut Vec<u8>, name: &[u8], n: u64) -> Result<(), AllocError>
    ensures { OnOk result (out.new.items ≡ out.old.items ++ spec.attribute_text (spec.number name.now n)) }
{
    put(out, b" ")?;
    put(out, name)?;
    put(out, b"=\"")?;
    put_number(out, n)?;
    put(out, b"\"")
}
