//! Texts and numbers, appended to what is written so far.

ghost use Rattle.std.specs.Prelude.{◌≡◌, ◌++◌, OnOk, decimal};

use itoa::write_digits;
use std::alloc::AllocError;

/// Appends a text.
pub fn put(out: &mut Vec<u8>, text: &[u8]) -> Result<(), AllocError>
    ensures { OnOk result (out.new.items ≡ out.old.items ++ text.now) }
{
    out.extend_from_slice(text)
}

/// Appends a number in decimal digits.
pub fn put_number(out: &mut Vec<u8>, n: u64) -> Result<(), AllocError>
    ensures { OnOk result (out.new.items ≡ out.old.items ++ decimal n) }
{
    let mut digits = [0; 20];
    let start = write_digits(n, &mut digits, 20);
    put(out, &digits[start..])
}

/// Appends a number between two texts.
pub fn put_numbered(out: &mut Vec<u8>, front: &[u8], n: u64, back: &[u8]) -> Result<(), AllocError>
    ensures { OnOk result (out.new.items ≡ out.old.items ++ (front.now ++ decimal n ++ back.now)) }
{
    put(out, front)?;
    put_number(out, n)?;
    put(out, back)
}
