//! Numbers, addresses and ends as text, into a buffer that has room for them and out of a word; and which words are
//! labels.
ghost use Rattle.std.specs.Prelude.{◌≡◌, ◌↔◌, ℕ, ◌+◌, ◌^◌, ◌<◌, ◌≤◌, ◌++◌, ◌∷◌, List, length, decimal, IsTrue, IfSome, IfNone};
ghost use Rattle.std.specs.List.{list_all};
ghost use Rattle.inet_io.specs.Labels as labels;
ghost use Rattle.inet_io.specs.Fronts.{HasDigits, HasMany, IsPlain, NoDigit, BeginsWith, BeginsWithAddress};
ghost use Rattle.inet_io.specs.Texts.{addr_text, IsNumber, IsEndText, PutsAt, AddrTextsDiffer, EndTextsDiffer};

use itoa::Buffer;

/// Puts a text, and answers the place after it.
fn put(out: &mut [u8], at: usize, text: &[u8]) -> usize
    requires { at + length text.now ≤ length out.old }
    ensures place { result ≡ at + length text.now }
    ensures put { PutsAt out.old at text.now out.new }
{
    let end = at + text.len();
    out[at..end].copy_from_slice(text);
    end
}

/// Puts a number in decimal digits, 1 to 20 of them, and answers the place after it.
pub fn put_num(out: &mut [u8], at: usize, n: u64) -> usize
    requires { at + length (decimal n) ≤ length out.old }
    ensures place { result ≡ at + length (decimal n) }
    ensures put { PutsAt out.old at (decimal n) out.new }
{
    let mut buffer = Buffer::new();
    put(out, at, buffer.format(n).as_bytes())
}

/// The digit of a number below ten.
fn digit(n: u32) -> u8
    requires { n < 10 }
    ensures { result ≡ 48 + n }
{
    b'0' + n as u8
}

/// Puts a number to 255 in decimal digits, and answers the place after it. It has three at most, so that two tests
/// distinguish the cases.
fn put_octet(out: &mut [u8], at: usize, n: u32) -> usize
    requires small { n < 256 }
    requires room { at + length (decimal n) ≤ length out.old }
    ensures place { result ≡ at + length (decimal n) }
    ensures put { PutsAt out.old at (decimal n) out.new }
{
    if n < 10 {
        return put(out, at, &[digit(n)]);
    }
    if n < 100 {
        return put(out, at, &[digit(n / 10), digit(n % 10)]);
    }
    put(
        out,
        at,
        &[digit(n / 100), digit(n / 10 % 10), digit(n % 10)],
    )
}

/// Puts an address in dotted decimal, 7 to 15 bytes, and answers the place after it. `0x0A000001` is
/// `10.0.0.1`.
pub fn put_addr(out: &mut [u8], at: usize, addr: u32) -> usize
    requires { at + length (addr_text addr) ≤ length out.old }
    ensures place { result ≡ at + length (addr_text addr) }
    ensures put { PutsAt out.old at (addr_text addr) out.new }
{
    let at = put_octet(out, at, addr >> 24);
    let at = put(out, at, b".");
    let at = put_octet(out, at, (addr >> 16) % 256);
    let at = put(out, at, b".");
    let at = put_octet(out, at, (addr >> 8) % 256);
    let at = put(out, at, b".");
    put_octet(out, at, addr % 256)
}

/// The number that the digits at the front spell, and how many they are; none where they are more
/// than ten.
fn digits_first(text: &[u8]) -> Option<(u64, usize)>
    ensures some { IfSome result (λ r. HasDigits text.now r.0 r.1) }
    ensures none { IfNone result (HasMany text.now) }
{
    let mut n = 0;
    for (count, b) in text.iter().enumerate() {
        if !b.is_ascii_digit() {
            return Some((n, count));
        }
        if count == 10 {
            return None;
        }
        n = n * 10 + u64::from(*b - b'0');
    }
    Some((n, text.len()))
}

/// Whether digits are those of a number: at least one, and no zero before others.
fn is_plain(digits: &[u8]) -> bool
    ensures { IsTrue result ↔ IsPlain digits.now }
{
    match digits {
        [] => false,
        [b'0', rest @ ..] => rest.is_empty(),
        _ => true,
    }
}

/// Reads the number that a text begins with, to `most`, and gives what stands behind its digits.
fn number_first(text: &[u8], most: u64) -> Option<(u64, &[u8])>
    ensures some { IfSome result (λ r. BeginsWith most text.now r.0 r.1.now) }
    ensures none { IfNone result ((n : ℕ) (rest : List ℕ) → BeginsWith most text.now n rest → ⊥) }
{
    let (n, count) = digits_first(text)?;
    let (digits, rest) = text.split_at(count);
    if !is_plain(digits) || n > most {
        return None;
    }
    Some((n, rest))
}

/// Reads a number of one to ten digits, with no sign and no leading zero, from `least` to `most`.
/// Any other text is none.
pub fn get_num(text: &[u8], least: u64, most: u64) -> Option<u64>
    ensures some { IfSome result (λ n. IsNumber least most text.now n) }
    ensures none { IfNone result ((n : ℕ) → IsNumber least most text.now n → ⊥) }
{
    let (n, rest) = number_first(text, most)?;
    if !rest.is_empty() || n < least {
        return None;
    }
    Some(n)
}

/// What stands behind that byte, where it comes first.
fn behind(stop: u8, text: &[u8]) -> Option<&[u8]>
    ensures some { IfSome result (λ rest. text.now ≡ stop ∷ rest.now) }
    ensures none { IfNone result ((rest : List ℕ) → text.now ≡ stop ∷ rest → ⊥) }
{
    let (first, rest) = text.split_first()?;
    (*first == stop).then_some(rest)
}

/// The digit that a text begins with, and what stands behind it.
fn digit_first(text: &[u8]) -> Option<(u32, &[u8])>
    ensures some { IfSome result (λ r. (r.0 < 10) × (text.now ≡ (48 + r.0) ∷ r.1.now)) }
    ensures none { IfNone result (NoDigit text.now) }
{
    let (first, rest) = text.split_first()?;
    if !first.is_ascii_digit() {
        return None;
    }
    Some((u32::from(*first - b'0'), rest))
}

/// Reads the number to 255 that a text begins with, and gives what stands behind its digits. It has three at most, so
/// each is read by itself.
fn octet_first(text: &[u8]) -> Option<(u32, &[u8])>
    ensures some { IfSome result (λ r. BeginsWith 255 text.now r.0 r.1.now) }
    ensures none { IfNone result ((n : ℕ) (rest : List ℕ) → BeginsWith 255 text.now n rest → ⊥) }
{
    let (a, after_a) = digit_first(text)?;
    let Some((b, after_b)) = digit_first(after_a) else {
        return Some((a, after_a));
    };
    if a == 0 {
        return None;
    }
    let Some((c, after_c)) = digit_first(after_b) else {
        return Some((a * 10 + b, after_b));
    };
    if digit_first(after_c).is_some() {
        return None;
    }
    let n = a * 100 + b * 10 + c;
    if n > 255 {
        return None;
    }
    Some((n, after_c))
}

/// Reads a number to 255 with a dot behind it, and gives what stands behind the dot.
fn octet_and_dot(text: &[u8]) -> Option<(u32, &[u8])>
    ensures some { IfSome result (λ r. (r.0 < 256) × (text.now ≡ decimal r.0 ++ 46 ∷ r.1.now)) }
    ensures none { IfNone result ((n : ℕ) (rest : List ℕ) → n < 256 → text.now ≡ decimal n ++ 46 ∷ rest → ⊥) }
{
    let (n, rest) = octet_first(text)?;
    Some((n, behind(b'.', rest)?))
}

/// Reads the address that a text begins with, and gives what stands behind its digits.
fn address_first(text: &[u8]) -> Option<(u32, &[u8])>
    ensures some { IfSome result (λ r. BeginsWithAddress text.now r.0 r.1.now) }
    ensures none { IfNone result ((addr : ℕ) (rest : List ℕ) → BeginsWithAddress text.now addr rest → ⊥) }
{
    let (a, text) = octet_and_dot(text)?;
    let (b, text) = octet_and_dot(text)?;
    let (c, text) = octet_and_dot(text)?;
    let (d, rest) = octet_first(text)?;
    Some((a * 0x100_0000 + b * 0x1_0000 + c * 0x100 + d, rest))
}

/// Reads an address: four numbers to 255, with no leading zeros, joined by dots. Any other text is
/// none.
pub fn get_addr(text: &[u8]) -> Option<u32>
    ensures some { IfSome result (λ a. text.now ≡ addr_text a) }
    ensures none { IfNone result ((a : ℕ) → a < 2 ^ 32 → text.now ≡ addr_text a → ⊥) }
{
    let (addr, rest) = address_first(text)?;
    rest.is_empty().then_some(addr)
}

/// Reads an end: an address, a colon and a port from `least` to 65535. Any other text is none.
pub fn get_end(text: &[u8], least: u16) -> Option<(u32, u16)>
    ensures some { IfSome result (λ end. IsEndText least text.now end.0 end.1) }
    ensures none { IfNone result ((addr port : ℕ) → IsEndText least text.now addr port → ⊥) }
{
    let (addr, rest) = address_first(text)?;
    let port = get_num(behind(b':', rest)?, u64::from(least), u64::from(u16::MAX))?;
    Some((addr, port as u16))
}

fn is_label_byte(b: u8) -> bool
    ensures { result ≡ labels.is_label_byte b }
{
    b.is_ascii_alphanumeric() || b == b'_' || b == b'-'
}

fn all_label_bytes(word: &[u8]) -> bool
    ensures { result ≡ list_all labels.is_label_byte word.now }
{
    word.iter().all(|b| is_label_byte(*b))
}

/// Whether a word may name a socket: 1 to 16 letters, digits, `_` and `-`.
pub fn is_label(word: &[u8]) -> bool
    ensures { result ≡ labels.is_label word.now }
{
    (1..=16).contains(&word.len()) && all_label_bytes(word)
}

/// What the texts distinguish: two addresses that differ have different texts, and so have two ends
/// that differ in their address or their port.
pub fn texts_differ()
    ensures addrs { AddrTextsDiffer }
    ensures ends { EndTextsDiffer }
{}
