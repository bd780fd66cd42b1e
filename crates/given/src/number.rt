// Numbers of 32 bits, in decimal or hexadecimal.

// All of s, digit by digit; none at all is no number.
// Stays: `from_str_radix` takes a sign, which is no digit here.
fn digits(s: &[u8], base: u32) -> Option<u32> {
    if s.is_empty() {
        return None;
    }
    let mut x: u32 = 0;
    for b in s {
        let digit = char::from(*b).to_digit(16).filter(|d| *d < base)?;
        x = x.checked_mul(base)?.checked_add(digit)?;
    }
    Some(x)
}

// Hexadecimal, of one to eight digits.
fn eight(s: &[u8]) -> Option<u32> {
    if s.len() <= 8 { digits(s, 16) } else { None }
}

// Hexadecimal, with 0x before it or without.
pub fn hexadecimal_of(s: &[u8]) -> Option<u32> {
    match s {
        [b'0', b'x' | b'X', rest @ ..] => eight(rest),
        _ => eight(s),
    }
}

// Decimal, or hexadecimal with 0x before it.
pub fn number_of(s: &[u8]) -> Option<u32> {
    match s {
        [b'0', b'x' | b'X', rest @ ..] => eight(rest),
        _ => digits(s, 10),
    }
}
