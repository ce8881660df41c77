// A frame as can-utils writes it: 3 hex digits for a base identifier or 8 for an extended one, `#`, and then up to 8 bytes as pairs of digits,
// with `_` and a digit where the code is not the byte count; or `R`, with a digit for the code if it is not 0, and `.` before bytes.
use wire::frames::ROOM;
use wire::{BaseId, ExtId, Frame, Ident};

// The number that hex digits stand for, capital or small; not by `from_str_radix`, which takes a sign.
fn number(digits: &str) -> Option<u32> {
    digits.chars().try_fold(0u32, |n, c| n.checked_mul(16)?.checked_add(c.to_digit(16)?))
}

fn ident(digits: &str) -> Option<Ident> {
    let number = number(digits)?;
    match digits.len() {
        3 => Some(Ident::Base(BaseId(u16::try_from(number).ok()?))),
        8 => Some(Ident::Extended(ExtId(number))),
        _ => None,
    }
}

// A length code is one digit.
fn code(digit: &str) -> Option<u8> {
    let value = digit.parse::<char>().ok()?.to_digit(16)?;
    Some(value as u8)
}

// Up to eight bytes from pairs of digits, and how many they are, as a frame holds them.
fn bytes(pairs: &str) -> Option<([u8; ROOM], u8)> {
    let mut bytes = [0u8; ROOM];
    let count = pairs.len() / 2;
    hex::decode_to_slice(pairs, bytes.get_mut(..count)?).ok()?;
    Some((bytes, count as u8))
}

// Behind `R`: the code's digit, or none for 0; then the end, or `.` and bytes to the end.
fn remote(ident: Ident, text: &str) -> Option<Frame> {
    let (digit, pairs) = text.split_once('.').unwrap_or((text, ""));
    let code = if digit.is_empty() { 0 } else { code(digit)? };
    let (bytes, count) = bytes(pairs)?;
    Some(Frame {
        ident,
        remote: true,
        code,
        count,
        bytes,
    })
}

// Bytes; then the end, or `_` and the code's digit.
fn data(ident: Ident, text: &str) -> Option<Frame> {
    let (pairs, code) = match text.split_once('_') {
        Some((pairs, digit)) => (pairs, Some(code(digit)?)),
        None => (text, None),
    };
    let (bytes, count) = bytes(pairs)?;
    Some(Frame {
        ident,
        remote: false,
        code: code.unwrap_or(count),
        count,
        bytes,
    })
}

// A line, without its end.
pub(crate) fn read(line: &[u8]) -> Option<Frame> {
    let (digits, rest) = str::from_utf8(line).ok()?.split_once('#')?;
    let ident = ident(digits)?;
    match rest.strip_prefix('R') {
        Some(text) => remote(ident, text),
        None => data(ident, rest),
    }
}
