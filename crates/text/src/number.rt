ghost use Rattle.std.specs.Prelude.{◌≡◌, ◌+◌, ◌*◌, ◌-◌, ◌<◌, ◌≤◌, ◌^◌, MatchOption};
ghost use Rattle.text.specs.Numbers.{Reads, Spells, SpellsWithin, unsigned, signed};

use super::bounds::MOST_DIGITS;
use tables::refusal::Refusal;

// The number with one digit more, or nothing where the byte is no digit or the number larger than a u64.
fn with_digit(value: u64, byte: u8) -> Option<u64>
    ensures { MatchOption result (48 ≤ byte → byte ≤ 57 → 2 ^ 64 ≤ value * 10 + (byte - 48)) (λ n. (48 ≤ byte) × (byte ≤ 57) × (n ≡ value * 10 + (byte - 48)) × (n < 2 ^ 64)) }
{
    match byte {
        b'0'..=b'9' => value.checked_mul(10)?.checked_add(u64::from(byte - b'0')),
        _ => None,
    }
}

// The number that the bytes spell: decimal, at most so many digits, no leading zero, and no larger than a u64. The digits are gone through here: the
// library's `parse` goes over them twice and more, and numbers are most of a record.
pub fn digits<const DIGITS: usize>(bytes: &[u8]) -> Result<u64, Refusal>
    ensures { Reads (λ n. SpellsWithin DIGITS unsigned bytes.now n × (n < 2 ^ 64)) result }
{
    let first = *bytes.first().ok_or(Refusal::Layout)?;
    let len = bytes.len();
    if len > DIGITS || first == b'0' && len > 1 {
        return Err(Refusal::Layout);
    }
    let mut value: u64 = 0;
    for byte in bytes {
        value = with_digit(value, *byte).ok_or(Refusal::Layout)?;
    }
    Ok(value)
}

// The number that the bytes spell: decimal, at most 13 digits, no leading zero.
pub fn number(bytes: &[u8]) -> Result<u64, Refusal>
    ensures { Reads (Spells unsigned bytes.now) result }
{
    digits::<MOST_DIGITS>(bytes)
}

// The number that the bytes spell, with a minus where it is below 0.
pub fn level(bytes: &[u8]) -> Result<i64, Refusal>
    ensures { Reads (Spells signed bytes.now) result }
{
    match bytes {
        [b'-', size @ ..] => match number(size)? {
            0 => Err(Refusal::Layout),
            n => Ok(-(n as i64)),
        },
        _ => Ok(number(bytes)? as i64),
    }
}
