//! The numbers of the command line.

ghost use Rattle.std.specs.Prelude.{◌≡◌, ◌≤◌, ◌+◌, ◌*◌, ◌-◌, ◌^◌, Some, IfSome};
ghost use Rattle.mi_model.specs.Image.{IsRegionSize};
ghost use Rattle.mi_model.specs.Numbers.{magnitude_of, at_most};
ghost use Rattle.mi_commands.specs.Numbers.{number_of, passing, is_size, is_turns};

use mi_num::digit;

/// The number that a text spells: decimal digits, or `0x` and hexadecimal digits in either case, at least one digit, below
/// 2^64.
pub fn number(text: &[u8]) -> Option<u64>
    ensures { result ≡ number_of text.now }
{
    match text.strip_prefix(b"0x".as_slice()) {
        Some(digits) => magnitude(digits, 16),
        None => magnitude(text, 10),
    }
}

/// The number of these digits, of which there is at least one, where it is below 2^64.
#[tactic(auto, using(crate::proofs::NumberLemmas::too_large, crate::proofs::NumberLemmas::some_digits, crate::proofs::NumberLemmas::none_left))]
fn magnitude(digits: &[u8], base: u8) -> Option<u64>
    requires { 2 ≤ base }
    ensures { result ≡ at_most (2 ^ 64 - 1) (magnitude_of base digits.now) }
{
    if digits.is_empty() {
        return None;
    }
    let mut value: u64 = 0;
    let mut left = digits;
    'digits: while let Some((byte, rest)) = left.split_first() {
        let digit = digit(*byte, base)?;
        value = next_value(value, base, digit)?;
        left = rest;
    }
    Some(value)
}

/// The number with one more digit behind it, where it is below 2^64.
fn next_value(value: u64, base: u8, digit: u8) -> Option<u64>
    ensures { result ≡ at_most (2 ^ 64 - 1) (Some (base * value + digit)) }
{
    value.checked_mul(base as u64)?.checked_add(digit as u64)
}

/// The size of a region that a text gives: a multiple of 4,096 from 65,536 to 8,388,608.
pub fn size(text: &[u8]) -> Option<u32>
    ensures value { result ≡ passing is_size (number_of text.now) }
    ensures fits { IfSome result (λ n. IsRegionSize n) }
{
    match number(text) {
        Some(n) if n % 4_096 == 0 && 65_536 <= n && n <= 8_388_608 => Some(n as u32),
        _ => None,
    }
}

/// The budget of instructions that a text gives: from 1 to 2^40.
pub fn turns(text: &[u8]) -> Option<u64>
    ensures value { result ≡ passing is_turns (number_of text.now) }
    ensures fits { IfSome result (λ n. n ≤ 2 ^ 40) }
{
    match number(text) {
        Some(n) if 1 <= n && n <= 1 << 40 => Some(n),
        _ => None,
    }
}
