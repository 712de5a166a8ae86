//! Numbers as operands write them.

ghost use Rattle.std.specs.Prelude.{◌≡◌, ◌≤◌, ◌^◌, true, IfSome};
ghost use Rattle.std.specs.List.{list_all};
ghost use Rattle.asm_text.specs.Numbers.{capped, decimal_of, hex_of, number_of};
ghost use Rattle.texts.specs.Texts.{all_digits, value_of, is_hex_digit, hex_value_of};

use texts::{all_digits, all_hex_digits, hex_digit_value};

/// Numbers past all bounds count as this one, 2^65.
const PAST_ALL: u128 = 1 << 65;

fn decimal_value(digits: &[u8]) -> u128
    requires { all_digits digits.now ≡ true }
    ensures value { result ≡ capped (value_of digits.now) }
    ensures small { result ≤ 2 ^ 65 }
{
    let mut value: u128 = 0;
    for d in digits {
        value = (10 * value + (*d - b'0') as u128).min(PAST_ALL);
    }
    value
}

fn hex_value(digits: &[u8]) -> u128
    requires { list_all is_hex_digit digits.now ≡ true }
    ensures value { result ≡ capped (hex_value_of digits.now) }
    ensures small { result ≤ 2 ^ 65 }
{
    let mut value: u128 = 0;
    for d in digits {
        value = (16 * value + hex_digit_value(*d) as u128).min(PAST_ALL);
    }
    value
}

#[tactic(auto, unfolding(crate::specs::Numbers::decimal_of))]
fn decimal_of(digits: &[u8]) -> Option<u128>
    ensures value { result ≡ decimal_of digits.now }
    ensures small { IfSome result (λ n. n ≤ 2 ^ 65) }
{
    if digits.is_empty() || !all_digits(digits) {
        return None;
    }
    Some(decimal_value(digits))
}

#[tactic(auto, unfolding(crate::specs::Numbers::hex_of))]
fn hex_of(digits: &[u8]) -> Option<u128>
    ensures value { result ≡ hex_of digits.now }
    ensures small { IfSome result (λ n. n ≤ 2 ^ 65) }
{
    if digits.is_empty() || !all_hex_digits(digits) {
        return None;
    }
    Some(hex_value(digits))
}

/// The number that a word writes: decimal digits, `-` and decimal digits, or `0x` and hexadecimal digits.
/// One past all bounds is given as 2^65 or -2^65.
#[tactic(auto, unfolding(crate::specs::Numbers::number_of))]
pub fn number_of(word: &[u8]) -> Option<i128>
    ensures { result ≡ number_of word.now }
{
    if !word.is_empty() && word[0] == b'-' {
        let Some(n) = decimal_of(&word[1..]) else {
            return None;
        };
        return Some(-(n as i128));
    }
    if word.len() > 1 && word[0] == b'0' && word[1] == b'x' {
        let Some(n) = hex_of(&word[2..]) else {
            return None;
        };
        return Some(n as i128);
    }
    let Some(n) = decimal_of(word) else {
        return None;
    };
    Some(n as i128)
}
