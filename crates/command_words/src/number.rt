//! Numbers of a command line.

ghost use Rattle.std.specs.Prelude.{◌≡◌, ◌<◌, ◌^◌, IfSome};
ghost use Rattle.command_words.specs.Numbers.{decimal_of, hex_of, number_of};

use texts::{all_digits, all_hex_digits, hex_value_of, value_of};

#[tactic(auto, unfolding(crate::specs::Numbers::decimal_of))]
fn decimal_of(digits: &[u8]) -> Option<u64>
    ensures value { result ≡ decimal_of digits.now }
    ensures small { IfSome result (λ n. n < 10 ^ 10) }
{
    if digits.is_empty() || digits.len() > 10 || !all_digits(digits) {
        return None;
    }
    Some(value_of(digits))
}

#[tactic(auto, unfolding(crate::specs::Numbers::hex_of))]
fn hex_of(digits: &[u8]) -> Option<u64>
    ensures value { result ≡ hex_of digits.now }
    ensures small { IfSome result (λ n. n < 10 ^ 10) }
{
    if digits.is_empty() || digits.len() > 8 || !all_hex_digits(digits) {
        return None;
    }
    Some(hex_value_of(digits))
}

/// The number that a word writes: 1 to 10 decimal digits, or `0x` and 1 to 8 hexadecimal digits of either case.
#[tactic(auto, unfolding(crate::specs::Numbers::number_of))]
pub fn number_of(word: &[u8]) -> Option<u64>
    ensures value { result ≡ number_of word.now }
    ensures small { IfSome result (λ n. n < 10 ^ 10) }
{
    if word.len() > 1 && word[0] == b'0' && word[1] == b'x' {
        return hex_of(&word[2..]);
    }
    decimal_of(word)
}
