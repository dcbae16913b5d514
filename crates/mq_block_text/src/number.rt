// Numbers in decimal.
ghost use Rattle.std.specs.Prelude.{◌≡◌, ◌<◌, ◌≤◌, ◌+◌, ◌-◌, ◌*◌, ◌^◌, ◌↔◌, ℕ, None, Some, length, slice_index, EachIndex, IfSome, IsTrue};
ghost use Rattle.std.specs.Int.{IsInRange};
ghost use Rattle.mq_block_text.specs.Text.{number_text};

/// Whether a text is decimal digits without leading zeros.
fn is_numeral(text: &[u8]) -> bool
    ensures { IsTrue result
        ↔ ((0 < length text.now)
        × (slice_index text.now 0 ≡ 48 → length text.now ≡ 1)
        × EachIndex text.now (λ k. IsInRange 48 57 (slice_index text.now k))) }
{
    if text.is_empty() {
        return false;
    }
    if text.len() > 1 && text[0] == b'0' {
        return false;
    }
    text.iter().all(|b| b.is_ascii_digit())
}

/// The number with one more digit at its end, if it is below 2^64.
fn with_digit(number: u64, digit: u8) -> Option<u64>
    requires digit { IsInRange 48 57 digit }
    ensures some { IfSome result (λ n. (n < 2 ^ 64) × (n ≡ number * 10 + (digit - 48))) }
    ensures none { result ≡ None → 2 ^ 64 ≤ number * 10 + (digit - 48) }
{
    number.checked_mul(10)?.checked_add(u64::from(digit - b'0'))
}

/// A number below 2^64.
pub fn read_number(text: &[u8]) -> Option<u64>
    ensures found { IfSome result (λ n. (n < 2 ^ 64) × (text.now ≡ number_text n)) }
    ensures only { (n : ℕ) → n < 2 ^ 64 → text.now ≡ number_text n → result ≡ Some n }
{
    if !is_numeral(text) {
        return None;
    }
    let mut number: u64 = 0;
    for digit in text {
        match with_digit(number, *digit) {
            Some(more) => number = more,
            None => return None,
        }
    }
    Some(number)
}
