//! Decimal numbers.
ghost use Rattle.std.specs.Prelude.{◌≡◌, ℕ, ◌<◌, ◌+◌, ◌*◌};
ghost use Rattle.gt_script_lines.specs.Numbers.{number_of, decimal_number, number_below, below as value_below};

/// A decimal number of any size: exact if it is below 2^64, or only known to be at least that.
#[derive(Clone, Copy)]
pub enum Number {
    Small(u64),
    Huge,
}

impl Number {
    fn push_digit(self, digit: u8) -> Number
        requires { digit < 10 }
        ensures { (n : ℕ) → self ≡ number_of n → result ≡ number_of (n * 10 + digit) }
    {
        let Number::Small(n) = self else {
            return Number::Huge;
        };
        match n
            .checked_mul(10)
            .and_then(|n| n.checked_add(u64::from(digit)))
        {
            Some(n) => Number::Small(n),
            None => Number::Huge,
        }
    }

    /// Returns the number if it is below the limit.
    pub fn below(self, limit: u64) -> Option<u64>
        ensures number { result ≡ number_below limit self }
        ensures value { (n : ℕ) → self ≡ number_of n → result ≡ value_below limit n }
    {
        match self {
            Number::Small(n) if n < limit => Some(n),
            _ => None,
        }
    }
}

/// Reads a decimal number of one digit or more; None if there is another character.
#[tactic(auto, unfolding(crate::specs::Numbers::decimal_number))]
pub fn decimal(word: &[u8]) -> Option<Number>
    ensures { result ≡ decimal_number word.now }
{
    if word.is_empty() {
        return None;
    }
    let mut value = Number::Small(0);
    for byte in word {
        if !byte.is_ascii_digit() {
            return None;
        }
        value = value.push_digit(*byte - b'0');
    }
    Some(value)
}
