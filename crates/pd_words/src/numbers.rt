//! The numbers that words are.
ghost use Rattle.std.specs.Prelude.{◌≡◌, ◌^◌, nat_lt, option_map};
ghost use Rattle.std.specs.Char.{is_ascii_digit};
ghost use Rattle.std.specs.List.{list_all};
ghost use Rattle.pd_clock.specs.Rates.{samples};
ghost use Rattle.pd_words.specs.Grammar.{is_count, is_number as is_numeral, is_rate, number_where};

use pd_clock::Rate;

/// The most boxes that may be made.
const MOST_BOXES: u32 = 1_000;

/// Whether a text is one decimal digit or more.
fn is_number(text: &str) -> bool
    ensures { result ≡ is_numeral text.now }
{
    match text.as_bytes() {
        [] => false,
        [_, ..] => are_digits(text.as_bytes()),
    }
}

/// Whether each byte is a decimal digit.
fn are_digits(text: &[u8]) -> bool
    ensures { result ≡ list_all is_ascii_digit text.now }
{
    text.iter().all(|b| b.is_ascii_digit())
}

/// The number of decimal digits, where they are that and it isn't too great.
fn number_of(text: &str) -> Option<u32>
    ensures { result ≡ number_where (λ n. nat_lt n (2 ^ 32)) text.now }
{
    if !is_number(text) {
        return None;
    }
    text.parse().ok()
}

/// The rate that a text names.
pub(crate) fn rate_named(text: &str) -> Option<Rate>
    ensures { option_map samples result ≡ number_where is_rate text.now }
{
    Rate::of_hz(number_of(text)?)
}

/// The number of boxes that a text names.
pub(crate) fn count_named(text: &str) -> Option<u32>
    ensures { result ≡ number_where is_count text.now }
{
    let count = number_of(text)?;
    if count == 0 || count > MOST_BOXES {
        return None;
    }
    Some(count)
}
