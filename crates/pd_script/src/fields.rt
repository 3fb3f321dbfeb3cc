//! Numbers and paths.

ghost use Rattle.std.specs.Prelude.{◌≡◌, ◌<◌, ◌≤◌, [], true, length, min, IsTrue, nat_lt, vec_capacity};
ghost use Rattle.std.specs.Char.{is_ascii_digit};
ghost use Rattle.std.specs.List.{list_all, list_any};
ghost use Rattle.std.specs.Str.Parse.{digits_value};
ghost use Rattle.pd_script.specs.Options.{Gives};
ghost use Rattle.pd_script.specs.Fields.{are_digits as are_digits_in, whole_of, whole_first, number_first, milliseconds_of, step_of, steps_of, parts_after, far_path, path_of};

use crate::tokens::Tokens;
use pd_num::Num;

/// A number above those that a box can have.
const FAR: u32 = 65_536;

/// Whether the bytes are digits, and one at least.
fn are_digits(bytes: &[u8]) -> bool
    ensures { result ≡ are_digits_in bytes.now }
{
    all_digits(bytes) && !bytes.is_empty()
}

/// Whether each byte is a digit.
fn all_digits(bytes: &[u8]) -> bool
    ensures { result ≡ list_all is_ascii_digit bytes.now }
{
    bytes.iter().all(|b| b.is_ascii_digit())
}

/// The number of digits, at most 65,536.
fn digits_number(digits: &[u8]) -> u32
    requires { list_all is_ascii_digit digits.now ≡ true }
    ensures { result ≡ min (digits_value 10 digits.now) FAR }
{
    let mut total: u32 = 0;
    for b in digits {
        total = (total * 10 + u32::from(*b - b'0')).min(FAR);
    }
    total
}

/// A number of a path, 65,536 where it is above 65,535.
#[tactic(auto, unfolding(crate::specs::Fields::step_of))]
fn step(token: &[u8]) -> Option<u32>
    ensures { result ≡ step_of token.now }
{
    if are_digits(token) {
        Some(digits_number(token))
    } else {
        None
    }
}

/// A whole number from 0 to 65,535 in digits.
#[tactic(auto, unfolding(crate::specs::Fields::whole_of))]
fn whole(token: &[u8]) -> Option<u32>
    ensures { result ≡ whole_of token.now }
{
    if !are_digits(token) {
        return None;
    }
    let number = digits_number(token);
    if number < FAR { Some(number) } else { None }
}

/// A number of milliseconds, at least 0.
pub(crate) fn milliseconds(token: &[u8]) -> Option<Num>
    ensures { result ≡ milliseconds_of token.now }
{
    let number = Num::read(token)?;
    if number.micros() < 0 {
        None
    } else {
        Some(number)
    }
}

/// Leaves the numbers between slashes in `out`; none where one isn't digits.
fn steps(rest: &[u8], out: &mut Vec<u32>) -> Option<()>
    requires { length rest.now < vec_capacity out.old }
    ensures exact { Gives (λ _. out.new.items) result (steps_of (parts_after [] rest.now)) }
    ensures capacity { vec_capacity out.new ≡ vec_capacity out.old }
{
    out.clear();
    let mut from = 0;
    for i in 0..rest.len() {
        if rest[i] == b'/' {
            out.push_reserved(step(&rest[from..i])?);
            from = i + 1;
        }
    }
    out.push_reserved(step(&rest[from..])?);
    Some(())
}

/// Makes a path with a number above 65,535 the one number 65,536.
fn cut_far(out: &mut Vec<u32>)
    requires { 0 < vec_capacity out.old }
    ensures path { out.new.items ≡ far_path out.old.items }
    ensures capacity { vec_capacity out.new ≡ vec_capacity out.old }
{
    if has_far(out.as_slice()) {
        out.clear();
        out.push_reserved(FAR);
    }
}

/// Whether a number is above 65,535.
fn has_far(numbers: &[u32]) -> bool
    ensures { result ≡ list_any (nat_lt 65535) numbers.now }
{
    numbers.iter().any(|n| 65_535 < *n)
}

/// Leaves the numbers of a path in `out`; none where the token is no path.
#[tactic(auto, unfolding(crate::specs::Fields::path_of))]
pub(crate) fn path(token: &[u8], out: &mut Vec<u32>) -> Option<()>
    requires short { length token.now ≤ 255 }
    requires room { 255 ≤ vec_capacity out.old }
    ensures exact { Gives (λ _. out.new.items) result (path_of token.now) }
    ensures capacity { vec_capacity out.new ≡ vec_capacity out.old }
{
    match token {
        [b'/'] => {
            out.clear();
            Some(())
        }
        [b'/', rest @ ..] => {
            steps(rest, out)?;
            cut_far(out);
            Some(())
        }
        _ => None,
    }
}

impl<'a> Tokens<'a> {
    /// The next token as a number.
    pub(crate) fn number(&mut self) -> Option<Num>
        ensures { Gives (λ z. (z, self.new)) result (number_first self.old) }
    {
        let token = self.next()?;
        Num::read(token.as_slice())
    }

    /// The next token as a whole number from 0 to 65,535.
    pub(crate) fn whole(&mut self) -> Option<u32>
        ensures { Gives (λ n. (n, self.new)) result (whole_first self.old) }
    {
        let token = self.next()?;
        whole(token.as_slice())
    }
}
