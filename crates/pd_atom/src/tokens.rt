//! What tokens read as.
ghost use Rattle.std.specs.Prelude.{◌≡◌, ◌<◌, ◌≤◌, length, [], true, IfOk, OnErr, IfSome};
ghost use Rattle.std.specs.Char.{is_ascii_digit};
ghost use Rattle.std.specs.List.{list_all};
ghost use Rattle.std.specs.Str.Parse.{digits_value};
ghost use Rattle.pd_atom.specs.Names.{Extends};
ghost use Rattle.pd_atom.specs.Atoms.{IsOf};
ghost use Rattle.pd_atom.specs.Tokens.{atom_read, IsSettled, nameless, named as named_atom_of, dollar_at, are_few_digits, has_argument as has_argument_in, starts_with_digit as starts_with};

use crate::{Atom, Sym, SymbolRefusal, Symbols};
use pd_num::Num;

/// The atom of an unescaped token, first match first: a comma, a semicolon, a numeral, a dollar with one to four digits
/// alone, a symbol in which a dollar stands directly before a digit, a symbol.
pub fn read_token(symbols: &mut Symbols, token: &[u8]) -> Result<Atom, SymbolRefusal>
    requires { 0 < length token.now }
    ensures answer { result ≡ (atom_read symbols.old token.now).answer }
    ensures names { symbols.new ≡ (atom_read symbols.old token.now).names }
    ensures of_table { IfOk result (IsOf symbols.new) }
    ensures settled { IfOk result (IsSettled symbols.new) }
    ensures extends { Extends symbols.old symbols.new }
    ensures refused { OnErr result (symbols.new ≡ symbols.old) }
{
    match nameless_atom(token) {
        Some(atom) => Ok(atom),
        None => match symbols.intern(token) {
            Ok(sym) => Ok(named_atom(token, sym)),
            Err(refusal) => Err(refusal),
        },
    }
}

/// The atom of a token that needs no name.
#[tactic(auto, unfolding(crate::specs::Tokens::nameless))]
pub(crate) fn nameless_atom(token: &[u8]) -> Option<Atom>
    ensures value { result ≡ nameless token.now }
    ensures dollar { IfSome result (IsOf []) }
{
    match token {
        b"," => Some(Atom::Comma),
        b";" => Some(Atom::Semi),
        _ => match Num::read(token) {
            Some(number) => Some(Atom::Number(number)),
            None => dollar(token).map(Atom::Dollar),
        },
    }
}

/// The atom of any other token, whose name the symbol has.
pub(crate) fn named_atom(token: &[u8], sym: Sym) -> Atom
    ensures { result ≡ named_atom_of token.now sym }
{
    if has_argument(token) {
        Atom::DollarSymbol(sym)
    } else {
        Atom::Symbol(sym)
    }
}

/// The number of a dollar with one to four digits and nothing else.
fn dollar(token: &[u8]) -> Option<u16>
    ensures value { result ≡ dollar_at token.now }
    ensures small { IfSome result (λ n. n ≤ 9999) }
{
    match token {
        [b'$', digits @ ..] if are_digits(digits) => Some(digits_number(digits)),
        _ => None,
    }
}

/// Whether the bytes are from one to four digits.
#[tactic(auto, using(crate::proofs::DigitLemmas::few_steps))]
fn are_digits(bytes: &[u8]) -> bool
    ensures { result ≡ are_few_digits bytes.now }
{
    if bytes.is_empty() || bytes.len() > 4 {
        return false;
    }
    all_digits(bytes)
}

/// Whether each byte is a digit.
fn all_digits(bytes: &[u8]) -> bool
    ensures { result ≡ list_all is_ascii_digit bytes.now }
{
    bytes.iter().all(|b| b.is_ascii_digit())
}

/// The number of at most four digits.
pub(crate) fn digits_number(digits: &[u8]) -> u16
    requires digits { list_all is_ascii_digit digits.now ≡ true }
    requires few { length digits.now ≤ 4 }
    ensures value { result ≡ digits_value 10 digits.now }
    ensures small { result ≤ 9999 }
{
    let mut number = 0;
    for b in digits {
        number = number * 10 + u16::from(*b - b'0');
    }
    number
}

/// Whether a dollar stands directly before a digit.
fn has_argument(bytes: &[u8]) -> bool
    ensures { result ≡ has_argument_in bytes.now }
{
    for i in 0..bytes.len() {
        if bytes[i] == b'$' && starts_with_digit(&bytes[i + 1..]) {
            return true;
        }
    }
    false
}

/// Whether a digit comes first.
pub(crate) fn starts_with_digit(bytes: &[u8]) -> bool
    ensures { result ≡ starts_with bytes.now }
{
    match bytes {
        [b, ..] => b.is_ascii_digit(),
        [] => false,
    }
}
