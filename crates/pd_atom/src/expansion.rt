//! What dollars stand for.
ghost use Rattle.std.specs.Prelude.{◌≡◌, ◌<◌, ◌≤◌, ◌++◌, length, take, drop, All, IfOk, IfErr, OnErr, None, false, true};
ghost use Rattle.std.specs.List.{list_all, prefix_len};
ghost use Rattle.std.specs.Char.{is_ascii_digit};
ghost use Rattle.pd_atom.specs.Names.{Extends, name_of};
ghost use Rattle.pd_atom.specs.declared.SymbolRefusal.TheVariants.{Full};
ghost use Rattle.pd_atom.specs.Atoms.{IsOf};
ghost use Rattle.pd_atom.specs.Tokens.{or_else};
ghost use Rattle.pd_atom.specs.Expansion.{units, argument as argument_of, run_argument as run_argument_of, run_number as run_number_of, run_at, run_text, filled, runs_of, or_missing, first_missing, dollar_expanded, expanded_name, expanded};

use crate::spelling::spell;
use crate::tokens::digits_number;
use crate::{Atom, Expanded, Sym, SymbolRefusal, Symbols};
use arrayvec::ArrayVec;
use pd_num::Num;

/// The whole units of the greatest number.
const MOST_UNITS: u32 = 1_000_000_000;

/// An atom with its dollars replaced by the arguments that they stand for, of which `$0` is `zero` in whole units.
///
/// A missing argument counts as the number 0, and the first one is told; a dollar with more than four digits is told as 9,999.
pub fn expand(
    symbols: &mut Symbols,
    atom: Atom,
    zero: u32,
    args: &[Atom],
) -> Result<Expanded, SymbolRefusal>
    requires of_table { IsOf symbols.old atom }
    requires args { All (IsOf symbols.old) args.now }
    ensures answer { result ≡ (expanded symbols.old atom zero args.now).answer }
    ensures names { symbols.new ≡ (expanded symbols.old atom zero args.now).names }
    ensures of_table { IfOk result (λ e. IsOf symbols.new e.atom) }
    ensures extends { Extends symbols.old symbols.new }
    ensures refused { OnErr result (symbols.new ≡ symbols.old) }
    ensures full { IfErr result (λ e. e ≡ Full) }
{
    match atom {
        Atom::Dollar(number) => Ok(dollar(number, argument(zero, args, number))),
        Atom::DollarSymbol(sym) => {
            let mut name = ArrayVec::new();
            let missing = fill(symbols, sym, zero, args, &mut name);
            match symbols.intern(name.as_slice()) {
                Ok(sym) => Ok(Expanded {
                    atom: Atom::Symbol(sym),
                    missing,
                }),
                Err(refusal) => Err(refusal),
            }
        }
        _ => Ok(Expanded {
            atom,
            missing: None,
        }),
    }
}

/// A dollar by itself, where its argument is known.
fn dollar(number: u16, found: Option<Atom>) -> Expanded
    ensures { result ≡ dollar_expanded number found }
{
    match found {
        Some(atom) => Expanded {
            atom,
            missing: None,
        },
        None => Expanded {
            atom: Atom::Number(whole(0)),
            missing: Some(number),
        },
    }
}

/// The number of so many whole units, or the greatest number.
fn whole(count: u32) -> Num
    ensures { result ≡ units count }
{
    Num::of_micros(i64::from(count.min(MOST_UNITS)) * 1_000_000).unwrap()
}

/// What a dollar with a number stands for.
fn argument(zero: u32, args: &[Atom], number: u16) -> Option<Atom>
    ensures { result ≡ argument_of zero args.now number }
{
    if number == 0 {
        Some(Atom::Number(whole(zero)))
    } else {
        args.get(usize::from(number) - 1).copied()
    }
}

/// Leaves the first 255 bytes of an expanded dollar symbol's name in `out`, and tells the first missing argument.
fn fill(
    symbols: &Symbols,
    sym: Sym,
    zero: u32,
    args: &[Atom],
    out: &mut ArrayVec<u8, 255>,
) -> Option<u16>
    requires of_table { sym < length symbols.now }
    requires args { All (IsOf symbols.now) args.now }
    ensures name { out.new.items ≡ expanded_name symbols.now sym zero args.now }
    ensures some { 0 < length out.new.items }
    ensures missing { result ≡ first_missing zero args.now (runs_of (name_of symbols.now sym)) }
{
    out.clear();
    let name = symbols.name(sym);
    let mut missing = None;
    let mut i = 0;
    while i < name.len() {
        let (len, absent) = put_piece(symbols, &name[i..], zero, args, out);
        missing = missing.or(absent);
        i += len;
    }
    missing
}

/// Puts what the front of a name stands for at the end, as far as it fits. Answers how many bytes the front has, and its
/// missing argument.
fn put_piece(
    symbols: &Symbols,
    rest: &[u8],
    zero: u32,
    args: &[Atom],
    out: &mut ArrayVec<u8, 255>,
) -> (usize, Option<u16>)
    requires some { 0 < length rest.now }
    requires args { All (IsOf symbols.now) args.now }
    ensures some { 0 < result.0 }
    ensures within { result.0 ≤ length rest.now }
    ensures text { take 255 (out.new.items ++ filled (run_text symbols.now zero args.now) false (drop result.0 rest.now))
        ≡ take 255 (out.old.items ++ filled (run_text symbols.now zero args.now) false rest.now) }
    ensures put { 0 < length out.new.items }
    ensures short { length out.new.items ≤ 255 }
    ensures missing { first_missing zero args.now (runs_of rest.now) ≡ or_else result.1 (first_missing zero args.now (runs_of (drop result.0 rest.now))) }
{
    let digits = run(rest);
    if digits.is_empty() {
        put(&rest[..1], out);
        return (1, None);
    }
    let missing = put_argument(symbols, digits, zero, args, out);
    (digits.len() + 1, missing)
}

/// Puts what a dollar with a run of digits stands for at the end, as far as it fits, and tells it where it is missing.
fn put_argument(
    symbols: &Symbols,
    digits: &[u8],
    zero: u32,
    args: &[Atom],
    out: &mut ArrayVec<u8, 255>,
) -> Option<u16>
    requires digits { list_all is_ascii_digit digits.now ≡ true }
    requires args { All (IsOf symbols.now) args.now }
    ensures text { out.new.items ≡ take 255 (out.old.items ++ run_text symbols.now zero args.now digits.now) }
    ensures some { 0 < length out.new.items }
    ensures missing { result ≡ or_missing (run_argument_of zero args.now digits.now) (run_number_of digits.now) None }
{
    match run_argument(zero, args, digits) {
        Some(atom) => {
            let mut text = ArrayVec::new();
            spell(symbols, atom, &mut text);
            put(text.as_slice(), out);
            None
        }
        None => {
            put(b"0", out);
            Some(run_number(digits))
        }
    }
}

/// Puts bytes at the end, as far as they fit.
fn put(bytes: &[u8], out: &mut ArrayVec<u8, 255>)
    ensures { out.new.items ≡ take 255 (out.old.items ++ bytes.now) }
{
    let room = out.remaining_capacity().min(bytes.len());
    let _ = out.try_extend_from_slice(&bytes[..room]);
}

/// The digits directly behind a dollar, where one comes first.
fn run(bytes: &[u8]) -> &[u8]
    ensures { result.now ≡ run_at bytes.now }
{
    match bytes {
        [b'$', rest @ ..] => &rest[..digits_len(rest)],
        _ => &bytes[..0],
    }
}

/// How many digits come first.
#[tactic(auto, using(crate::proofs::DigitLemmas::digit_steps))]
fn digits_len(bytes: &[u8]) -> usize
    ensures { result ≡ prefix_len is_ascii_digit bytes.now }
{
    for (i, b) in bytes.iter().enumerate() {
        if !b.is_ascii_digit() {
            return i;
        }
    }
    bytes.len()
}

/// What a dollar with a run of digits stands for.
fn run_argument(zero: u32, args: &[Atom], digits: &[u8]) -> Option<Atom>
    requires digits { list_all is_ascii_digit digits.now ≡ true }
    ensures { result ≡ run_argument_of zero args.now digits.now }
{
    if digits.len() > 4 {
        None
    } else {
        argument(zero, args, digits_number(digits))
    }
}

/// The number by which a run of digits is told.
fn run_number(digits: &[u8]) -> u16
    requires { list_all is_ascii_digit digits.now ≡ true }
    ensures { result ≡ run_number_of digits.now }
{
    if digits.len() > 4 {
        9999
    } else {
        digits_number(digits)
    }
}
