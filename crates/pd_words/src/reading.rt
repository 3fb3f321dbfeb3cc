//! The words of the command line.
ghost use Rattle.std.specs.Prelude.{◌≡◌, ◌↔◌, ◌==◌, Some, not, IfOk, map, option_map, codes};
ghost use Rattle.std.specs.List.{list_all, list_any};
ghost use Rattle.std.specs.String.{string_bytes};
ghost use Rattle.clap.specs.Words.{app_of, first_value, found_of};
ghost use Rattle.pd_words.specs.Command.{IsCommand};
ghost use Rattle.pd_words.specs.Grammar.{Asked, is_patch_name as names_patch, words_of};
ghost use Rattle.pd_words.specs.Shown.{asked, asked_first, is_form as has_form, is_stray as strays, pdplay};

use crate::numbers::{count_named, rate_named};
use clap::error::ErrorKind;
use clap::{Arg, ArgMatches, Command};
use pd_clock::Rate;
use std::alloc::{AllocError, Global};

/// What the words ask for.
#[derive(Clone, Copy, Debug, PartialEq, Eq)]
pub struct Words<'a> {
    /// The file name of a patch, which isn't empty, doesn't begin with `-` and has no `/`.
    pub patch: &'a str,
    /// The rate of samples, 44,100 where none is given.
    pub rate: Rate,
    /// How many boxes are to be made, from 1 to 1,000, where this is asked for.
    pub make: Option<u32>,
}

/// Reads the words, in any order: one patch, at most one rate, `--rate R` or `--rate=R`, and at most one number of boxes,
/// `--make N` or `--make=N`. `None` exactly where they are others.
pub fn read_words(alloc: Global, words: &[String]) -> Result<Option<Words<'_>>, AllocError>
    ensures asked { IfOk result (λ r. (a : Asked) → (option_map asked r ≡ Some a) ↔ IsCommand (map (λ w. string_bytes w) words.now) a) }
    ensures value { IfOk result (λ r. option_map asked r ≡ words_of (map (λ w. string_bytes w) words.now)) }
{
    if has_stray(words) {
        return Ok(None);
    }
    match command(alloc)?.try_get_matches_from(words) {
        Ok(matches) => Ok(ask(&matches)),
        Err(error) => match error.kind() {
            ErrorKind::OutOfMemory => Err(AllocError),
            _ => Ok(None),
        },
    }
}

/// What `clap` reads: two options with a value and one other word.
fn command<'a>(alloc: Global) -> Result<Command<'a>, AllocError>
    ensures { IfOk result (λ c. app_of c ≡ pdplay) }
{
    let rate = Arg::new(alloc, "rate").long("rate");
    let make = Arg::new(alloc, "make").long("make");
    let patch = Arg::new(alloc, "patch");
    Command::new(alloc, "pdplay")
        .no_binary_name(true)
        .disable_help_flag(true)
        .arg(rate)?
        .arg(make)?
        .arg(patch)
}

/// What the words ask for, by what `clap` found.
fn ask<'a>(matches: &ArgMatches<'a>) -> Option<Words<'a>>
    ensures { option_map asked result ≡ asked_first (first_value (found_of matches.now) (codes "patch")) (first_value (found_of matches.now) (codes "rate")) (first_value (found_of matches.now) (codes "make")) }
{
    let patch = matches.get_str("patch")?;
    if !is_patch_name(patch.as_bytes()) {
        return None;
    }
    let rate = match matches.get_str("rate") {
        Some(text) => rate_named(text)?,
        None => Rate::R44100,
    };
    let make = match matches.get_str("make") {
        Some(text) => Some(count_named(text)?),
        None => None,
    };
    Some(Words { patch, rate, make })
}

/// Whether some word begins with a minus and names no option.
fn has_stray(words: &[String]) -> bool
    ensures { result ≡ list_any (λ w. strays (string_bytes w)) words.now }
{
    words.iter().any(|word| is_stray(word.as_str()))
}

/// Whether a word begins with a minus and names no option.
fn is_stray(word: &str) -> bool
    ensures { result ≡ strays word.now }
{
    let bytes = word.as_bytes();
    bytes.first() == Some(&b'-') && !is_form(b"--rate", bytes) && !is_form(b"--make", bytes)
}

/// Whether a word names an option, alone or with a value joined by `=`.
fn is_form(name: &[u8], word: &[u8]) -> bool
    ensures { result ≡ has_form name.now word.now }
{
    match word.strip_prefix(name) {
        Some([]) => true,
        Some([first, ..]) => *first == b'=',
        None => false,
    }
}

/// Whether no byte of a word is a slash.
fn has_no_slash(word: &[u8]) -> bool
    ensures { result ≡ list_all (λ c. not (c == 47)) word.now }
{
    word.iter().all(|b| *b != b'/')
}

/// Whether a word is the name of a patch: it isn't empty, doesn't begin with a minus, and has no slash.
fn is_patch_name(word: &[u8]) -> bool
    ensures { result ≡ names_patch word.now }
{
    match word {
        [] => false,
        [first, ..] => *first != b'-' && has_no_slash(word),
    }
}
