//! Backslashes before special bytes, put and taken away.

ghost use Rattle.std.specs.Prelude.{ℕ, List, ◌≡◌, ◌+◌, ◌<◌, ◌≤◌, ◌↔◌, ◌++◌, length, drop, take, vec_len, IsTrue, MatchOption, OnOk, OnErr};
ghost use Rattle.std.specs.List.{position};
ghost use Rattle.pd_lex.specs.Text.{is_special as is_special_byte, unescaped, escaped, IsEscape, IsSpecial, AreUnits};

use crate::is_stop;
use arrayvec::ArrayVec;
use memchr::memchr;
use std::alloc::AllocError;

/// The first backslash from a place on that has a byte behind it.
fn escape(token: &[u8], at: usize) -> Option<usize>
    requires { at ≤ length token.now }
    ensures { MatchOption result (unescaped (drop at token.now) ≡ drop at token.now) (IsEscape token.now at) }
{
    let found = memchr(b'\\', &token[at..])?;
    if at + found + 1 == token.len() {
        return None;
    }
    Some(at + found)
}

/// Leaves the bytes of a token without its backslashes in `out`; what was there goes.
///
/// A backslash stands for the byte behind it, and one that ends the token for itself. The answer is
/// false where the bytes are more than 255, and `out` then holds any of them.
pub fn unescape(token: &[u8], out: &mut ArrayVec<u8, 255>) -> bool
    ensures fits { IsTrue result ↔ (length (unescaped token.now) ≤ 255) }
    ensures value { IsTrue result → out.new.items ≡ unescaped token.now }
{
    out.clear();
    let mut from = 0;
    let mut at = 0;
    while let Some(k) = escape(token, at) {
        if out.try_extend_from_slice(&token[from..k]).is_err() {
            return false;
        }
        from = k + 1;
        at = k + 2;
    }
    out.try_extend_from_slice(&token[from..]).is_ok()
}

/// Puts a name at the end of `out`, with a backslash before each white space byte, comma, semicolon,
/// dollar and backslash. Where there is no memory for it, `out` is as before.
pub fn put_escaped(name: &[u8], out: &mut Vec<u8>) -> Result<(), AllocError>
    ensures ok { OnOk result (out.new.items ≡ out.old.items ++ escaped name.now) }
    ensures err { OnErr result (out.new.items ≡ out.old.items) }
{
    let len = out.len();
    let done = push_escaped(name, out);
    if done.is_err() {
        out.truncate(len);
    }
    done
}

/// Puts a name at the end, with a backslash before each special byte, as far as there is memory.
fn push_escaped(name: &[u8], out: &mut Vec<u8>) -> Result<(), AllocError>
    ensures ok { OnOk result (out.new.items ≡ out.old.items ++ escaped name.now) }
    ensures front { take (vec_len out.old) out.new.items ≡ out.old.items }
{
    let mut from = 0;
    let mut at = 0;
    while let Some(k) = special(name, at) {
        out.extend_from_slice(&name[from..k])?;
        out.push(b'\\')?;
        from = k;
        at = k + 1;
    }
    out.extend_from_slice(&name[from..])
}

/// The first special byte from a place on.
fn special(name: &[u8], at: usize) -> Option<usize>
    requires { at ≤ length name.now }
    ensures { MatchOption result (escaped (drop at name.now) ≡ drop at name.now) (IsSpecial name.now at) }
{
    let found = first_special(&name[at..])?;
    Some(at + found)
}

fn first_special(name: &[u8]) -> Option<usize>
    ensures { result ≡ position is_special_byte name.now }
{
    name.iter().position(|b| is_special(*b))
}

fn is_special(b: u8) -> bool
    ensures { result ≡ is_special_byte b }
{
    is_stop(b) || b == b'$' || b == b'\\'
}

/// A name that was put with its backslashes is a run of units, and reads as the name.
pub fn escapes_read()
    ensures units { (name : List ℕ) → AreUnits (escaped name) }
    ensures name { (name : List ℕ) → unescaped (escaped name) ≡ name }
{}
