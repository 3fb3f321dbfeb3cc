//! How what a box says is shown.

use crate::naming::is_of_table;
use pd_atom::{Atom, Sym, Symbols, write_atom};
use pd_kind::{Deed, Notice, SendRow, Sends, Target};
use pd_num::Num;
use std::alloc::AllocError;

/// An atom as text, behind a blank; a question mark for one of another table.
fn push_atom(atom: &Atom, symbols: &Symbols, said: &mut Vec<u8>) -> Result<(), AllocError> {
    said.push(b' ')?;
    if is_of_table(atom, symbols) {
        write_atom(symbols, *atom, said)
    } else {
        said.push(b'?')?;
        Ok(())
    }
}

fn push_name(name: Sym, symbols: &Symbols, said: &mut Vec<u8>) -> Result<(), AllocError> {
    push_atom(&Atom::Symbol(name), symbols, said)
}

fn push_number(number: Num, symbols: &Symbols, said: &mut Vec<u8>) -> Result<(), AllocError> {
    push_atom(&Atom::Number(number), symbols, said)
}

fn push_count(count: u32, symbols: &Symbols, said: &mut Vec<u8>) -> Result<(), AllocError> {
    let count = Num::of_micros(i64::from(count).wrapping_mul(1_000_000)).unwrap_or_default();
    push_number(count, symbols, said)
}

/// A notice as its words.
fn push_notice(notice: &Notice, symbols: &Symbols, said: &mut Vec<u8>) -> Result<(), AllocError> {
    said.push(b' ')?;
    match notice {
        Notice::NoMethod { row, selector } => {
            said.extend_from_slice(row.name())?;
            said.extend_from_slice(b" has no method")?;
            push_name(*selector, symbols, said)
        }
        Notice::NoArgument { number } => {
            said.extend_from_slice(b"no argument")?;
            push_count(u32::from(*number), symbols, said)
        }
        Notice::NoReceiver { name } => {
            said.extend_from_slice(b"no receiver")?;
            push_atom(name, symbols, said)
        }
        Notice::MessageCut => said.extend_from_slice(b"message cut"),
        Notice::TextFull => said.extend_from_slice(b"text full"),
        Notice::TableFull => said.extend_from_slice(b"table full"),
        Notice::TooManyRamps => said.extend_from_slice(b"too many ramps"),
    }
}

/// The outlet, or `to` and the name, with a mark where it is told that nobody hears.
fn push_target(target: Target, symbols: &Symbols, said: &mut Vec<u8>) -> Result<(), AllocError> {
    match target {
        Target::Outlet(outlet) => push_count(outlet, symbols, said),
        Target::Name { name, loud } => {
            said.extend_from_slice(if loud { b" to!" } else { b" to" })?;
            push_name(name, symbols, said)
        }
    }
}

/// A target, a selector and atoms.
fn push_send(
    row: SendRow,
    atoms: &[Atom],
    symbols: &Symbols,
    said: &mut Vec<u8>,
) -> Result<(), AllocError> {
    push_target(row.target, symbols, said)?;
    push_name(row.selector, symbols, said)?;
    for place in row.first..row.after {
        if let Some(atom) = atoms.get(place as usize) {
            push_atom(atom, symbols, said)?;
        }
    }
    Ok(())
}

fn push_deed(deed: &Deed, symbols: &Symbols, said: &mut Vec<u8>) -> Result<(), AllocError> {
    match deed {
        Deed::Nothing => Ok(()),
        Deed::SetClock(time) => {
            said.extend_from_slice(b" clock")?;
            push_number(*time, symbols, said)?;
            said.extend_from_slice(b",")
        }
        Deed::ClearClock => said.extend_from_slice(b" no clock,"),
        Deed::WriteTable { index, value } => {
            said.extend_from_slice(b" write")?;
            push_count(*index, symbols, said)?;
            push_number(*value, symbols, said)?;
            said.extend_from_slice(b",")
        }
        Deed::Print => said.extend_from_slice(b" print,"),
        Deed::Again => said.extend_from_slice(b" again,"),
    }
}

fn push_notices(out: &Sends, symbols: &Symbols, said: &mut Vec<u8>) -> Result<(), AllocError> {
    for notice in out.notices.as_slice() {
        push_notice(notice, symbols, said)?;
        said.push(b',')?;
    }
    Ok(())
}

fn push_sends(out: &Sends, symbols: &Symbols, said: &mut Vec<u8>) -> Result<(), AllocError> {
    for row in out.rows.as_slice() {
        push_send(*row, out.atoms.as_slice(), symbols, said)?;
        said.push(b',')?;
    }
    Ok(())
}

/// The lines, the sends and the deed of a hearing, each with a comma behind it; then a bar.
pub(crate) fn push_said(
    out: &Sends,
    symbols: &Symbols,
    said: &mut Vec<u8>,
) -> Result<(), AllocError> {
    push_notices(out, symbols, said)?;
    push_sends(out, symbols, said)?;
    push_deed(&out.deed, symbols, said)?;
    said.extend_from_slice(b" |")
}
