//! Texts: dollars, arguments and receivers.

ghost use Rattle.std.specs.Prelude.{◌≡◌, ◌≤◌, ◌<◌, ◌∷◌, ◌++◌, codes, length, drop, option_map, IfOk, IfSome};
ghost use Rattle.std.specs.List.{All};
ghost use Rattle.pd_atom.specs.Names.{Extends, name_of, outcome_map};
ghost use Rattle.pd_atom.specs.Atoms.{IsOf};
ghost use Rattle.pd_atom.specs.Expansion.{expanded};
ghost use Rattle.pd_naming.specs.Naming.{is_argument as counts, arguments_of};
ghost use Rattle.pd_canvas.specs.Views.{shape_of, entry_of};
ghost use Rattle.pd_growth.specs.Steps.{Stock, outcome_then, text_expanded, with_names, brought};
ghost use Rattle.pd_growth.specs.Making.{is_expanded};
ghost use Rattle.pd_growth.specs.Growth.{own_text as own_text_of, receiver_bytes, second_named, receiver_named, receiver_brought};
ghost use Rattle.pd_growth.specs.Growing.{Answers, Yields, around_of, ScopeSuits};
ghost use Rattle.pd_growth.specs.Suits.{TextSuits};

use crate::growing::Stop;
use crate::scope::Scope;
use pd_atom::{Atom, Sym, Symbols, expand};
use pd_canvas::{Atoms, Element, Form};
use std::alloc::{AllocError, Global};

/// The longest name.
const LONGEST: usize = 255;

/// An atom with its dollars replaced.
fn expand_atom(
    atom: Atom,
    zero: u32,
    arguments: &[Atom],
    symbols: &mut Symbols,
) -> Result<Atom, Stop>
    requires of_table { IsOf symbols.old atom }
    requires arguments { All (IsOf symbols.old) arguments.now }
    requires zero { zero ≤ 1000000000 }
    ensures exact { Yields result symbols.new (outcome_map (λ e. e.atom) (expanded symbols.old atom zero arguments.now)) }
    ensures of_table { IfOk result (λ a. IsOf symbols.new a) }
    ensures extends { Extends symbols.old symbols.new }
{
    match expand(symbols, atom, zero, arguments) {
        Ok(expanded) => Ok(expanded.atom),
        Err(_) => Err(Stop::SymbolsFull),
    }
}

/// A text with its dollars replaced.
fn expand_text(
    alloc: Global,
    text: &[Atom],
    zero: u32,
    arguments: &[Atom],
    symbols: &mut Symbols,
) -> Result<Atoms, Stop>
    requires of_table { All (IsOf symbols.old) text.now }
    requires arguments { All (IsOf symbols.old) arguments.now }
    requires zero { zero ≤ 1000000000 }
    ensures exact { Yields result symbols.new (text_expanded zero arguments.now text.now symbols.old) }
    ensures of_table { IfOk result (λ a. All (IsOf symbols.new) a) }
    ensures same { IfOk result (λ a. length a ≡ length text.now) }
    ensures extends { Extends symbols.old symbols.new }
{
    let mut atoms = Vec::with_capacity(alloc, text.len())?;
    for atom in text {
        atoms.push(expand_atom(*atom, zero, arguments, symbols)?)?;
    }
    Ok(Atoms::from_vec(atoms))
}

/// Whether the dollars of a box of this form are replaced.
fn is_expanded_form(form: &Form) -> bool
    ensures { result ≡ is_expanded (shape_of form.now) }
{
    match form {
        Form::Obj | Form::FloatBox | Form::SymbolBox | Form::Sub(_) | Form::Array(_) => true,
        Form::Msg | Form::Comment | Form::Other(_) => false,
    }
}

/// The text of a box.
pub(crate) fn own_text(
    alloc: Global,
    scope: &Scope<'_>,
    element: &Element,
    symbols: &mut Symbols,
) -> Result<Atoms, Stop>
    requires text { TextSuits symbols.old element.now.text }
    requires scope { ScopeSuits symbols.old scope.now }
    ensures exact { (w : Stock) → Answers (λ a. a) result (with_names symbols.new w) (own_text_of (around_of scope.now) (entry_of element.now).head (with_names symbols.old w)) }
    ensures suits { IfOk result (λ a. TextSuits symbols.new a) }
    ensures extends { Extends symbols.old symbols.new }
{
    if is_expanded_form(&element.form) {
        expand_text(
            alloc,
            element.text.as_slice(),
            scope.zero,
            scope.arguments,
            symbols,
        )
    } else {
        Ok(element.text.copy()?)
    }
}

/// Neither a comma nor a semicolon.
fn is_argument(atom: Atom) -> bool
    ensures { result ≡ counts atom }
{
    !matches!(atom, Atom::Comma | Atom::Semi)
}

/// The atoms but commas and semicolons.
fn kept_atoms(alloc: Global, atoms: &[Atom]) -> Result<Vec<Atom>, AllocError>
    ensures items { IfOk result (λ list. list.items ≡ arguments_of atoms.now) }
    ensures few { IfOk result (λ list. length list.items ≤ length atoms.now) }
{
    let mut list = Vec::new(alloc);
    for atom in atoms {
        if is_argument(*atom) {
            list.push(*atom)?;
        }
    }
    Ok(list)
}

/// The arguments behind the name of an abstraction.
#[tactic(auto, using(crate::proofs::TextLemmas::argument_steps))]
pub(crate) fn arguments(alloc: Global, text: &[Atom]) -> Result<Vec<Atom>, AllocError>
    ensures items { IfOk result (λ list. list.items ≡ arguments_of (drop 1 text.now)) }
    ensures few { IfOk result (λ list. length list.items ≤ length text.now) }
{
    match text {
        [_, rest @ ..] => kept_atoms(alloc, rest),
        [] => Ok(Vec::new(alloc)),
    }
}

/// Brings a name, but for one that is too long, which is bound to nothing.
fn bring(name: &[u8], symbols: &mut Symbols) -> Result<(), Stop>
    requires { 0 < length name.now }
    ensures exact { (w : Stock) → Answers (λ u. u) result (with_names symbols.new w) (brought name.now (with_names symbols.old w)) }
    ensures extends { Extends symbols.old symbols.new }
{
    if name.len() > LONGEST {
        return Ok(());
    }
    match symbols.intern(name) {
        Ok(_) => Ok(()),
        Err(_) => Err(Stop::SymbolsFull),
    }
}

/// The bytes of a canvas's receiver.
fn receiver(alloc: Global, name: &[u8]) -> Result<Vec<u8>, AllocError>
    ensures { IfOk result (λ bytes. bytes.items ≡ receiver_bytes name.now) }
{
    let mut bytes = Vec::with_capacity(alloc, 3)?;
    bytes.extend_from_slice(b"pd-")?;
    bytes.extend_from_slice(name)?;
    Ok(bytes)
}

/// Brings the receiver of a canvas of this name.
pub(crate) fn bring_receiver(alloc: Global, name: &[u8], symbols: &mut Symbols) -> Result<(), Stop>
    ensures exact { (w : Stock) → Answers (λ u. u) result (with_names symbols.new w) (brought (receiver_bytes name.now) (with_names symbols.old w)) }
    ensures extends { Extends symbols.old symbols.new }
{
    let bytes = receiver(alloc, name)?;
    bring(bytes.as_slice(), symbols)
}

/// The symbol that comes first.
fn first_name(atoms: &[Atom], symbols: &Symbols) -> Option<Sym>
    requires { All (IsOf symbols.now) atoms.now }
    ensures value { option_map (λ s. receiver_bytes (name_of symbols.now s)) result ≡ second_named symbols.now atoms.now }
    ensures of_table { IfSome result (λ s. s < length symbols.now) }
{
    match atoms {
        [Atom::Symbol(name), ..] => Some(*name),
        _ => None,
    }
}

/// The symbol behind `pd` in the text of a subpatch.
fn name_behind_pd(text: &[Atom], symbols: &Symbols) -> Option<Sym>
    requires { All (IsOf symbols.now) text.now }
    ensures value { option_map (λ s. receiver_bytes (name_of symbols.now s)) result ≡ receiver_named symbols.now text.now }
    ensures of_table { IfSome result (λ s. s < length symbols.now) }
{
    match text {
        [Atom::Symbol(word), rest @ ..] => {
            if symbols.name(*word) == b"pd".as_slice() {
                first_name(rest, symbols)
            } else {
                None
            }
        }
        _ => None,
    }
}

/// Brings the receiver of a subpatch, where it has one.
pub(crate) fn bring_subpatch(
    alloc: Global,
    is_top: bool,
    text: &[Atom],
    symbols: &mut Symbols,
) -> Result<(), Stop>
    requires { All (IsOf symbols.old) text.now }
    ensures exact { (w : Stock) → Answers (λ u. u) result (with_names symbols.new w) (receiver_brought is_top text.now (with_names symbols.old w)) }
    ensures extends { Extends symbols.old symbols.new }
{
    if !is_top {
        return Ok(());
    }
    match name_behind_pd(text, symbols) {
        Some(name) => {
            let bytes = receiver(alloc, symbols.name(name))?;
            bring(bytes.as_slice(), symbols)
        }
        None => Ok(()),
    }
}

/// The name of an abstraction before those around it.
pub(crate) fn names_inside(alloc: Global, name: Sym, inside: &[Sym]) -> Result<Vec<Sym>, AllocError>
    ensures { IfOk result (λ names. names.items ≡ name ∷ inside.now) }
{
    let mut names = Vec::with_capacity(alloc, 1)?;
    names.push(name)?;
    names.extend_from_slice(inside)?;
    Ok(names)
}
