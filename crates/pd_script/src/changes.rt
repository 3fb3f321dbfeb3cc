//! The verbs of an edit.

ghost use Rattle.std.specs.Prelude.{◌≡◌, ◌≤◌, bytes_eq, IfSome, vec_capacity};
ghost use Rattle.pd_atom.specs.Names.{Extends};
ghost use Rattle.pd_canvas.specs.declared.edits.Edit.TheVariants as edit;
ghost use Rattle.pd_script.specs.Options.{Gives};
ghost use Rattle.pd_script.specs.Tokens.{most_tokens};
ghost use Rattle.pd_script.specs.Tables.{EditOf};
ghost use Rattle.pd_script.specs.Edits.{edit_of};
ghost use Rattle.pd_script.specs.Changes.{box_verb_of, other_verb_of, verb_of as verb_of_word, new_box as new_box_of, wire_of, delete_of, move_of, retype_of, change_of};

use crate::atoms::atoms;
use crate::tokens::Tokens;
use pd_atom::{Atom, Symbols};
use pd_canvas::Wire;
use pd_num::Num;

/// What is done in a canvas.
#[derive(Clone, Copy, Debug, PartialEq, Eq)]
pub(crate) enum Verb {
    Box(BoxVerb),
    Connect,
    Disconnect,
    Delete,
    Move,
    Retype,
}

/// Which box is new.
#[derive(Clone, Copy, Debug, PartialEq, Eq)]
pub(crate) enum BoxVerb {
    Obj,
    Msg,
    Text,
    FloatAtom,
    SymbolAtom,
    Sub,
}

/// An edit but for its text.
#[derive(Clone, Copy, Debug, PartialEq, Eq)]
pub(crate) enum Change {
    Box { shape: BoxVerb, x: Num, y: Num },
    Connect { wire: Wire },
    Disconnect { wire: Wire },
    Delete { number: u32 },
    Retype { number: u32 },
    Move { number: u32, x: Num, y: Num },
}

/// Whether the bytes are a word.
pub(crate) fn is_word(bytes: &[u8], word: &[u8]) -> bool
    ensures { result ≡ bytes_eq bytes.now word.now }
{
    bytes == word
}

#[tactic(auto, unfolding(crate::specs::Changes::box_verb_of))]
fn box_verb(word: &[u8]) -> Option<BoxVerb>
    ensures { result ≡ box_verb_of word.now }
{
    if is_word(word, b"obj") {
        Some(BoxVerb::Obj)
    } else if is_word(word, b"msg") {
        Some(BoxVerb::Msg)
    } else if is_word(word, b"text") {
        Some(BoxVerb::Text)
    } else if is_word(word, b"floatatom") {
        Some(BoxVerb::FloatAtom)
    } else if is_word(word, b"symbolatom") {
        Some(BoxVerb::SymbolAtom)
    } else if is_word(word, b"sub") {
        Some(BoxVerb::Sub)
    } else {
        None
    }
}

#[tactic(auto, unfolding(crate::specs::Changes::other_verb_of))]
fn other_verb(word: &[u8]) -> Option<Verb>
    ensures { result ≡ other_verb_of word.now }
{
    if is_word(word, b"connect") {
        Some(Verb::Connect)
    } else if is_word(word, b"disconnect") {
        Some(Verb::Disconnect)
    } else if is_word(word, b"delete") {
        Some(Verb::Delete)
    } else if is_word(word, b"move") {
        Some(Verb::Move)
    } else if is_word(word, b"retype") {
        Some(Verb::Retype)
    } else {
        None
    }
}

/// The verb that a word is.
pub(crate) fn verb_of(word: &[u8]) -> Option<Verb>
    ensures { result ≡ verb_of_word word.now }
{
    match box_verb(word) {
        Some(shape) => Some(Verb::Box(shape)),
        None => other_verb(word),
    }
}

/// A new box: its place, and its atoms, which are left in `text`.
#[tactic(auto, using(crate::proofs::EditLemmas::made_of_table), unfolding(crate::specs::Changes::new_box))]
fn new_box(
    shape: BoxVerb,
    tokens: &mut Tokens<'_>,
    symbols: &mut Symbols,
    text: &mut Vec<Atom>,
) -> Option<Change>
    requires { most_tokens ≤ vec_capacity text.old }
    ensures exact { Gives (λ c. (edit_of c text.new.items, symbols.new)) result (new_box_of shape symbols.old tokens.old) }
    ensures capacity { vec_capacity text.new ≡ vec_capacity text.old }
    ensures of_table { IfSome result (λ c. EditOf symbols.new (edit_of c text.new.items)) }
    ensures extends { Extends symbols.old symbols.new }
{
    let x = tokens.number()?;
    let y = tokens.number()?;
    atoms(tokens, symbols, text)?;
    Some(Change::Box { shape, x, y })
}

/// The wire that exactly four tokens give.
#[tactic(auto, unfolding(crate::specs::Changes::wire_of))]
fn wire(tokens: &mut Tokens<'_>) -> Option<Wire>
    ensures { result ≡ wire_of tokens.old }
{
    let source = tokens.whole()?;
    let outlet = tokens.whole()?;
    let sink = tokens.whole()?;
    let inlet = tokens.whole()?;
    if !tokens.is_empty() {
        return None;
    }
    Some(Wire {
        source,
        outlet,
        sink,
        inlet,
    })
}

/// The number of a box, where no token follows it.
#[tactic(auto, unfolding(crate::specs::Changes::delete_of))]
fn delete(tokens: &mut Tokens<'_>) -> Option<u32>
    ensures { Gives (λ n. edit.Delete n) result (delete_of tokens.old) }
{
    let number = tokens.whole()?;
    if !tokens.is_empty() {
        return None;
    }
    Some(number)
}

/// The number of a box and its new place, where no token follows them.
#[tactic(auto, unfolding(crate::specs::Changes::move_of))]
fn move_box(tokens: &mut Tokens<'_>) -> Option<(u32, Num, Num)>
    ensures { Gives (λ m. edit.Move m.0 m.1 m.2) result (move_of tokens.old) }
{
    let number = tokens.whole()?;
    let x = tokens.number()?;
    let y = tokens.number()?;
    if !tokens.is_empty() {
        return None;
    }
    Some((number, x, y))
}

/// A box with another text: its number, and its atoms, which are left in `text`.
#[tactic(auto, unfolding(crate::specs::Changes::retype_of))]
fn retype(tokens: &mut Tokens<'_>, symbols: &mut Symbols, text: &mut Vec<Atom>) -> Option<Change>
    requires { most_tokens ≤ vec_capacity text.old }
    ensures exact { Gives (λ c. (edit_of c text.new.items, symbols.new)) result (retype_of symbols.old tokens.old) }
    ensures capacity { vec_capacity text.new ≡ vec_capacity text.old }
    ensures of_table { IfSome result (λ c. EditOf symbols.new (edit_of c text.new.items)) }
    ensures extends { Extends symbols.old symbols.new }
{
    let number = tokens.whole()?;
    atoms(tokens, symbols, text)?;
    Some(Change::Retype { number })
}

/// The edit that a verb and the tokens behind it give, with its text in `text`.
#[tactic(auto, unfolding(crate::specs::Changes::change_of))]
pub(crate) fn read_change(
    verb: Verb,
    tokens: &mut Tokens<'_>,
    symbols: &mut Symbols,
    text: &mut Vec<Atom>,
) -> Option<Change>
    requires { most_tokens ≤ vec_capacity text.old }
    ensures exact { Gives (λ c. (edit_of c text.new.items, symbols.new)) result (change_of verb symbols.old tokens.old) }
    ensures capacity { vec_capacity text.new ≡ vec_capacity text.old }
    ensures of_table { IfSome result (λ c. EditOf symbols.new (edit_of c text.new.items)) }
    ensures extends { Extends symbols.old symbols.new }
{
    match verb {
        Verb::Box(shape) => new_box(shape, tokens, symbols, text),
        Verb::Connect => Some(Change::Connect {
            wire: wire(tokens)?,
        }),
        Verb::Disconnect => Some(Change::Disconnect {
            wire: wire(tokens)?,
        }),
        Verb::Delete => Some(Change::Delete {
            number: delete(tokens)?,
        }),
        Verb::Move => {
            let (number, x, y) = move_box(tokens)?;
            Some(Change::Move { number, x, y })
        }
        Verb::Retype => retype(tokens, symbols, text),
    }
}
