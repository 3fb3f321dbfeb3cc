//! Messages that edit a text.

ghost use Rattle.std.specs.Prelude.{◌≡◌, ◌<◌, ◌≤◌, ◌+◌, ◌++◌, ◌∷◌, [], length};
ghost use Rattle.std.specs.List.{All};
ghost use Rattle.pd_atom.specs.Atoms.{IsOf};
ghost use Rattle.pd_atom.specs.declared.Atom.TheVariants.{Semi};
ghost use Rattle.pd_kind.specs.Said.{said_by, silent};
ghost use Rattle.pd_message.specs.Rows.{is_called as is_called_so, settled_atoms, grown, edited, text_full, IsText};

use pd_atom::{Atom, Sym, Symbols, settle};
use pd_kind::{Notice, Row, Sends, Text};

/// How many atoms a text has at most.
const MOST: usize = 1024;

/// Whether a selector's name is the word.
fn is_called(symbols: &Symbols, selector: Sym, word: &[u8]) -> bool
    requires { selector < length symbols.now }
    ensures { result ≡ is_called_so symbols.now selector word.now }
{
    symbols.name(selector) == word
}

/// Puts settled atoms last.
fn put_settled(text: &mut Text, atoms: &[Atom], symbols: &Symbols)
    requires atoms { All (IsOf symbols.now) atoms.now }
    requires text { All (IsOf symbols.now) text.old }
    requires room { length text.old + length atoms.now ≤ 1024 }
    ensures text { text.new ≡ text.old ++ settled_atoms symbols.now atoms.now }
    ensures of_table { All (IsOf symbols.now) text.new }
{
    for atom in atoms {
        text.push(settle(symbols, *atom));
    }
}

/// Says that the text is full, and nothing else.
fn refuse_text(out: &mut Sends)
    ensures { said_by out.new ≡ text_full }
{
    out.clear();
    out.note(Notice::TextFull);
}

fn set(text: &mut Text, atoms: &[Atom], symbols: &Symbols, out: &mut Sends)
    requires atoms { All (IsOf symbols.now) atoms.now }
    requires few { length atoms.now ≤ 1024 }
    ensures text { text.new ≡ settled_atoms symbols.now atoms.now }
    ensures said { said_by out.new ≡ silent }
    ensures small { IsText symbols.now text.new }
{
    text.clear();
    put_settled(text, atoms, symbols);
    out.say_nothing();
}

fn add(text: &mut Text, atoms: &[Atom], symbols: &Symbols, out: &mut Sends)
    requires atoms { All (IsOf symbols.now) atoms.now }
    requires few { length atoms.now ≤ 1024 }
    requires small { IsText symbols.now text.old }
    ensures edited { record { text = text.new; said = said_by out.new } ≡ grown text.old (settled_atoms symbols.now atoms.now ++ Semi ∷ []) }
    ensures small { IsText symbols.now text.new }
{
    if text.len() + atoms.len() + 1 > MOST {
        refuse_text(out);
    } else {
        put_settled(text, atoms, symbols);
        text.push(Atom::Semi);
        out.say_nothing();
    }
}

fn add_atoms(text: &mut Text, atoms: &[Atom], symbols: &Symbols, out: &mut Sends)
    requires atoms { All (IsOf symbols.now) atoms.now }
    requires few { length atoms.now ≤ 1024 }
    requires small { IsText symbols.now text.old }
    ensures edited { record { text = text.new; said = said_by out.new } ≡ grown text.old (settled_atoms symbols.now atoms.now) }
    ensures small { IsText symbols.now text.new }
{
    if text.len() + atoms.len() > MOST {
        refuse_text(out);
    } else {
        put_settled(text, atoms, symbols);
        out.say_nothing();
    }
}

fn add_mark(text: &mut Text, mark: Atom, symbols: &Symbols, out: &mut Sends)
    requires mark { IsOf symbols.now mark }
    requires small { IsText symbols.now text.old }
    ensures edited { record { text = text.new; said = said_by out.new } ≡ grown text.old (mark ∷ []) }
    ensures small { IsText symbols.now text.new }
{
    let _names = symbols;
    if text.len() + 1 > MOST {
        refuse_text(out);
    } else {
        text.push(mark);
        out.say_nothing();
    }
}

/// A message that edits the text.
pub(crate) fn edit(
    text: &mut Text,
    selector: Sym,
    atoms: &[Atom],
    symbols: &Symbols,
    out: &mut Sends,
)
    requires selector { selector < length symbols.now }
    requires atoms { All (IsOf symbols.now) atoms.now }
    requires few { length atoms.now ≤ 1024 }
    requires small { IsText symbols.now text.old }
    ensures edited { record { text = text.new; said = said_by out.new } ≡ edited symbols.now text.old selector atoms.now }
    ensures small { IsText symbols.now text.new }
{
    if is_called(symbols, selector, b"set") {
        set(text, atoms, symbols, out);
    } else if is_called(symbols, selector, b"add") {
        add(text, atoms, symbols, out);
    } else if is_called(symbols, selector, b"add2") {
        add_atoms(text, atoms, symbols, out);
    } else if is_called(symbols, selector, b"addcomma") {
        add_mark(text, Atom::Comma, symbols, out);
    } else if is_called(symbols, selector, b"addsemi") {
        add_mark(text, Atom::Semi, symbols, out);
    } else {
        out.refuse(Row::Message, selector);
    }
}
