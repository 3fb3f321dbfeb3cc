//! Reading a record as a command.

ghost use Rattle.std.specs.Prelude.{◌≡◌, ◌≤◌, length, option_map, IsTrue, IfNone, IfSome, Some};
ghost use Rattle.pd_script.specs.declared.room.CommandRoom.{CommandRoom};
ghost use Rattle.pd_lex.specs.Reading.{is_body};
ghost use Rattle.pd_atom.specs.Names.{Names, Extends};
ghost use Rattle.pd_script.specs.Options.{Gives};
ghost use Rattle.pd_script.specs.Tokens.{tokens_of, most_tokens, only as only_then};
ghost use Rattle.pd_script.specs.Tables.{DocumentOf, CommandOf, ScriptOf};
ghost use Rattle.pd_script.specs.Room.{IsWhole, IsWholeAfter, HasRest};
ghost use Rattle.pd_script.specs.Scripts.{word_of as word_of_token, send_of, edit_in as edit_of_document, edit_of, save_of, show_of, script_of, timed_of, command_of};

use crate::atoms::{are_plain, atoms, document, symbol};
use crate::changes::{is_word, read_change, verb_of};
use crate::commands::{Command, Script};
use crate::edits::{CommandEdit, CommandPlace};
use crate::fields::{milliseconds, path};
use crate::room::CommandRoom;
use crate::tokens::Tokens;
use pd_atom::{Sym, Symbols};
use pd_num::Num;

/// The word of a command.
#[derive(Clone, Copy, Debug, PartialEq, Eq)]
pub(crate) enum Word {
    Send,
    Edit,
    Save,
    Show,
    Undo,
    Redo,
    End,
}

#[tactic(auto, unfolding(crate::specs::Scripts::word_of))]
fn word_of(word: &[u8]) -> Option<Word>
    ensures { result ≡ word_of_token word.now }
{
    if is_word(word, b"send") {
        Some(Word::Send)
    } else if is_word(word, b"edit") {
        Some(Word::Edit)
    } else if is_word(word, b"save") {
        Some(Word::Save)
    } else if is_word(word, b"show") {
        Some(Word::Show)
    } else if is_word(word, b"undo") {
        Some(Word::Undo)
    } else if is_word(word, b"redo") {
        Some(Word::Redo)
    } else if is_word(word, b"end") {
        Some(Word::End)
    } else {
        None
    }
}

#[tactic(auto, using(crate::proofs::AtomLemmas::names_go_on), unfolding(crate::specs::Scripts::send_of))]
fn send(tokens: &mut Tokens<'_>, symbols: &mut Symbols, room: &mut CommandRoom) -> Option<Command>
    requires { IsWhole room.old }
    ensures exact { Gives (λ c. (c, symbols.new)) result (send_of symbols.old tokens.old) }
    ensures whole { IfNone result (IsWhole room.new) }
    ensures rest { IfSome result (λ c. HasRest c room.new) }
    ensures of_table { IfSome result (CommandOf symbols.new) }
    ensures extends { Extends symbols.old symbols.new }
{
    let name = symbol(tokens.next()?.as_slice(), symbols)?;
    atoms(tokens, symbols, &mut room.atoms)?;
    if !are_plain(room.atoms.as_slice()) {
        return None;
    }
    Some(Command::Send {
        name,
        atoms: room.take_atoms(),
    })
}

#[tactic(auto, using(crate::proofs::AtomLemmas::names_go_on), unfolding(crate::specs::Scripts::edit_in))]
fn edit_in(
    document: Option<Sym>,
    tokens: &mut Tokens<'_>,
    symbols: &mut Symbols,
    room: &mut CommandRoom,
) -> Option<Command>
    requires of_table { DocumentOf symbols.old document }
    requires whole { IsWhole room.old }
    ensures exact { Gives (λ c. (c, symbols.new)) result (edit_of_document document symbols.old tokens.old) }
    ensures whole { IfNone result (IsWhole room.new) }
    ensures rest { IfSome result (λ c. HasRest c room.new) }
    ensures of_table { IfSome result (CommandOf symbols.new) }
    ensures extends { Extends symbols.old symbols.new }
{
    let token = tokens.next()?;
    let verb = tokens.next()?;
    path(token.as_slice(), &mut room.path)?;
    let verb = verb_of(verb.as_slice())?;
    let change = read_change(verb, tokens, symbols, &mut room.atoms)?;
    let place = CommandPlace {
        document,
        path: room.take_path(),
    };
    let edit = CommandEdit::new(change, room.take_atoms());
    Some(Command::Edit { place, edit })
}

#[tactic(auto, unfolding(crate::specs::Scripts::edit_of))]
fn edit(tokens: &mut Tokens<'_>, symbols: &mut Symbols, room: &mut CommandRoom) -> Option<Command>
    requires { IsWhole room.old }
    ensures exact { Gives (λ c. (c, symbols.new)) result (edit_of symbols.old tokens.old) }
    ensures whole { IfNone result (IsWhole room.new) }
    ensures rest { IfSome result (λ c. HasRest c room.new) }
    ensures of_table { IfSome result (CommandOf symbols.new) }
    ensures extends { Extends symbols.old symbols.new }
{
    let token = tokens.next()?;
    let document = document(token.as_slice(), symbols)?;
    edit_in(document, tokens, symbols, room)
}

#[tactic(auto, unfolding(crate::specs::Scripts::save_of))]
fn save(tokens: &mut Tokens<'_>, symbols: &mut Symbols) -> Option<Command>
    ensures exact { Gives (λ c. (c, symbols.new)) result (save_of symbols.old tokens.old) }
    ensures rest { (room : CommandRoom) → IsWhole room → IfSome result (λ c. HasRest c room) }
    ensures of_table { IfSome result (CommandOf symbols.new) }
    ensures extends { Extends symbols.old symbols.new }
{
    let token = tokens.next()?;
    let document = document(token.as_slice(), symbols)?;
    if !tokens.is_empty() {
        return None;
    }
    Some(Command::Save { document })
}

#[tactic(auto, unfolding(crate::specs::Scripts::show_of))]
fn show(tokens: &mut Tokens<'_>, room: &mut CommandRoom) -> Option<Command>
    requires { IsWhole room.old }
    ensures exact { result ≡ show_of tokens.old }
    ensures rest { IfSome result (λ c. HasRest c room.new) }
    ensures of_table { (names : Names) → IfSome result (CommandOf names) }
    ensures whole { IfNone result (IsWhole room.new) }
{
    let token = tokens.next()?;
    path(token.as_slice(), &mut room.path)?;
    if !tokens.is_empty() {
        return None;
    }
    Some(Command::Show {
        path: room.take_path(),
    })
}

/// The script, where no token is left.
fn only(tokens: &Tokens<'_>, script: Script) -> Option<Script>
    ensures value { result ≡ only_then tokens.now script }
    ensures rest { (room : CommandRoom) → IsWhole room → IsWholeAfter (Some script) room → IsWholeAfter result room }
    ensures of_table { (names : Names) → ScriptOf names script → IfSome result (ScriptOf names) }
{
    if tokens.is_empty() {
        Some(script)
    } else {
        None
    }
}

/// What the tokens behind a word give.
#[tactic(auto, unfolding(crate::specs::Scripts::script_of))]
fn script(
    word: Word,
    tokens: &mut Tokens<'_>,
    symbols: &mut Symbols,
    room: &mut CommandRoom,
) -> Option<Script>
    requires { IsWhole room.old }
    ensures exact { Gives (λ s. (s, symbols.new)) result (script_of word symbols.old tokens.old) }
    ensures whole { IsWholeAfter result room.new }
    ensures of_table { IfSome result (ScriptOf symbols.new) }
    ensures extends { Extends symbols.old symbols.new }
{
    match word {
        Word::Send => Some(Script::Run(send(tokens, symbols, room)?)),
        Word::Edit => Some(Script::Run(edit(tokens, symbols, room)?)),
        Word::Save => Some(Script::Run(save(tokens, symbols)?)),
        Word::Show => Some(Script::Run(show(tokens, room)?)),
        Word::Undo => only(tokens, Script::Run(Command::Undo)),
        Word::Redo => only(tokens, Script::Run(Command::Redo)),
        Word::End => only(tokens, Script::End),
    }
}

/// The milliseconds and the command of a record. Where it is no command, the table may have more names.
#[tactic(auto, unfolding(crate::specs::Scripts::timed_of))]
fn timed(
    tokens: &mut Tokens<'_>,
    symbols: &mut Symbols,
    room: &mut CommandRoom,
) -> Option<(Num, Script)>
    requires { IsWhole room.old }
    ensures exact { Gives (λ r. (r.0, r.1, symbols.new)) result (timed_of symbols.old tokens.old) }
    ensures whole { IsWholeAfter (option_map (λ r. r.1) result) room.new }
    ensures of_table { IfSome result (λ r. ScriptOf symbols.new r.1) }
    ensures extends { Extends symbols.old symbols.new }
{
    let time = tokens.next()?;
    let word = tokens.next()?;
    let time = milliseconds(time.as_slice())?;
    let word = word_of(word.as_slice())?;
    let script = script(word, tokens, symbols, room)?;
    Some((time, script))
}

/// The milliseconds after the record before and the command of a record of the script, which stands without its
/// semicolon: none where it is no command, or where the table can't take its names.
///
/// The names that a command brings go last into the table, the receiver's or the document's before those of the atoms.
/// Where there is none, the table is as before. The command holds lists of the room until they are given back. No memory
/// is taken.
#[tactic(auto, unfolding(crate::specs::Scripts::command_of))]
pub fn read_command(
    bytes: &[u8],
    symbols: &mut Symbols,
    room: &mut CommandRoom,
) -> Option<(Num, Script)>
    requires whole { IsWhole room.old }
    requires body { IsTrue (is_body bytes.now) }
    requires short { length bytes.now ≤ most_tokens }
    ensures exact { Gives (λ r. (r.0, r.1, symbols.new)) result (command_of symbols.old (tokens_of bytes.now)) }
    ensures of_table { IfSome result (λ r. ScriptOf symbols.new r.1) }
    ensures refused { IfNone result (symbols.new ≡ symbols.old) }
    ensures whole { IsWholeAfter (option_map (λ r. r.1) result) room.new }
{
    let mut tokens = Tokens::new(bytes)?;
    let len = symbols.len();
    let read = timed(&mut tokens, symbols, room);
    if read.is_none() {
        symbols.cut_back(len);
    }
    read
}
