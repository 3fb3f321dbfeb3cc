//! What a box of a document makes.

ghost use Rattle.std.specs.Prelude.{◌≡◌, ◌≢◌, ◌≤◌, ◌<◌, ◌||◌, ◌+◌, ℕ, bytes_eq, nat_lt, length, None, Ok, IfOk};
ghost use Rattle.std.specs.List.{All, list_any};
ghost use Rattle.std.specs.Option.{option_copied};
ghost use Rattle.pd_atom.specs.Names.{name_of};
ghost use Rattle.pd_canvas.specs.Pages.{Sub, boxed};
ghost use Rattle.pd_canvas.specs.Views.{shape_of, held, entry_of, entries_of};
ghost use Rattle.pd_canvas.specs.Proper.{levels, levels_of};
ghost use Rattle.pd_library.specs.Files.{answer_in};
ghost use Rattle.pd_growth.specs.Making.{Plain, has_slash as has_slash_in, nothing_made, unmade as making_of_fault, answer_made, abstraction_made, object_made, file_made, made as made_by};
ghost use Rattle.pd_growth.specs.Growing.{Tells, around_of, lib_of, making_of, ScopeSuits, NameSuits, MadeSuits};
ghost use Rattle.pd_growth.specs.Suits.{TextSuits, FilesSuit, AnswerSuits, PageSuits};
ghost use Rattle.pd_atom.specs.Names.{Names};
ghost use Rattle.pd_atom.specs.Atoms.{IsOf};
ghost use Rattle.pd_naming.specs.Naming.{named_by};
ghost use Rattle.pd_object.specs.declared.kinds.Kind.TheVariants as kind;
ghost use Rattle.pd_object.specs.declared.kinds.Glue.TheVariants as glue_of;
ghost use Rattle.pd_object.specs.Ports.{IsSmallKind};

use crate::growing::Stop;
use crate::scope::{Scope, Setting};
use pd_atom::{Atom, Sym, Symbols};
use pd_canvas::{Canvas, Element, Form, Nums};
use pd_kind::{Glue, Items, Kind, Named, kind_of};
use pd_library::Answer;
use pd_tree::Fault;
use std::alloc::{AllocError, Global};

/// What a box makes that holds no canvas of its own: an object or a box that isn't made, or the canvas of a file.
pub(crate) enum Made<'a> {
    Plain(Kind, Option<Fault>),
    File(Sym, &'a Canvas),
}

/// A box that isn't made.
fn unmade<'a>(fault: Fault) -> Made<'a>
    ensures exact { making_of result ≡ making_of_fault fault }
    ensures suits { (names : Names) (left : ℕ) → MadeSuits names left result }
{
    Made::Plain(Kind::Unmade, Some(fault))
}

/// Whether the name is one of the abstractions around.
fn is_among(name: &[u8], inside: &[Sym], symbols: &Symbols) -> bool
    requires { All (λ t. t < length symbols.now) inside.now }
    ensures { result ≡ list_any (λ t. bytes_eq name.now (name_of symbols.now t)) inside.now }
{
    for other in inside {
        if name == symbols.name(*other) {
            return true;
        }
    }
    false
}

/// Whether the name is that of an abstraction around, or the patch's own.
fn is_inside(name: &[u8], setting: &Setting<'_>, scope: &Scope<'_>, symbols: &Symbols) -> bool
    requires { ScopeSuits symbols.now scope.now }
    ensures { result ≡ (bytes_eq name.now setting.now.root.now || list_any (λ t. bytes_eq name.now (name_of symbols.now t)) scope.now.inside.now) }
{
    name == setting.root || is_among(name, scope.inside, symbols)
}

/// Whether a name has a slash.
fn has_slash(name: &[u8]) -> bool
    ensures { result ≡ has_slash_in name.now }
{
    name.iter().any(|byte| *byte == b'/')
}

/// Whether so many canvases can't lie in one another in the place of this one.
#[cycle(depth)]
fn is_deeper(canvas: &Canvas, left: u32) -> bool
    ensures { result ≡ nat_lt left (levels canvas.now.boxes + 1) }
{
    if left == 0 {
        return true;
    }
    let boxes = canvas.boxes.as_slice();
    are_deeper(boxes, left - 1)
}

#[cycle(depth)]
fn are_deeper(elements: &[Element], left: u32) -> bool
    ensures { result ≡ nat_lt left (levels (boxed (entries_of elements.now))) }
{
    for element in elements {
        if holds_deeper(&element.form, left) {
            return true;
        }
    }
    false
}

#[cycle(depth)]
fn holds_deeper(form: &Form, left: u32) -> bool
    ensures { result ≡ nat_lt left (levels_of (shape_of form.now) (levels (held form.now).boxes)) }
{
    match form {
        Form::Sub(canvas) => is_deeper(canvas.as_ref(), left),
        _ => false,
    }
}

/// What a file makes.
fn file<'a>(name: Sym, canvas: &'a Canvas, left: u32) -> Made<'a>
    ensures exact { making_of result ≡ file_made left name canvas.now }
    ensures suits { (names : Names) → name < length names → PageSuits names canvas.now → MadeSuits names left result }
{
    if is_deeper(canvas, left) {
        unmade(Fault::TooDeep)
    } else {
        Made::File(name, canvas)
    }
}

/// What an abstraction makes whose name may be a file's.
fn answer<'a>(name: Sym, answer: Option<&'a Answer>, left: u32) -> Result<Made<'a>, Stop>
    ensures exact { Tells making_of result (answer_made left name (option_copied answer.entry)) }
    ensures suits { (names : Names) → name < length names → AnswerSuits names (option_copied answer.entry) → IfOk result (λ m. MadeSuits names left m) }
{
    match answer {
        None => Err(Stop::Lacks(name)),
        Some(Answer::Absent) => Ok(unmade(Fault::Unknown)),
        Some(Answer::Bad { number }) => Ok(unmade(Fault::BadFile { number: *number })),
        Some(Answer::Found(doc)) => Ok(file(name, &doc.root, left)),
    }
}

/// What an abstraction makes.
fn abstraction<'a>(
    name: Sym,
    setting: &Setting<'a>,
    scope: &Scope<'_>,
    left: u32,
    symbols: &Symbols,
) -> Result<Made<'a>, Stop>
    requires name { name < length symbols.now }
    requires scope { ScopeSuits symbols.now scope.now }
    requires files { FilesSuit symbols.now (lib_of setting.now) }
    ensures exact { Tells making_of result (abstraction_made (lib_of setting.now) setting.now.root.now left (around_of scope.now) symbols.now name) }
    ensures suits { IfOk result (λ m. MadeSuits symbols.now left m) }
{
    let bytes = symbols.name(name);
    if is_inside(bytes, setting, scope, symbols) {
        return Ok(unmade(Fault::InsideItself));
    }
    if has_slash(bytes) {
        return Ok(unmade(Fault::Unknown));
    }
    answer(name, setting.files.answer(name), left)
}

/// What a text makes that names nothing.
fn nothing<'a>(text: &[Atom]) -> Made<'a>
    ensures exact { making_of result ≡ nothing_made text.now }
    ensures suits { (names : Names) (left : ℕ) → MadeSuits names left result }
{
    match text {
        [] => Made::Plain(Kind::Unmade, None),
        _ => unmade(Fault::Unknown),
    }
}

/// What a text makes by what it names.
fn named<'a>(
    named: Named,
    text: &[Atom],
    setting: &Setting<'a>,
    scope: &Scope<'_>,
    left: u32,
    symbols: &Symbols,
) -> Result<Made<'a>, Stop>
    requires name { NameSuits symbols.now named }
    requires scope { ScopeSuits symbols.now scope.now }
    requires files { FilesSuit symbols.now (lib_of setting.now) }
    ensures exact { Tells making_of result (object_made (lib_of setting.now) setting.now.root.now left (around_of scope.now) symbols.now text.now named) }
    ensures suits { IfOk result (λ m. MadeSuits symbols.now left m) }
{
    match named {
        Named::Kind(kind) => Ok(Made::Plain(kind, None)),
        Named::Abstraction(name) => abstraction(name, setting, scope, left, symbols),
        Named::Nothing => Ok(nothing(text)),
    }
}

/// What an object's text names.
#[tactic(auto, using(crate::proofs::NameLemmas::name_suits))]
fn name_of_text(alloc: Global, text: &[Atom], symbols: &Symbols) -> Result<Named, Stop>
    requires text { TextSuits symbols.now text.now }
    ensures value { Tells (λ n. n) result (Ok (named_by symbols.now text.now)) }
    ensures suits { IfOk result (λ n. NameSuits symbols.now n) }
{
    Ok(kind_of(alloc, text, symbols)?)
}

/// What an object makes.
fn object<'a>(
    setting: &Setting<'a>,
    scope: &Scope<'_>,
    left: u32,
    text: &[Atom],
    symbols: &Symbols,
) -> Result<Made<'a>, Stop>
    requires text { TextSuits symbols.now text.now }
    requires scope { ScopeSuits symbols.now scope.now }
    requires files { FilesSuit symbols.now (lib_of setting.now) }
    ensures exact { Tells making_of result (object_made (lib_of setting.now) setting.now.root.now left (around_of scope.now) symbols.now text.now (named_by symbols.now text.now)) }
    ensures suits { IfOk result (λ m. MadeSuits symbols.now left m) }
{
    let name = name_of_text(setting.alloc, text, symbols)?;
    named(name, text, setting, scope, left, symbols)
}

/// A message, number or symbol box, an array or a comment.
fn glue<'a>(glue: Glue) -> Made<'a>
    ensures { making_of result ≡ Plain (kind.Glue glue) None }
{
    Made::Plain(Kind::Glue(glue), None)
}

fn array(alloc: Global, text: &[Atom], values: &Nums) -> Result<Glue, AllocError>
    ensures { IfOk result (λ g. g ≡ glue_of.Array text.now values.now) }
{
    Ok(Glue::Array {
        text: Items::of(alloc, text)?,
        values: Items::of(alloc, values.as_slice())?,
    })
}

/// What a box that isn't a subpatch makes.
pub(crate) fn make<'a>(
    setting: &Setting<'a>,
    scope: &Scope<'_>,
    left: u32,
    form: &Form,
    text: &[Atom],
    symbols: &Symbols,
) -> Result<Made<'a>, Stop>
    requires form { shape_of form.now ≢ Sub }
    requires text { TextSuits symbols.now text.now }
    requires scope { ScopeSuits symbols.now scope.now }
    requires files { FilesSuit symbols.now (lib_of setting.now) }
    ensures exact { Tells making_of result (made_by (lib_of setting.now) setting.now.root.now left (around_of scope.now) symbols.now (shape_of form.now) text.now) }
    ensures suits { IfOk result (λ m. MadeSuits symbols.now left m) }
{
    let alloc = setting.alloc;
    match form {
        Form::Obj => object(setting, scope, left, text, symbols),
        Form::Msg => Ok(glue(Glue::Message {
            text: Items::of(alloc, text)?,
        })),
        Form::Comment => Ok(glue(Glue::Comment)),
        Form::FloatBox => Ok(glue(Glue::FloatBox {
            text: Items::of(alloc, text)?,
        })),
        Form::SymbolBox => Ok(glue(Glue::SymbolBox {
            text: Items::of(alloc, text)?,
        })),
        Form::Array(values) => Ok(glue(array(alloc, text, values)?)),
        Form::Sub(_) | Form::Other(_) => Ok(unmade(Fault::Unknown)),
    }
}
