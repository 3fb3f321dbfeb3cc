//! Boxes that grow, each with what it holds.

ghost use Rattle.std.specs.Prelude.{◌≡◌, ◌≢◌, ◌+◌, ◌*◌, ◌≤◌, ◌<◌, length};
ghost use Rattle.std.specs.List.{AllByRecursion};
ghost use Rattle.pd_atom.specs.Names.{Extends};
ghost use Rattle.pd_canvas.specs.Pages.{Sub, elements_of, weight};
ghost use Rattle.pd_canvas.specs.Proper.{levels};
ghost use Rattle.pd_canvas.specs.Views.{entry_of, entries_of, shape_of, held};
ghost use Rattle.pd_growth.specs.Making.{Subpatch, File};
ghost use Rattle.pd_growth.specs.Growth.{box_grown, box_made, canvas_grown};
ghost use Rattle.pd_growth.specs.Growing.{stock, around_of, lib_of, making_of, MadeSuits, ScopeSuits, Grows, inside_grown, boxes_in_turn, box_with_text};
ghost use Rattle.pd_growth.specs.Suits.{TextSuits, PageSuits, EntrySuits, FilesSuit, RowSuits};

use crate::growing::Stop;
use crate::making::{Made, make};
use crate::rows::{push_holder, push_plain, sheet};
use crate::scope::{Scope, Setting};
use crate::supply::Supply;
use crate::texts::{arguments, bring_subpatch, names_inside, own_text};
use pd_atom::{Sym, Symbols};
use pd_canvas::{Atoms, Canvas, Element, Form};
use pd_tree::Row;

/// The boxes of a canvas.
#[tactic(auto, using(crate::proofs::SuitLemmas::few_boxes))]
pub(crate) fn elements(canvas: &Canvas) -> &[Element]
    ensures elements { entries_of result.now ≡ elements_of canvas.now }
    ensures few { length result.now ≤ weight canvas.now.boxes }
{
    canvas.boxes.as_slice()
}

/// Grows boxes one after the other.
#[cycle(growth)]
pub(crate) fn grow_boxes(
    setting: &Setting<'_>,
    scope: &Scope<'_>,
    left: u32,
    elements: &[Element],
    symbols: &mut Symbols,
    supply: &mut Supply,
    rows: &mut Vec<Row>,
) -> Result<(), Stop>
    requires scope { ScopeSuits symbols.old scope.now }
    requires files { FilesSuit symbols.old (lib_of setting.now) }
    requires boxes { AllByRecursion (EntrySuits symbols.old left) (entries_of elements.now) }
    requires rows { AllByRecursion (RowSuits symbols.old) rows.old.items }
    ensures grows { Grows (length elements.now) result rows.old.items rows.new.items (stock symbols.new supply.new) (boxes_in_turn (lib_of setting.now) setting.now.root.now left (around_of scope.now) (entries_of elements.now) (stock symbols.old supply.old)) }
    ensures extends { Extends symbols.old symbols.new }
{
    for element in elements {
        grow_box(setting, scope, left, element, symbols, supply, rows)?;
    }
    Ok(())
}

/// Grows a box.
#[cycle(growth)]
#[tactic(auto, using(crate::proofs::StepLemmas::growth_steps))]
pub(crate) fn grow_box(
    setting: &Setting<'_>,
    scope: &Scope<'_>,
    left: u32,
    element: &Element,
    symbols: &mut Symbols,
    supply: &mut Supply,
    rows: &mut Vec<Row>,
) -> Result<(), Stop>
    requires scope { ScopeSuits symbols.old scope.now }
    requires files { FilesSuit symbols.old (lib_of setting.now) }
    requires element { EntrySuits symbols.old left (entry_of element.now) }
    requires rows { AllByRecursion (RowSuits symbols.old) rows.old.items }
    ensures grows { Grows 1 result rows.old.items rows.new.items (stock symbols.new supply.new) (box_grown (lib_of setting.now) setting.now.root.now left (inside_grown (lib_of setting.now) setting.now.root.now left) (around_of scope.now) (entry_of element.now) (stock symbols.old supply.old)) }
    ensures extends { Extends symbols.old symbols.new }
{
    supply.count()?;
    let text = own_text(setting.alloc, scope, element, symbols)?;
    grow_form(setting, scope, left, element, text, symbols, supply, rows)
}

/// Grows a box whose text is expanded.
#[cycle(growth)]
#[tactic(auto, using(crate::proofs::StepLemmas::growth_steps))]
fn grow_form(
    setting: &Setting<'_>,
    scope: &Scope<'_>,
    left: u32,
    element: &Element,
    text: Atoms,
    symbols: &mut Symbols,
    supply: &mut Supply,
    rows: &mut Vec<Row>,
) -> Result<(), Stop>
    requires scope { ScopeSuits symbols.old scope.now }
    requires files { FilesSuit symbols.old (lib_of setting.now) }
    requires element { EntrySuits symbols.old left (entry_of element.now) }
    requires text { TextSuits symbols.old text }
    requires rows { AllByRecursion (RowSuits symbols.old) rows.old.items }
    ensures grows { Grows 1 result rows.old.items rows.new.items (stock symbols.new supply.new) (box_with_text (lib_of setting.now) setting.now.root.now left (around_of scope.now) (entry_of element.now) text (stock symbols.old supply.old)) }
    ensures extends { Extends symbols.old symbols.new }
{
    match &element.form {
        Form::Sub(canvas) => {
            let canvas = canvas.as_ref();
            grow_subpatch(
                setting, scope, left, element, canvas, text, symbols, supply, rows,
            )
        }
        _ => grow_other(setting, scope, left, element, text, symbols, supply, rows),
    }
}

/// Grows a subpatch.
#[cycle(growth)]
#[tactic(auto, using(crate::proofs::StepLemmas::growth_steps))]
fn grow_subpatch(
    setting: &Setting<'_>,
    scope: &Scope<'_>,
    left: u32,
    element: &Element,
    canvas: &Canvas,
    text: Atoms,
    symbols: &mut Symbols,
    supply: &mut Supply,
    rows: &mut Vec<Row>,
) -> Result<(), Stop>
    requires scope { ScopeSuits symbols.old scope.now }
    requires files { FilesSuit symbols.old (lib_of setting.now) }
    requires held { canvas.now ≡ held element.now.form }
    requires canvas { PageSuits symbols.old canvas.now }
    requires levels { levels canvas.now.boxes + 1 ≤ left }
    requires text { TextSuits symbols.old text }
    requires rows { AllByRecursion (RowSuits symbols.old) rows.old.items }
    ensures grows { Grows 1 result rows.old.items rows.new.items (stock symbols.new supply.new) (box_made (inside_grown (lib_of setting.now) setting.now.root.now left) (around_of scope.now) (entry_of element.now) text Subpatch (stock symbols.old supply.old)) }
    ensures extends { Extends symbols.old symbols.new }
{
    bring_subpatch(setting.alloc, scope.is_top, text.as_slice(), symbols)?;
    grow_canvas(
        setting, scope, left, element, canvas, text, symbols, supply, rows,
    )
}

/// Grows a box that isn't a subpatch.
#[cycle(growth)]
#[tactic(auto, using(crate::proofs::StepLemmas::growth_steps))]
fn grow_other(
    setting: &Setting<'_>,
    scope: &Scope<'_>,
    left: u32,
    element: &Element,
    text: Atoms,
    symbols: &mut Symbols,
    supply: &mut Supply,
    rows: &mut Vec<Row>,
) -> Result<(), Stop>
    requires scope { ScopeSuits symbols.old scope.now }
    requires files { FilesSuit symbols.old (lib_of setting.now) }
    requires form { shape_of element.now.form ≢ Sub }
    requires text { TextSuits symbols.old text }
    requires rows { AllByRecursion (RowSuits symbols.old) rows.old.items }
    ensures grows { Grows 1 result rows.old.items rows.new.items (stock symbols.new supply.new) (box_with_text (lib_of setting.now) setting.now.root.now left (around_of scope.now) (entry_of element.now) text (stock symbols.old supply.old)) }
    ensures extends { Extends symbols.old symbols.new }
{
    let made = make(
        setting,
        scope,
        left,
        &element.form,
        text.as_slice(),
        symbols,
    )?;
    grow_made(
        setting, scope, left, element, made, text, symbols, supply, rows,
    )
}

/// Grows a box by what it makes.
#[cycle(growth)]
#[tactic(auto, using(crate::proofs::StepLemmas::growth_steps))]
fn grow_made(
    setting: &Setting<'_>,
    scope: &Scope<'_>,
    left: u32,
    element: &Element,
    made: Made<'_>,
    text: Atoms,
    symbols: &mut Symbols,
    supply: &mut Supply,
    rows: &mut Vec<Row>,
) -> Result<(), Stop>
    requires scope { ScopeSuits symbols.old scope.now }
    requires files { FilesSuit symbols.old (lib_of setting.now) }
    requires made { MadeSuits symbols.old left made }
    requires text { TextSuits symbols.old text }
    requires rows { AllByRecursion (RowSuits symbols.old) rows.old.items }
    ensures grows { Grows 1 result rows.old.items rows.new.items (stock symbols.new supply.new) (box_made (inside_grown (lib_of setting.now) setting.now.root.now left) (around_of scope.now) (entry_of element.now) text (making_of made.entry) (stock symbols.old supply.old)) }
    ensures extends { Extends symbols.old symbols.new }
{
    match made {
        Made::Plain(kind, fault) => {
            push_plain(setting.alloc, element, text, kind, fault, rows)?;
            Ok(())
        }
        Made::File(name, canvas) => grow_file(
            setting, scope, left, element, name, canvas, text, symbols, supply, rows,
        ),
    }
}

/// Grows an abstraction.
#[cycle(growth)]
#[tactic(auto, using(crate::proofs::StepLemmas::growth_steps))]
fn grow_file(
    setting: &Setting<'_>,
    scope: &Scope<'_>,
    left: u32,
    element: &Element,
    name: Sym,
    canvas: &Canvas,
    text: Atoms,
    symbols: &mut Symbols,
    supply: &mut Supply,
    rows: &mut Vec<Row>,
) -> Result<(), Stop>
    requires scope { ScopeSuits symbols.old scope.now }
    requires files { FilesSuit symbols.old (lib_of setting.now) }
    requires name { name < length symbols.old }
    requires canvas { PageSuits symbols.old canvas.now }
    requires levels { levels canvas.now.boxes + 1 ≤ left }
    requires text { TextSuits symbols.old text }
    requires rows { AllByRecursion (RowSuits symbols.old) rows.old.items }
    ensures grows { Grows 1 result rows.old.items rows.new.items (stock symbols.new supply.new) (box_made (inside_grown (lib_of setting.now) setting.now.root.now left) (around_of scope.now) (entry_of element.now) text (File name canvas.now) (stock symbols.old supply.old)) }
    ensures extends { Extends symbols.old symbols.new }
{
    let zero = supply.number()?;
    let arguments = arguments(setting.alloc, text.as_slice())?;
    let inside = names_inside(setting.alloc, name, scope.inside)?;
    let around = Scope {
        zero,
        arguments: arguments.as_slice(),
        inside: inside.as_slice(),
        is_top: false,
    };
    grow_canvas(
        setting, &around, left, element, canvas, text, symbols, supply, rows,
    )
}

/// Grows a box that holds a canvas, and the boxes in it.
#[cycle(growth)]
#[tactic(auto, using(crate::proofs::StepLemmas::growth_steps))]
fn grow_canvas(
    setting: &Setting<'_>,
    scope: &Scope<'_>,
    left: u32,
    element: &Element,
    canvas: &Canvas,
    text: Atoms,
    symbols: &mut Symbols,
    supply: &mut Supply,
    rows: &mut Vec<Row>,
) -> Result<(), Stop>
    requires scope { ScopeSuits symbols.old scope.now }
    requires files { FilesSuit symbols.old (lib_of setting.now) }
    requires canvas { PageSuits symbols.old canvas.now }
    requires levels { levels canvas.now.boxes + 1 ≤ left }
    requires text { TextSuits symbols.old text }
    requires rows { AllByRecursion (RowSuits symbols.old) rows.old.items }
    ensures grows { Grows 1 result rows.old.items rows.new.items (stock symbols.new supply.new) (canvas_grown (inside_grown (lib_of setting.now) setting.now.root.now left) (around_of scope.now) canvas.now (entry_of element.now).head text (stock symbols.old supply.old)) }
    ensures extends { Extends symbols.old symbols.new }
{
    let sheet = sheet(setting.alloc, scope.zero, scope.arguments, canvas)?;
    let boxes = elements(canvas);
    let count = boxes.len() as u32;
    push_holder(setting.alloc, element, text, sheet, count, rows)?;
    grow_boxes(setting, scope, left - 1, boxes, symbols, supply, rows)
}
