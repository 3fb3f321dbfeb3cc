//! A subpatch that takes the text of what grew aside, and keeps what it holds.

ghost use Rattle.std.specs.Prelude.{◌≡◌, ◌≤◌, ◌∷◌, [], ℕ, List, true, false, length, Some, None, IfOk, IfErr, OnErr};
ghost use Rattle.slab.specs.Slab.{get, ContainsKey};
ghost use Rattle.pd_atom.specs.declared.Atom.{Atom};
ghost use Rattle.pd_atom.specs.Names.{Names};
ghost use Rattle.pd_canvas.specs.Pages.{Sub};
ghost use Rattle.pd_canvas.specs.Views.{entry_of, shape_of};
ghost use Rattle.pd_object.specs.declared.kinds.Kind.TheVariants.{Canvas};
ghost use Rattle.pd_tree.specs.Trees.{Trees, stands_in, stands_of, width};
ghost use Rattle.pd_grove.specs.declared.nodes.Node.{Node};
ghost use Rattle.pd_grove.specs.TextOrder.{is_sub};
ghost use Rattle.pd_web.specs.Changes.{wires_told, Meet};
ghost use Rattle.pd_wiring.specs.declared.refusals.EditRefusal.TheVariants.{NoMemory};
ghost use Rattle.pd_boxes.specs.Put.{CanPut};
ghost use Rattle.pd_boxes.specs.Room.{SameButRoom};
ghost use Rattle.pd_adding.specs.Adding.{IsAdded};
ghost use Rattle.pd_adding.specs.Coming.{own_zero};
ghost use Rattle.pd_adding.specs.Growing.{Added};
ghost use Rattle.pd_retyping.specs.Asking.{keeps_inside, settled_text};
ghost use Rattle.pd_retyping.specs.Retypes.{Becomes, with_wires};
ghost use Rattle.pd_retyping.specs.Becoming.{OffersText, GotText, HasGrown, IsBareSub, IsTaking, StaysAsItWas};

use crate::becoming::{become_grown, counts_left};
use crate::retyping::RetypedBox;
use pd_adding::Grown;
use pd_atom::Symbols;
use pd_canvas::Form;
use pd_clock::Time;
use pd_kind::Kind;
use pd_order::Steps;
use pd_patch::Patch;
use pd_renaming::{rename, reserve_name};
use pd_tree::{Fault, Row};
use pd_wiring::EditRefusal;
use std::alloc::Global;
use std::sync::ledger::Ledger;

/// Makes the box of a key what grew aside, where it can become that; a subpatch that `keeps` what it holds takes the text of what grew, where that is a
/// subpatch without boxes. `wires` is how many wires there are. Looks at signal wires are counted in `steps`.
///
/// # Errors
///
/// `NoDocument` where it can do neither; `NoMemory` where memory ran out, or where the name that the box would own has as many owners, its canvas as
/// many boxes in its order, or a box as many signal wires as can be counted.
pub(crate) fn become_or_take<L: Ledger>(
    alloc: Global,
    patch: &mut Patch,
    key: u32,
    keeps: bool,
    grown: Grown,
    wires: usize,
    now: Time,
    symbols: &mut Symbols,
    steps: &mut Steps<L>,
) -> Result<RetypedBox, EditRefusal>
    requires can { CanPut patch.old }
    requires meet { Meet patch.old.web }
    requires here { ContainsKey patch.old.grove.nodes key }
    requires grown { HasGrown grown symbols.old }
    requires counted { wires ≡ wires_told patch.old.web }
    requires sub { keeps ≡ true → (n : Node) → get patch.old.grove.nodes key ≡ Some n → is_sub (entry_of n.element).head.form ≡ true }
    ensures became { IfOk result (λ b. (names : Names) (text : List Atom) (n : Node) (a : Added) → get patch.old.grove.nodes key ≡ Some n → IsAdded grown a → a.known.names ≡ symbols.old →
        keeps ≡ keeps_inside (entry_of n.element) (settled_text names text) → Becomes patch.old patch.new names text now key n a b.gone.items steps.old steps.new) }
    ensures key { IfOk result (λ b. b.key ≡ key) }
    ensures canvas { IfOk result (λ b. b.canvas ≡ grown.canvas) }
    ensures counts { IfOk result (λ b. b.counts ≡ with_wires grown.counts (wires_told patch.new.web)) }
    ensures refused { IfErr result (λ why. (names : Names) (text : List Atom) (n : Node) (a : Added) → get patch.old.grove.nodes key ≡ Some n → IsAdded grown a →
        keeps ≡ keeps_inside (entry_of n.element) (settled_text names text) → StaysAsItWas names text patch.old patch.new key n a why) }
    ensures goes_on { CanPut patch.new }
    ensures meet { Meet patch.new.web }
    ensures fewer { wires_told patch.new.web ≤ wires_told patch.old.web }
    ensures as_many { OnErr result (wires_told patch.new.web ≡ wires_told patch.old.web) }
    ensures zero { own_zero patch.new ≡ own_zero patch.old }
    ensures table { symbols.new ≡ symbols.old }
    ensures no_looks { OnErr result (steps.new ≡ steps.old) }
{
    if gives_text(patch, key, keeps, &grown) {
        return take_text(alloc, patch, key, grown, wires, symbols);
    }
    become_grown(alloc, patch, key, grown, wires, now, symbols, steps)
}

/// Whether the box of a key keeps what it holds, and can take the text of what grew: that is a subpatch without boxes, and both could be made.
fn gives_text(patch: &Patch, key: u32, keeps: bool, grown: &Grown) -> bool
    ensures keeps { result ≡ true → keeps ≡ true }
    ensures yes { result ≡ true → (n : Node) (a : Added) → get patch.now.grove.nodes key ≡ Some n → IsAdded grown.now a → OffersText n a }
    ensures no { result ≡ false → keeps ≡ true → (n : Node) (a : Added) → get patch.now.grove.nodes key ≡ Some n → IsAdded grown.now a → OffersText n a → ⊥ }
{
    if !keeps {
        return false;
    }
    let Some(node) = patch.grove.node(key) else {
        return false;
    };
    if !is_whole(&node.kind, node.fault) {
        return false;
    }
    is_bare_sub(grown.rows.as_slice())
}

/// Whether a box of a kind holds a canvas, and could be made.
fn is_whole(kind: &Kind, fault: Option<Fault>) -> bool
    ensures canvas { result ≡ true → kind.now ≡ Canvas }
    ensures whole { result ≡ true → fault ≡ None }
    ensures no { result ≡ false → kind.now ≡ Canvas → fault ≡ None → ⊥ }
{
    if fault.is_some() {
        return false;
    }
    is_canvas(kind)
}

/// Whether the boxes of a kind hold canvases.
fn is_canvas(kind: &Kind) -> bool
    ensures yes { result ≡ true → kind.now ≡ Canvas }
    ensures no { result ≡ false → kind.now ≡ Canvas → ⊥ }
{
    matches!(kind, Kind::Canvas)
}

/// Whether a list is one subpatch without boxes, which could be made.
fn is_bare_sub(rows: &[Row]) -> bool
    ensures yes { result ≡ true → (t : Trees) → width t ≡ 1 → stands_in rows.now ≡ stands_of t → IsBareSub t }
    ensures no { result ≡ false → (t : Trees) → stands_in rows.now ≡ stands_of t → IsBareSub t → ⊥ }
{
    if rows.len() != 1 {
        return false;
    }
    let row = &rows[0];
    if !row.sheet.is_some() {
        return false;
    }
    if !is_subpatch(&row.element.form) {
        return false;
    }
    is_whole(&row.kind, row.fault)
}

/// Whether an element of a form is a subpatch.
fn is_subpatch(form: &Form) -> bool
    ensures yes { result ≡ true → shape_of form.now ≡ Sub }
    ensures no { result ≡ false → shape_of form.now ≡ Sub → ⊥ }
{
    matches!(form, Form::Sub(_))
}

/// Gives the subpatch of a key the text of what grew. `wires` is how many wires there are.
///
/// # Errors
///
/// `NoMemory` where memory ran out, or where the new name has as many owners as can be counted.
fn take_text(
    alloc: Global,
    patch: &mut Patch,
    key: u32,
    grown: Grown,
    wires: usize,
    symbols: &mut Symbols,
) -> Result<RetypedBox, EditRefusal>
    requires takes { IsTaking patch.old key grown }
    requires meet { Meet patch.old.web }
    requires counted { wires ≡ wires_told patch.old.web }
    ensures took { IfOk result (λ b. (n : Node) (a : Added) → get patch.old.grove.nodes key ≡ Some n → IsAdded grown a → OffersText n a → GotText patch.old patch.new symbols.old key n a) }
    ensures gone { IfOk result (λ b. b.gone.items ≡ []) }
    ensures key { IfOk result (λ b. b.key ≡ key) }
    ensures canvas { IfOk result (λ b. b.canvas ≡ grown.canvas) }
    ensures counts { IfOk result (λ b. b.counts ≡ with_wires grown.counts (wires_told patch.new.web)) }
    ensures refused { IfErr result (λ why. why ≡ NoMemory) }
    ensures room { OnErr result (SameButRoom patch.old patch.new) }
    ensures goes_on { CanPut patch.new }
    ensures meet { Meet patch.new.web }
    ensures as_many { wires_told patch.new.web ≡ wires_told patch.old.web }
    ensures zero { own_zero patch.new ≡ own_zero patch.old }
    ensures table { symbols.new ≡ symbols.old }
{
    let canvas = grown.canvas;
    let counts = counts_left(grown.counts, wires);
    let row = one_of(grown.rows);
    let Ok(room) = reserve_name(patch, key, row, symbols) else {
        return Err(EditRefusal::NoMemory);
    };
    rename(alloc, patch, room, symbols);
    Ok(RetypedBox {
        key,
        canvas,
        counts,
        gone: Vec::new(alloc),
    })
}

/// The one row of a list.
fn one_of(rows: Vec<Row>) -> Row
    requires one { length rows.items ≡ 1 }
    ensures { result ∷ [] ≡ rows.items }
{
    let mut rows = rows;
    match rows.pop() {
        Some(row) => row,
        None => unreachable!(),
    }
}
