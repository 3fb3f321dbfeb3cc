//! What growth has to tell.

ghost use Rattle.std.specs.Prelude.{◌≡◌, ◌∷◌, ◌++◌, [], IfOk, OnOk};
ghost use Rattle.slab.specs.Slab.{get};
ghost use Rattle.pd_grove.specs.TextOrder.{keys_in_order};
ghost use Rattle.pd_patch.specs.Report.{notices_in, loads_among, canvases_by, canvases_inside, unmade_among, has_fault, unfit_among, unfit_in, unfit_wires, loops_among, loads, is_load, is_loadbang as is_loadbang_so, is_initial as is_initial_so};

use crate::patch::Patch;
use pd_canvas::Wire;
use pd_grove::Grove;
use pd_kind::{Glue, Kind, Panel};
use pd_web::Web;
use std::alloc::{AllocError, Global};

/// A line to print, as a value.
#[derive(Clone, Copy, Debug, PartialEq, Eq, Drop)]
pub enum Remark {
    /// A box that couldn't be made.
    NotMade { node: u32 },
    /// A wire of a canvas that doesn't fit.
    Unfit { canvas: u32, wire: Wire },
    /// A canvas in which boxes feed one another in a loop.
    Loop { canvas: u32 },
}

/// The lines to print, in their order, and the boxes that send when they are loaded, in text order.
#[derive(Debug, Drop)]
pub struct Report {
    pub notices: Vec<Remark>,
    pub fresh: Vec<u32>,
}

impl Report {
    /// Nothing to tell. It takes no memory.
    pub fn new(alloc: Global) -> Report {
        Report {
            notices: Vec::new(alloc),
            fresh: Vec::new(alloc),
        }
    }
}

/// What the growth of a whole patch has to tell: boxes that aren't made, wires that don't fit and signal loops, each in text order;
/// and its load boxes.
pub(crate) fn report_of(alloc: Global, patch: &Patch) -> Result<Report, AllocError>
    ensures notices { IfOk result (λ r. r.notices.items ≡ notices_in patch.now.grove patch.now.web patch.now.orders.items) }
    ensures fresh { IfOk result (λ r. r.fresh.items ≡ loads_among patch.now.grove (keys_in_order patch.now.grove)) }
{
    let boxes = patch.grove.in_text_order(alloc)?;
    let canvases = canvases_among(alloc, &patch.grove, boxes.as_slice())?;
    let mut notices = Vec::new(alloc);
    note_unmade(&patch.grove, boxes.as_slice(), &mut notices)?;
    note_unfit(&patch.web, &patch.grove, canvases.as_slice(), &mut notices)?;
    note_loops(patch, canvases.as_slice(), &mut notices)?;
    let fresh = load_boxes(alloc, &patch.grove, boxes.as_slice())?;
    Ok(Report { notices, fresh })
}

/// The root canvas and those that boxes hold, in the order of the boxes.
fn canvases_among(alloc: Global, grove: &Grove, boxes: &[u32]) -> Result<Vec<u32>, AllocError>
    ensures { IfOk result (λ canvases. canvases.items ≡ canvases_by grove.now boxes.now) }
{
    let mut canvases = Vec::new(alloc);
    canvases.push(grove.root())?;
    push_canvases(grove, boxes, &mut canvases)?;
    Ok(canvases)
}

/// Adds the canvases that boxes hold.
fn push_canvases(grove: &Grove, boxes: &[u32], canvases: &mut Vec<u32>) -> Result<(), AllocError>
    ensures { OnOk result (canvases.new.items ≡ canvases.old.items ++ canvases_inside grove.now boxes.now) }
{
    for key in boxes {
        push_canvas(grove, *key, canvases)?;
    }
    Ok(())
}

/// Adds the canvas that a box holds, where it holds one.
fn push_canvas(grove: &Grove, key: u32, canvases: &mut Vec<u32>) -> Result<(), AllocError>
    ensures { OnOk result (canvases.new.items ≡ canvases.old.items ++ canvases_inside grove.now (key ∷ [])) }
{
    match grove.canvas_in(key) {
        Some(canvas) => Ok(canvases.push(canvas)?),
        None => Ok(()),
    }
}

/// Notes the boxes that could not be made.
fn note_unmade(grove: &Grove, boxes: &[u32], notices: &mut Vec<Remark>) -> Result<(), AllocError>
    ensures { OnOk result (notices.new.items ≡ notices.old.items ++ unmade_among grove.now boxes.now) }
{
    for key in boxes {
        note_box(grove, *key, notices)?;
    }
    Ok(())
}

/// Notes a box, where it could not be made.
fn note_box(grove: &Grove, key: u32, notices: &mut Vec<Remark>) -> Result<(), AllocError>
    ensures { OnOk result (notices.new.items ≡ notices.old.items ++ unmade_among grove.now (key ∷ [])) }
{
    if is_unmade(grove, key) {
        notices.push(Remark::NotMade { node: key })?;
    }
    Ok(())
}

/// Whether a box could not be made.
fn is_unmade(grove: &Grove, key: u32) -> bool
    ensures { result ≡ has_fault (get grove.now.nodes key) }
{
    match grove.node(key) {
        Some(node) => node.fault.is_some(),
        None => false,
    }
}

/// Notes the wires of canvases that don't fit.
fn note_unfit(
    web: &Web,
    grove: &Grove,
    canvases: &[u32],
    notices: &mut Vec<Remark>,
) -> Result<(), AllocError>
    ensures { OnOk result (notices.new.items ≡ notices.old.items ++ unfit_among web.now grove.now canvases.now) }
{
    for canvas in canvases {
        note_unfit_in(web, grove, *canvas, notices)?;
    }
    Ok(())
}

/// Notes the wires of a canvas that don't fit.
fn note_unfit_in(
    web: &Web,
    grove: &Grove,
    canvas: u32,
    notices: &mut Vec<Remark>,
) -> Result<(), AllocError>
    ensures { OnOk result (notices.new.items ≡ notices.old.items ++ unfit_in web.now grove.now canvas) }
{
    match grove.board(canvas) {
        Some(board) => note_wires(web, grove, canvas, board.sheet.wires.as_slice(), notices),
        None => Ok(()),
    }
}

fn note_wires(
    web: &Web,
    grove: &Grove,
    canvas: u32,
    wires: &[Wire],
    notices: &mut Vec<Remark>,
) -> Result<(), AllocError>
    ensures { OnOk result (notices.new.items ≡ notices.old.items ++ unfit_wires web.now grove.now canvas wires.now) }
{
    for wire in wires {
        note_wire(web, grove, canvas, *wire, notices)?;
    }
    Ok(())
}

/// Notes a wire, where it doesn't fit.
fn note_wire(
    web: &Web,
    grove: &Grove,
    canvas: u32,
    wire: Wire,
    notices: &mut Vec<Remark>,
) -> Result<(), AllocError>
    ensures { OnOk result (notices.new.items ≡ notices.old.items ++ unfit_wires web.now grove.now canvas (wire ∷ [])) }
{
    if web.fits(grove, canvas, &wire) {
        return Ok(());
    }
    notices.push(Remark::Unfit { canvas, wire })?;
    Ok(())
}

/// Notes the canvases in which boxes feed one another in a loop.
fn note_loops(patch: &Patch, canvases: &[u32], notices: &mut Vec<Remark>) -> Result<(), AllocError>
    ensures { OnOk result (notices.new.items ≡ notices.old.items ++ loops_among patch.now.orders.items canvases.now) }
{
    for canvas in canvases {
        note_loop(patch, *canvas, notices)?;
    }
    Ok(())
}

/// Notes a canvas, where boxes feed one another in a loop in it.
fn note_loop(patch: &Patch, canvas: u32, notices: &mut Vec<Remark>) -> Result<(), AllocError>
    ensures { OnOk result (notices.new.items ≡ notices.old.items ++ loops_among patch.now.orders.items (canvas ∷ [])) }
{
    if patch.has_loop(canvas) {
        notices.push(Remark::Loop { canvas })?;
    }
    Ok(())
}

/// Those of the boxes that send when they are loaded.
fn load_boxes(alloc: Global, grove: &Grove, boxes: &[u32]) -> Result<Vec<u32>, AllocError>
    ensures { IfOk result (λ fresh. fresh.items ≡ loads_among grove.now boxes.now) }
{
    let mut fresh = Vec::new(alloc);
    for key in boxes {
        push_load_box(grove, *key, &mut fresh)?;
    }
    Ok(fresh)
}

/// Adds a box, where it sends when it is loaded.
fn push_load_box(grove: &Grove, key: u32, fresh: &mut Vec<u32>) -> Result<(), AllocError>
    ensures { OnOk result (fresh.new.items ≡ fresh.old.items ++ loads_among grove.now (key ∷ [])) }
{
    if is_load_box(grove, key) {
        fresh.push(key)?;
    }
    Ok(())
}

/// Whether a live box sends when it is loaded: a `loadbang`, or a `bng` or `tgl` whose init isn't 0.
pub fn is_load_box(grove: &Grove, key: u32) -> bool
    ensures { result ≡ loads (get grove.now.nodes key) }
{
    match grove.node(key) {
        Some(node) => is_load_kind(&node.kind),
        None => false,
    }
}

fn is_load_kind(kind: &Kind) -> bool
    ensures { result ≡ is_load kind.now }
{
    match kind {
        Kind::Glue(glue) => is_loadbang(glue),
        Kind::Panel(panel) => is_initial(panel),
        _ => false,
    }
}

fn is_loadbang(glue: &Glue) -> bool
    ensures { result ≡ is_loadbang_so glue.now }
{
    matches!(glue, Glue::Loadbang)
}

fn is_initial(panel: &Panel) -> bool
    ensures { result ≡ is_initial_so panel.now }
{
    match panel {
        Panel::Bng(button) => button.init.micros() != 0,
        Panel::Tgl(toggle) => toggle.init.micros() != 0,
    }
}
