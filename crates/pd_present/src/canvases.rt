//! Canvases with all in them.

ghost use Rattle.std.specs.Prelude.{◌≡◌, IfOk, Some, map};
ghost use Rattle.slab.specs.Slab.{get};
ghost use Rattle.pd_canvas.specs.Pages.{empty_page};
ghost use Rattle.pd_canvas.specs.Views.{entries_of, entry_of};
ghost use Rattle.pd_present.specs.Presents.{entry_at, page_inside, page_on, page_within, present_entry, present_page};

use crate::boxes::{blank, element_now};
use crate::wires::wires_of;
use pd_canvas::{Atoms, Canvas, Doc, Element, Elements};
use pd_grove::{Board, Grove, Node};
use pd_web::Web;
use std::alloc::{AllocError, Global};

/// So many canvases may lie in one another, with the root.
const MOST_CANVASES: u32 = 257;

/// The document of a running patch as it stands: with the present texts of its message boxes, the values of its saved arrays and of
/// its toggles, and the wires that there are. `numbers` has the number of each box under its key.
///
/// # Errors
///
/// `AllocError` where memory ran out.
pub fn present(alloc: Global, grove: &Grove, web: &Web, numbers: &[u32]) -> Result<Doc, AllocError>
    ensures { IfOk result (λ doc. doc.root ≡ present_page grove.now web.now numbers.now) }
{
    let root = canvas_of(alloc, grove, web, numbers, grove.root(), MOST_CANVASES)?;
    Ok(Doc { root })
}

/// A box of a running patch as it stands, with what it holds: as the document has it that `present` gives. A key under which no box
/// is gives an empty comment.
///
/// # Errors
///
/// `AllocError` where memory ran out.
pub fn present_box(
    alloc: Global,
    grove: &Grove,
    web: &Web,
    numbers: &[u32],
    key: u32,
) -> Result<Element, AllocError>
    ensures { IfOk result (λ e. entry_of e ≡ present_entry grove.now web.now numbers.now key) }
{
    element_of(alloc, grove, web, numbers, key, MOST_CANVASES - 1)
}

fn empty_canvas(alloc: Global) -> Canvas
    ensures { result ≡ empty_page }
{
    Canvas::new(alloc, Atoms::new(alloc))
}

/// The canvas of a key with all in it.
#[cycle(present)]
fn canvas_of(
    alloc: Global,
    grove: &Grove,
    web: &Web,
    numbers: &[u32],
    canvas: u32,
    canvases: u32,
) -> Result<Canvas, AllocError>
    ensures { IfOk result (λ c. c ≡ page_within web.now numbers.now (get grove.now.nodes) (get grove.now.boards) canvases canvas) }
{
    if canvases == 0 {
        return Ok(empty_canvas(alloc));
    }
    match grove.board(canvas) {
        Some(board) => canvas_on(alloc, grove, web, numbers, board, canvases - 1),
        None => Ok(empty_canvas(alloc)),
    }
}

/// A canvas with all in it.
#[cycle(present)]
fn canvas_on(
    alloc: Global,
    grove: &Grove,
    web: &Web,
    numbers: &[u32],
    board: &Board,
    canvases: u32,
) -> Result<Canvas, AllocError>
    ensures { IfOk result (λ c. c ≡ page_on web.now numbers.now (get grove.now.nodes) (page_within web.now numbers.now (get grove.now.nodes) (get grove.now.boards) canvases) (Some board.now)) }
{
    let keys = board.nodes.as_slice();
    let elements = elements_of(alloc, grove, web, numbers, keys, canvases)?;
    Ok(Canvas {
        header: board.sheet.header.copy()?,
        kept: board.sheet.kept.copy()?,
        boxes: Elements::from_vec(elements),
        wires: wires_of(alloc, web, numbers, keys)?,
        coords: board.sheet.coords.copy()?,
    })
}

/// Boxes with all in them.
#[cycle(present)]
fn elements_of(
    alloc: Global,
    grove: &Grove,
    web: &Web,
    numbers: &[u32],
    keys: &[u32],
    canvases: u32,
) -> Result<Vec<Element>, AllocError>
    ensures { IfOk result (λ v. entries_of v.items ≡ map (λ k. entry_at (page_within web.now numbers.now (get grove.now.nodes) (get grove.now.boards) canvases) (get grove.now.nodes k)) keys.now) }
{
    let mut elements = Vec::with_capacity(alloc, keys.len())?;
    for key in keys {
        elements.push(element_of(alloc, grove, web, numbers, *key, canvases)?)?;
    }
    Ok(elements)
}

/// The box of a key with all in it.
#[cycle(present)]
fn element_of(
    alloc: Global,
    grove: &Grove,
    web: &Web,
    numbers: &[u32],
    key: u32,
    canvases: u32,
) -> Result<Element, AllocError>
    ensures { IfOk result (λ e. entry_of e ≡ entry_at (page_within web.now numbers.now (get grove.now.nodes) (get grove.now.boards) canvases) (get grove.now.nodes key)) }
{
    match grove.node(key) {
        Some(node) => element_in(alloc, grove, web, numbers, node, canvases),
        None => Ok(blank(alloc)),
    }
}

/// A box with all in it.
#[cycle(present)]
fn element_in(
    alloc: Global,
    grove: &Grove,
    web: &Web,
    numbers: &[u32],
    node: &Node,
    canvases: u32,
) -> Result<Element, AllocError>
    ensures { IfOk result (λ e. entry_of e ≡ entry_at (page_within web.now numbers.now (get grove.now.nodes) (get grove.now.boards) canvases) (Some node.now)) }
{
    let inner = inner_of(alloc, grove, web, numbers, node.inner, canvases)?;
    element_now(alloc, &node.element, node.state.as_ref(), inner)
}

/// The canvas in a box.
#[cycle(present)]
fn inner_of(
    alloc: Global,
    grove: &Grove,
    web: &Web,
    numbers: &[u32],
    inner: Option<u32>,
    canvases: u32,
) -> Result<Canvas, AllocError>
    ensures { IfOk result (λ c. c ≡ page_inside (page_within web.now numbers.now (get grove.now.nodes) (get grove.now.boards) canvases) inner) }
{
    match inner {
        Some(canvas) => canvas_of(alloc, grove, web, numbers, canvas, canvases),
        None => Ok(empty_canvas(alloc)),
    }
}
