//! A document as a tree of canvases.

ghost use Rattle.std.specs.Option.{option_copied};
ghost use Rattle.pd_canvas.specs.Paths.{along, page_in, sub_page};
ghost use Rattle.std.specs.Prelude.{◌≡◌, ◌==◌, [], ◌∷◌, ◌++◌, length, OnOk, OnErr, slice_get, option_and_then};
ghost use Rattle.pd_canvas.specs.Pages.{page_with_header, elements_of};
ghost use Rattle.pd_canvas.specs.Views.{boxes_in, entries_of};

use crate::lists::{AtomRows, Atoms, Nums};
use crate::wires::Wires;
use pd_atom::Sym;
use pd_num::Num;
use std::alloc::{AllocError, Global};
use std::marker::Model;

/// A document: its root canvas.
#[derive(Debug, Drop)]
pub struct Doc {
    pub root: Canvas,
}

/// A canvas. Its boxes are numbered from 0 in their order.
#[cycle(canvas)]
#[derive(Debug, Drop)]
pub struct Canvas {
    pub header: Atoms,
    pub kept: AtomRows,
    pub boxes: Elements,
    pub wires: Wires,
    pub coords: AtomRows,
}

/// The boxes of a canvas.
#[cycle(canvas)]
#[derive(Debug, Drop)]
pub struct Elements {
    pub(crate) items: Vec<Element>,
}

/// A box of a canvas.
#[cycle(canvas)]
#[derive(Debug, Drop)]
pub struct Element {
    pub x: Num,
    pub y: Num,
    pub form: Form,
    pub text: Atoms,
    pub width: Option<Num>,
    pub tail: AtomRows,
}

/// What a box is.
#[cycle(canvas)]
#[derive(Debug, Drop)]
pub enum Form {
    Obj,
    Msg,
    Comment,
    FloatBox,
    SymbolBox,
    Sub(Box<Canvas>),
    Array(Nums),
    Other(Sym),
}

impl Model for Canvas {
    ghost use Rattle.pd_canvas.specs.Pages.{Page, page_weight};
    ghost use Rattle.pd_canvas.specs.Codes.{page_code};

    ghost Value = { Page };

    ghost coded = { page_code };

    ghost use Rattle.pd_canvas.specs.Views.{page_seen};

    ghost view = { page_seen };

    ghost size = { page_weight };

    ghost use Rattle.pd_canvas.specs.Falls.{boxes_fall};

    ghost size_decreases = { λ a h. boxes_fall a.boxes.items.items };
}

impl Canvas {
    /// A canvas without boxes, wires and further records.
    pub fn new(alloc: Global, header: Atoms) -> Canvas
        ensures { result ≡ page_with_header header }
    {
        Canvas {
            header,
            kept: AtomRows::new(alloc),
            boxes: Elements::new(alloc),
            wires: Wires::new(alloc),
            coords: AtomRows::new(alloc),
        }
    }

    /// How many boxes there are.
    pub fn box_count(&self) -> usize
        ensures { result ≡ length (elements_of self.now) }
    {
        self.boxes.len()
    }
}

impl Elements {
    pub fn new(alloc: Global) -> Elements
        ensures { boxes_in result ≡ [] }
    {
        Elements {
            items: Vec::new(alloc),
        }
    }

    pub fn from_vec(items: Vec<Element>) -> Elements
        ensures { boxes_in result ≡ items.items }
    {
        Elements { items }
    }

    pub fn into_vec(self) -> Vec<Element>
        ensures { result.items ≡ boxes_in self }
    {
        self.items
    }

    pub fn as_slice(&self) -> &[Element]
        ensures { result.now ≡ boxes_in self.now }
    {
        self.items.as_slice()
    }

    pub fn len(&self) -> usize
        ensures { result ≡ length (boxes_in self.now) }
    {
        self.items.len()
    }

    pub fn is_empty(&self) -> bool
        ensures { result ≡ (length (boxes_in self.now) == 0) }
    {
        self.items.is_empty()
    }

    /// Puts an element last.
    pub fn push(&mut self, element: Element) -> Result<(), AllocError>
        ensures ok { OnOk result (boxes_in self.new ≡ boxes_in self.old ++ element ∷ []) }
        ensures err { OnErr result (boxes_in self.new ≡ boxes_in self.old) }
    {
        self.items.push(element)?;
        Ok(())
    }

    /// The allocator that the list keeps.
    pub(crate) fn alloc(&self) -> Global {
        *self.items.allocator()
    }
}

/// The canvas that a path of box numbers leads to from another.
pub fn canvas_at<'a>(canvas: &'a Canvas, path: &[u32]) -> Option<&'a Canvas>
    ensures { option_copied result ≡ along path.now canvas.now }
{
    let mut here = canvas;
    for number in path {
        match inner_canvas(here, *number) {
            Some(inner) => here = inner,
            None => return None,
        }
    }
    Some(here)
}

fn inner_canvas(canvas: &Canvas, number: u32) -> Option<&Canvas>
    ensures { option_copied result ≡ page_in number canvas.now }
{
    inner_of(canvas.boxes.as_slice(), number)
}

fn inner_of(elements: &[Element], number: u32) -> Option<&Canvas>
    ensures { option_copied result ≡ option_and_then sub_page (slice_get (entries_of elements.now) number) }
{
    match elements.get(number as usize) {
        Some(element) => match &element.form {
            Form::Sub(inner) => Some(inner.as_ref()),
            _ => None,
        },
        None => None,
    }
}
