//! The boxes of a running patch, as they grow out of a document.

use pd_canvas::{AtomRows, Atoms, Element, Wires};
use pd_kind::Kind;

/// Why a box could not be made.
#[derive(Clone, Copy, Debug, PartialEq, Eq)]
pub enum Fault {
    /// No object has the name, and no file.
    Unknown,
    /// The abstraction is one of those around, or the patch itself.
    InsideItself,
    /// The abstraction's file is refused at the record of this number, counted from 1, or is too long: then it is 0.
    BadFile { number: u32 },
    /// More than 256 canvases would lie in one another.
    TooDeep,
}

/// A running canvas but for its boxes: its `$0`, the arguments that its texts see, and the records of its document.
/// Its wires are those of the document, whether they fit or not.
#[derive(Debug, Drop)]
pub struct Sheet {
    pub zero: u32,
    pub arguments: Atoms,
    pub header: Atoms,
    pub kept: AtomRows,
    pub wires: Wires,
    pub coords: AtomRows,
}

/// A running box in a list in text order.
///
/// `element` is the box of the document, where a subpatch is without its canvas; `text` has its dollars replaced. A box
/// that holds a canvas has its sheet, and so many boxes of that canvas, with what they hold, come next in the list.
#[derive(Debug, Drop)]
pub struct Row {
    pub element: Element,
    pub text: Atoms,
    pub kind: Kind,
    pub fault: Option<Fault>,
    pub sheet: Option<Sheet>,
    pub boxes: u32,
}
