//! What an edit takes of the layers, call by call. Each part is a module whose `run` prints a line for each figure.
//!
//! Boxes that come into a canvas, leave it or change in it, and wires of a running patch as a whole, are to be parts
//! beside these.

use crate::voices::Shape;
use crate::{lines, orders};
use anyhow::Result;
use pd_measure::Measures;

pub(crate) fn run<R: Measures>(rt: &R, shape: Shape, boxes: u32) -> Result<()> {
    let size = format!(in rt.alloc(); "edit: {boxes} boxes {}", shape.word())?;
    lines::run(rt, shape, boxes, size.as_str())?;
    orders::run(rt, shape, boxes, size.as_str())
}
