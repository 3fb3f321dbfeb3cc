//! Patches of voices as texts: `osc~` into `*~`, and the voices of a canvas into one output.

use std::alloc::{AllocError, Global};
use std::fmt::Write;

const CANVAS: &str = "#N canvas 0 50 450 300 12;\n";

/// A voice's boxes.
const VOICE: &str = "#X obj 10 10 osc~ 440;\n#X obj 10 30 *~ 0.1;\n";

/// How many boxes a subpatch brings: the box that holds it, its `outlet~` and its voices.
pub(crate) const GROUP: u32 = 10;

/// How many voices a subpatch has.
const GROUP_VOICES: u32 = 4;

/// How the boxes of a patch lie.
#[derive(Clone, Copy, PartialEq, Eq)]
pub(crate) enum Shape {
    /// All in the root canvas, and all voices feed one `dac~`.
    Flat,
    /// In subpatches, and four voices feed the `outlet~` of each.
    Subpatches,
}

impl Shape {
    pub(crate) fn of_word(word: &str) -> Option<Shape> {
        match word {
            "flat" => Some(Shape::Flat),
            "subpatches" => Some(Shape::Subpatches),
            _ => None,
        }
    }

    pub(crate) fn word(self) -> &'static str {
        match self {
            Shape::Flat => "flat",
            Shape::Subpatches => "in subpatches",
        }
    }

    /// How many canvases with voices a patch of so many boxes has.
    pub(crate) fn canvases(self, boxes: u32) -> u32 {
        match self {
            Shape::Flat => 1,
            Shape::Subpatches => (boxes / GROUP).max(1),
        }
    }

    /// How many voices each of them has.
    pub(crate) fn voices(self, boxes: u32) -> u32 {
        match self {
            Shape::Flat => (boxes.saturating_sub(1) / 2).max(1),
            Shape::Subpatches => GROUP_VOICES,
        }
    }
}

fn push_boxes(text: &mut String, voices: u32) -> Result<(), AllocError> {
    for _ in 0..voices {
        text.push_str(VOICE)?;
    }
    Ok(())
}

/// The wires of voices, the output being the first box of their canvas.
fn push_wires(text: &mut String, voices: u32) -> Result<(), AllocError> {
    for voice in 0..voices {
        let source = voice.wrapping_mul(2).wrapping_add(1);
        let gain = source.wrapping_add(1);
        writeln!(text, "#X connect {source} 0 {gain} 0;")?;
        writeln!(text, "#X connect {gain} 0 0 0;")?;
    }
    Ok(())
}

fn push_voices(text: &mut String, voices: u32) -> Result<(), AllocError> {
    push_boxes(text, voices)?;
    push_wires(text, voices)
}

fn push_subpatches(text: &mut String, count: u32) -> Result<(), AllocError> {
    for _ in 0..count {
        text.push_str("#N canvas 0 50 450 300 voices 0;\n#X obj 10 10 outlet~;\n")?;
        push_voices(text, GROUP_VOICES)?;
        text.push_str("#X restore 10 150 pd voices;\n")?;
    }
    for number in 1..=count {
        writeln!(text, "#X connect {number} 0 0 0;")?;
    }
    Ok(())
}

/// A patch of about so many boxes.
pub(crate) fn patch(alloc: Global, shape: Shape, boxes: u32) -> Result<String, AllocError> {
    let mut text = String::from_str(alloc, CANVAS)?;
    text.push_str("#X obj 10 10 dac~;\n")?;
    match shape {
        Shape::Flat => push_voices(&mut text, shape.voices(boxes))?,
        Shape::Subpatches => push_subpatches(&mut text, shape.canvases(boxes))?,
    }
    Ok(text)
}
