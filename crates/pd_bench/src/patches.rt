//! Texts of patches for growth, made in memory.

ghost use Rattle.std.specs.Prelude.{◌<◌};

use std::alloc::{AllocError, Global};
use std::fmt::Write;

const CANVAS: &str = "#N canvas 0 50 450 300 12;\n";

/// How many boxes a patch may have.
const MOST_BOXES: u32 = 16_384;

/// How many wires it may have.
const MOST_WIRES: u32 = 65_536;

/// How many atoms a text may have.
const ATOMS: u32 = 1_024;

/// How many boxes a group has, those of its subpatch among them.
const GROUP: u32 = 10;

/// How many of them stand in the root canvas.
const OUTSIDE: u32 = 8;

/// What stands between the `receive` of a group and the `send` in its subpatch.
const MIDDLE: [&str; 8] = [
    "#X obj 10 30 f;",
    "#X obj 10 50 + 1;",
    "#X msg 10 70 \\$1 20;",
    "#X obj 10 90 osc~ 440;",
    "#X obj 10 110 *~ 0.1;",
    "#X obj 10 130 dac~;",
    "#N canvas 0 50 450 300 meter 0;",
    "#X obj 10 10 inlet;",
];

/// What stands behind that `send`.
const END: [&str; 2] = ["#X connect 0 0 1 0;", "#X restore 10 150 pd meter;"];

/// Wires between the boxes of a group in the root canvas, each from the first outlet: source, sink and inlet.
const JOINS: [(u32, u32, u32); 19] = [
    (0, 1, 0),
    (0, 2, 0),
    (0, 3, 0),
    (0, 7, 0),
    (1, 2, 0),
    (1, 3, 0),
    (1, 4, 0),
    (1, 7, 0),
    (2, 1, 1),
    (2, 3, 0),
    (2, 4, 0),
    (2, 5, 1),
    (2, 7, 0),
    (3, 4, 0),
    (3, 5, 1),
    (4, 5, 0),
    (4, 6, 0),
    (5, 6, 0),
    (5, 6, 1),
];

/// How many there are.
const EACH: u32 = JOINS.len() as u32;

/// How many boxes and wires a patch has.
#[derive(Clone, Copy)]
pub(crate) struct Size {
    pub(crate) boxes: u32,
    pub(crate) wires: u32,
}

impl Size {
    /// The nearest size that there is a patch of: a group at least, in which each subpatch has a wire, and no more than a
    /// document may have.
    pub(crate) fn nearest(boxes: u32, wires: u32) -> Size {
        let boxes = boxes.clamp(GROUP, MOST_BOXES);
        Size {
            boxes,
            wires: wires.clamp(boxes / GROUP, MOST_WIRES),
        }
    }

    /// How many groups there are.
    fn groups(self) -> u32
        ensures { 0 < result }
    {
        (self.boxes / GROUP).max(1)
    }
}

fn push_lines(text: &mut String, lines: &[&str]) -> Result<(), AllocError> {
    for line in lines {
        writeln!(text, "{line}")?;
    }
    Ok(())
}

/// The boxes of a group: it hears a name of its own, and its subpatch sends to the next one.
fn push_group(text: &mut String, group: u32) -> Result<(), AllocError> {
    let next = group.wrapping_add(1);
    writeln!(text, "#X obj 10 10 r \\$0-level-{group};")?;
    push_lines(text, &MIDDLE)?;
    writeln!(text, "#X obj 10 30 s \\$0-level-{next};")?;
    push_lines(text, &END)
}

/// The i-th wire from a group into it and, where all are taken, into the groups behind it.
fn push_wire(text: &mut String, group: u32, i: u32, groups: u32) -> Result<(), AllocError>
    requires { 0 < groups }
{
    let (source, sink, inlet) = JOINS[(i % EACH) as usize];
    let into = group.wrapping_add(i / EACH) % groups;
    let source = group.wrapping_mul(OUTSIDE).wrapping_add(source);
    let sink = into.wrapping_mul(OUTSIDE).wrapping_add(sink);
    writeln!(text, "#X connect {source} 0 {sink} {inlet};")
}

/// A patch of groups with subpatches, and of single `f` where no group is left to be made.
pub(crate) fn groups(alloc: Global, size: Size) -> Result<String, AllocError> {
    let groups = size.groups();
    let mut text = String::from_str(alloc, CANVAS)?;
    for group in 0..groups {
        push_group(&mut text, group)?;
    }
    for _ in 0..size.boxes % GROUP {
        writeln!(text, "#X obj 10 10 f;")?;
    }
    let wires = size.wires.saturating_sub(groups);
    let each = wires.div_ceil(groups).max(1);
    for wire in 0..wires {
        push_wire(&mut text, wire / each, wire % each, groups)?;
    }
    Ok(text)
}

/// What the boxes of a patch are whose texts are as long as they may be.
#[derive(Clone, Copy)]
pub(crate) enum Filling {
    Messages,
    /// Each argument of a `pack` is an inlet.
    Packs,
}

impl Filling {
    pub(crate) fn of_word(word: &str) -> Option<Filling> {
        match word {
            "messages" => Some(Filling::Messages),
            "packs" => Some(Filling::Packs),
            _ => None,
        }
    }

    pub(crate) fn word(self) -> &'static str {
        match self {
            Filling::Messages => "messages",
            Filling::Packs => "packs",
        }
    }

    /// The record of a box up to the first atom of its text.
    fn head(self) -> &'static str {
        match self {
            Filling::Messages => "#X msg 10 40 1",
            Filling::Packs => "#X obj 10 40 pack",
        }
    }
}

fn push_filled(text: &mut String, filling: Filling) -> Result<(), AllocError> {
    text.push_str(filling.head())?;
    for _ in 1..ATOMS {
        text.push_str(" 1")?;
    }
    text.push_str(";\n")
}

/// A patch of a table with all values that there may be, and of boxes whose texts are as long as they may be.
pub(crate) fn full(alloc: Global, filling: Filling, size: Size) -> Result<String, AllocError> {
    let filled = size.boxes.saturating_sub(1).max(1);
    let each = size.wires.div_ceil(filled).max(1);
    let mut text = String::from_str(alloc, CANVAS)?;
    text.push_str("#X obj 10 10 table wave 16777216;\n")?;
    for _ in 0..filled {
        push_filled(&mut text, filling)?;
    }
    for wire in 0..size.wires {
        let source = wire / each;
        let sink = source.wrapping_add(wire % each) % filled + 1;
        writeln!(text, "#X connect {} 0 {sink} 0;", source.wrapping_add(1))?;
    }
    Ok(text)
}
