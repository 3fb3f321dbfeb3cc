//! Laying the wires that fit.

ghost use Rattle.std.specs.Prelude.{◌≡◌, ◌∷◌, ◌++◌, ◌+◌, ◌<◌, ◌≤◌, [], ℕ, List, Err, length, OnOk};
ghost use Rattle.pd_wire.specs.Book.{live_wires};
ghost use Rattle.pd_web.specs.declared.lay.Unlaid.TheVariants.{TooManyWires};
ghost use Rattle.pd_web.specs.Sockets.{AreTied, Keeps};
ghost use Rattle.pd_web.specs.Lines.{Line, IsLaid, IsRoute, laid_lines, laid_at, seen_at, lines_at, all_lines};

use crate::ends::end_for;
use crate::joints::{Joint, join};
use crate::lay::Unlaid;
use crate::lines::{Line, line_of};
use crate::sockets::{Sockets, Spot, keys_end};
use pd_canvas::Wire;
use pd_grove::{Board, Grove};
use pd_wire::WireBook;
use std::alloc::AllocError;

/// Lays the wires that fit of all canvases, of which there may be so many.
pub(crate) fn lay_wires(
    sockets: &mut [Sockets],
    spots: &mut Vec<Spot>,
    book: &mut WireBook,
    grove: &Grove,
    most: u32,
) -> Result<(), Unlaid>
    requires tied { AreTied sockets.old spots.old.items book.old }
    requires told { (k : ℕ) → laid_at sockets.old k ≡ seen_at grove.now k }
    ensures tied { OnOk result (AreTied sockets.new spots.new.items book.new) }
    ensures keeps { OnOk result (Keeps sockets.old sockets.new) }
    ensures laid { IsLaid sockets.old book.old [] → OnOk result (IsLaid sockets.new book.new (all_lines grove.now)) }
    ensures counted { OnOk result (live_wires book.new ≡ live_wires book.old + length (all_lines grove.now)) }
    ensures few { OnOk result (length (all_lines grove.now) ≤ most) }
    ensures many { result ≡ Err TooManyWires → most < length (all_lines grove.now) }
{
    let mut left = most;
    let end = keys_end(grove.boards_end())?;
    for key in 0..end {
        lay_board(sockets, spots, book, grove, key as u32, &mut left)?;
    }
    Ok(())
}

/// Lays the wires of a canvas that fit.
fn lay_board(
    sockets: &mut [Sockets],
    spots: &mut Vec<Spot>,
    book: &mut WireBook,
    grove: &Grove,
    key: u32,
    left: &mut u32,
) -> Result<(), Unlaid>
    requires tied { AreTied sockets.old spots.old.items book.old }
    requires told { (k : ℕ) → laid_at sockets.old k ≡ seen_at grove.now k }
    ensures tied { OnOk result (AreTied sockets.new spots.new.items book.new) }
    ensures keeps { OnOk result (Keeps sockets.old sockets.new) }
    ensures laid { (ls : List Line) → IsLaid sockets.old book.old ls → OnOk result (IsLaid sockets.new book.new (ls ++ lines_at grove.now key)) }
    ensures counted { OnOk result (live_wires book.new ≡ live_wires book.old + length (lines_at grove.now key)) }
    ensures left { OnOk result (left.new + length (lines_at grove.now key) ≡ left.old) }
    ensures many { result ≡ Err TooManyWires → left.old < length (lines_at grove.now key) }
{
    match grove.board(key) {
        Some(board) => lay_all(
            sockets,
            spots,
            book,
            board.nodes.as_slice(),
            board.sheet.wires.as_slice(),
            left,
        ),
        None => Ok(()),
    }
}

/// Lays those wires that fit, in their order.
fn lay_all(
    sockets: &mut [Sockets],
    spots: &mut Vec<Spot>,
    book: &mut WireBook,
    keys: &[u32],
    wires: &[Wire],
    left: &mut u32,
) -> Result<(), Unlaid>
    requires { AreTied sockets.old spots.old.items book.old }
    ensures tied { OnOk result (AreTied sockets.new spots.new.items book.new) }
    ensures keeps { OnOk result (Keeps sockets.old sockets.new) }
    ensures laid { (ls : List Line) → IsLaid sockets.old book.old ls → OnOk result (IsLaid sockets.new book.new (ls ++ laid_lines sockets.old keys.now wires.now)) }
    ensures counted { OnOk result (live_wires book.new ≡ live_wires book.old + length (laid_lines sockets.old keys.now wires.now)) }
    ensures left { OnOk result (left.new + length (laid_lines sockets.old keys.now wires.now) ≡ left.old) }
    ensures many { result ≡ Err TooManyWires → left.old < length (laid_lines sockets.old keys.now wires.now) }
{
    for wire in wires {
        lay_one(sockets, spots, book, keys, wire, left)?;
    }
    Ok(())
}

/// Lays a wire where it fits.
fn lay_one(
    sockets: &mut [Sockets],
    spots: &mut Vec<Spot>,
    book: &mut WireBook,
    keys: &[u32],
    wire: &Wire,
    left: &mut u32,
) -> Result<(), Unlaid>
    requires { AreTied sockets.old spots.old.items book.old }
    ensures tied { OnOk result (AreTied sockets.new spots.new.items book.new) }
    ensures keeps { OnOk result (Keeps sockets.old sockets.new) }
    ensures laid { (ls : List Line) → IsLaid sockets.old book.old ls → OnOk result (IsLaid sockets.new book.new (ls ++ laid_lines sockets.old keys.now (wire.now ∷ []))) }
    ensures counted { OnOk result (live_wires book.new ≡ live_wires book.old + length (laid_lines sockets.old keys.now (wire.now ∷ []))) }
    ensures left { OnOk result (left.new + length (laid_lines sockets.old keys.now (wire.now ∷ [])) ≡ left.old) }
    ensures many { result ≡ Err TooManyWires → left.old < length (laid_lines sockets.old keys.now (wire.now ∷ [])) }
{
    match line_of(sockets, keys, wire) {
        Some(line) => join_counted(sockets, spots, book, line, left),
        None => Ok(()),
    }
}

/// A wire more, where one more may be.
fn join_counted(
    sockets: &mut [Sockets],
    spots: &mut Vec<Spot>,
    book: &mut WireBook,
    line: Line,
    left: &mut u32,
) -> Result<(), Unlaid>
    requires route { IsRoute sockets.old line }
    requires tied { AreTied sockets.old spots.old.items book.old }
    ensures tied { OnOk result (AreTied sockets.new spots.new.items book.new) }
    ensures keeps { OnOk result (Keeps sockets.old sockets.new) }
    ensures laid { (ls : List Line) → IsLaid sockets.old book.old ls → OnOk result (IsLaid sockets.new book.new (ls ++ line ∷ [])) }
    ensures counted { OnOk result (live_wires book.new ≡ live_wires book.old + 1) }
    ensures left { OnOk result (left.new + 1 ≡ left.old) }
    ensures many { result ≡ Err TooManyWires → left.old ≡ 0 }
{
    if *left == 0 {
        return Err(Unlaid::TooManyWires);
    }
    join_ports(sockets, spots, book, line)?;
    *left -= 1;
    Ok(())
}

/// A wire more between two ports, last at each of them.
fn join_ports(
    sockets: &mut [Sockets],
    spots: &mut Vec<Spot>,
    book: &mut WireBook,
    line: Line,
) -> Result<(), AllocError>
    requires route { IsRoute sockets.old line }
    requires tied { AreTied sockets.old spots.old.items book.old }
    ensures tied { OnOk result (AreTied sockets.new spots.new.items book.new) }
    ensures keeps { OnOk result (Keeps sockets.old sockets.new) }
    ensures laid { (ls : List Line) → IsLaid sockets.old book.old ls → OnOk result (IsLaid sockets.new book.new (ls ++ line ∷ [])) }
    ensures counted { OnOk result (live_wires book.new ≡ live_wires book.old + 1) }
{
    let source = end_for(sockets, spots, book, line.from())?;
    let sink = end_for(sockets, spots, book, line.to())?;
    join(book, &Joint { source, sink })
}
