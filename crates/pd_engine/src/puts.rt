//! What follows from an edit that put a box with all that lies in it: its lines, and the boxes that are loaded behind it.

ghost use Rattle.std.specs.Prelude.{◌≡◌, drop, OnOk, OnErr};
ghost use Rattle.slab.specs.Slab.{get};
ghost use Rattle.pd_io.specs.Stream.{grown, TookPart};
ghost use Rattle.pd_say.specs.Gathering.{Says, Fails, HasCause};
ghost use Rattle.pd_grove.specs.Telling.{inner_in};
ghost use Rattle.pd_patch.specs.Report.{loads_among};
ghost use Rattle.pd_stage.specs.PassedOn.{keys_within};
ghost use Rattle.pd_stage.specs.Lines as texts;
ghost use Rattle.pd_engine.specs.Remarks.{loops_held, part_text, unfit_if, unfits_held, unfits_in, wires_text};

use crate::ports::canvas_of_port;
use crate::remarks::{say_loop, say_unfit, say_unmade};
use crate::room::BoxNumbers;
use pd_atom::Symbols;
use pd_canvas::Wire;
use pd_grove::Grove;
use pd_io::{Sink, SinkFailed};
use pd_patch::{Patch, is_load_box};
use pd_say::{Held, flush};
use pd_stage::NewBox;

/// Prints why boxes could not be made of a box that came and all that lies in it, which wires in it don't fit, and the loops: that of the canvas
/// around where it is a port of the box that lies in that, that of its canvas, and those of the canvases in it.
pub(crate) fn print_put<L: Sink>(
    patch: &Patch,
    put: &NewBox,
    numbers: &mut BoxNumbers,
    symbols: &Symbols,
    held: &mut Held,
    lines: &mut L,
) -> Result<(), SinkFailed>
    requires part { put.now.part.items ≡ keys_within patch.now put.now.key }
    ensures ok { OnOk result (L.taken lines.new ≡ grown (L.taken lines.old) (texts.put_text symbols.now patch.now put.now.key put.now.canvas)) }
    ensures err { OnErr result (TookPart (L.taken lines.old) (L.taken lines.new) (texts.put_text symbols.now patch.now put.now.key put.now.canvas)) }
    ensures cause { HasCause (L.faults lines.old) (L.faults lines.new) result }
{
    held.clear();
    say_put(patch, put, numbers, symbols, held, lines)?;
    flush(held, lines)
}

fn say_put<L: Sink>(
    patch: &Patch,
    put: &NewBox,
    numbers: &mut BoxNumbers,
    symbols: &Symbols,
    held: &mut Held,
    lines: &mut L,
) -> Result<(), SinkFailed>
    ensures ok { OnOk result (Says (L.taken lines.old) held.old.items (L.taken lines.new) held.new.items (part_text symbols.now patch.now put.now.key put.now.canvas put.now.part.items)) }
    ensures err { OnErr result (Fails (L.taken lines.old) held.old.items (L.taken lines.new) (part_text symbols.now patch.now put.now.key put.now.canvas put.now.part.items)) }
    ensures cause { HasCause (L.faults lines.old) (L.faults lines.new) result }
{
    let part = put.part.as_slice();
    let around = canvas_of_port(patch, put.key, put.canvas);
    say_unmades(patch, part, symbols, held, lines)?;
    say_unfits(patch, part, symbols, held, lines)?;
    say_loop_if(patch, around, numbers, symbols, held, lines)?;
    say_loop_if(patch, Some(put.canvas), numbers, symbols, held, lines)?;
    say_loops(patch, part, numbers, symbols, held, lines)
}

/// Says why boxes could not be made, in their order.
fn say_unmades<L: Sink>(
    patch: &Patch,
    boxes: &[u32],
    symbols: &Symbols,
    held: &mut Held,
    lines: &mut L,
) -> Result<(), SinkFailed>
    ensures ok { OnOk result (Says (L.taken lines.old) held.old.items (L.taken lines.new) held.new.items (texts.unmades_text symbols.now patch.now boxes.now)) }
    ensures err { OnErr result (Fails (L.taken lines.old) held.old.items (L.taken lines.new) (texts.unmades_text symbols.now patch.now boxes.now)) }
    ensures cause { HasCause (L.faults lines.old) (L.faults lines.new) result }
{
    for key in boxes {
        say_unmade(patch, *key, symbols, held, lines)?;
    }
    Ok(())
}

/// Says which wires don't fit in the canvases that boxes hold, in the order of the boxes.
fn say_unfits<L: Sink>(
    patch: &Patch,
    boxes: &[u32],
    symbols: &Symbols,
    held: &mut Held,
    lines: &mut L,
) -> Result<(), SinkFailed>
    ensures ok { OnOk result (Says (L.taken lines.old) held.old.items (L.taken lines.new) held.new.items (unfits_held patch.now boxes.now)) }
    ensures err { OnErr result (Fails (L.taken lines.old) held.old.items (L.taken lines.new) (unfits_held patch.now boxes.now)) }
    ensures cause { HasCause (L.faults lines.old) (L.faults lines.new) result }
{
    for key in boxes {
        say_unfits_in(patch, patch.grove.canvas_in(*key), symbols, held, lines)?;
    }
    Ok(())
}

/// Says which wires of a canvas don't fit, if there is one.
fn say_unfits_in<L: Sink>(
    patch: &Patch,
    canvas: Option<u32>,
    symbols: &Symbols,
    held: &mut Held,
    lines: &mut L,
) -> Result<(), SinkFailed>
    ensures ok { OnOk result (Says (L.taken lines.old) held.old.items (L.taken lines.new) held.new.items (unfits_in patch.now canvas)) }
    ensures err { OnErr result (Fails (L.taken lines.old) held.old.items (L.taken lines.new) (unfits_in patch.now canvas)) }
    ensures cause { HasCause (L.faults lines.old) (L.faults lines.new) result }
{
    let Some(canvas) = canvas else {
        return Ok(());
    };
    let Some(board) = patch.grove.board(canvas) else {
        return Ok(());
    };
    say_wires(
        patch,
        canvas,
        board.sheet.wires.as_slice(),
        symbols,
        held,
        lines,
    )
}

/// Says which of these wires of a canvas don't fit.
fn say_wires<L: Sink>(
    patch: &Patch,
    canvas: u32,
    wires: &[Wire],
    symbols: &Symbols,
    held: &mut Held,
    lines: &mut L,
) -> Result<(), SinkFailed>
    ensures ok { OnOk result (Says (L.taken lines.old) held.old.items (L.taken lines.new) held.new.items (wires_text patch.now canvas wires.now)) }
    ensures err { OnErr result (Fails (L.taken lines.old) held.old.items (L.taken lines.new) (wires_text patch.now canvas wires.now)) }
    ensures cause { HasCause (L.faults lines.old) (L.faults lines.new) result }
{
    for wire in wires {
        say_wire(patch, canvas, *wire, symbols, held, lines)?;
    }
    Ok(())
}

/// Says that a wire doesn't fit, where it doesn't.
fn say_wire<L: Sink>(
    patch: &Patch,
    canvas: u32,
    wire: Wire,
    symbols: &Symbols,
    held: &mut Held,
    lines: &mut L,
) -> Result<(), SinkFailed>
    ensures ok { OnOk result (Says (L.taken lines.old) held.old.items (L.taken lines.new) held.new.items (unfit_if patch.now canvas wire)) }
    ensures err { OnErr result (Fails (L.taken lines.old) held.old.items (L.taken lines.new) (unfit_if patch.now canvas wire)) }
    ensures cause { HasCause (L.faults lines.old) (L.faults lines.new) result }
{
    if patch.web.fits(&patch.grove, canvas, &wire) {
        return Ok(());
    }
    say_unfit(patch, canvas, wire, symbols, held, lines)
}

/// Says the loops of the canvases that boxes hold, in the order of the boxes.
fn say_loops<L: Sink>(
    patch: &Patch,
    boxes: &[u32],
    numbers: &mut BoxNumbers,
    symbols: &Symbols,
    held: &mut Held,
    lines: &mut L,
) -> Result<(), SinkFailed>
    ensures ok { OnOk result (Says (L.taken lines.old) held.old.items (L.taken lines.new) held.new.items (loops_held patch.now boxes.now)) }
    ensures err { OnErr result (Fails (L.taken lines.old) held.old.items (L.taken lines.new) (loops_held patch.now boxes.now)) }
    ensures cause { HasCause (L.faults lines.old) (L.faults lines.new) result }
{
    for key in boxes {
        say_loop_if(
            patch,
            patch.grove.canvas_in(*key),
            numbers,
            symbols,
            held,
            lines,
        )?;
    }
    Ok(())
}

/// Says the loop of a canvas, if there is one and boxes feed one another in a loop in it.
fn say_loop_if<L: Sink>(
    patch: &Patch,
    canvas: Option<u32>,
    numbers: &mut BoxNumbers,
    symbols: &Symbols,
    held: &mut Held,
    lines: &mut L,
) -> Result<(), SinkFailed>
    ensures ok { OnOk result (Says (L.taken lines.old) held.old.items (L.taken lines.new) held.new.items (texts.loops_if patch.now canvas)) }
    ensures err { OnErr result (Fails (L.taken lines.old) held.old.items (L.taken lines.new) (texts.loops_if patch.now canvas)) }
    ensures cause { HasCause (L.faults lines.old) (L.faults lines.new) result }
{
    match canvas {
        Some(canvas) if patch.has_loop(canvas) => {
            say_loop(patch, canvas, numbers, symbols, held, lines)
        }
        _ => Ok(()),
    }
}

/// Leaves those of the boxes behind the first one that send when they are loaded. It takes no memory.
pub(crate) fn keep_loads(grove: &Grove, boxes: &mut Vec<u32>)
    ensures { boxes.new.items ≡ loads_among grove.now (drop 1 boxes.old.items) }
{
    if boxes.is_empty() {
        return;
    }
    boxes.remove(0);
    boxes.retain(|key| is_load_box(grove, *key));
}
