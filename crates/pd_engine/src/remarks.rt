//! The lines of growth, of wires that went, and of loops.

ghost use Rattle.std.specs.Prelude.{◌≡◌, ◌≤◌, OnOk, OnErr};
ghost use Rattle.slab.specs.Slab.{get};
ghost use Rattle.pd_io.specs.Stream.{grown, TookPart};
ghost use Rattle.pd_say.specs.Gathering.{Says, Fails, HasCause};
ghost use Rattle.pd_patch.specs.Telling.{fault_in};
ghost use Rattle.pd_patch.specs.Values.{stuck_in};
ghost use Rattle.pd_hearing.specs.Worlds.{net_of};
ghost use Rattle.pd_stage.specs.Lines as texts;
ghost use Rattle.pd_engine.specs.Remarks.{remark_text, remarks_text};

use crate::room::BoxNumbers;
use crate::showing::fill_numbers;
use pd_atom::{Atom, Symbols};
use pd_canvas::Wire;
use pd_io::{Sink, SinkFailed};
use pd_misfits::BoxWire;
use pd_patch::{Patch, Remark};
use pd_say::{CanvasPath, Ends, Held, Line, flush, say};
use pd_tree::Fault;

/// Prints the lines of growth, in order.
pub(crate) fn print_remarks<L: Sink>(
    patch: &Patch,
    remarks: &[Remark],
    numbers: &mut BoxNumbers,
    symbols: &Symbols,
    held: &mut Held,
    lines: &mut L,
) -> Result<(), SinkFailed>
    ensures ok { OnOk result (L.taken lines.new ≡ grown (L.taken lines.old) (remarks_text symbols.now patch.now remarks.now)) }
    ensures err { OnErr result (TookPart (L.taken lines.old) (L.taken lines.new) (remarks_text symbols.now patch.now remarks.now)) }
    ensures cause { HasCause (L.faults lines.old) (L.faults lines.new) result }
{
    held.clear();
    say_remarks(patch, remarks, numbers, symbols, held, lines)?;
    flush(held, lines)
}

/// Prints why a box could not be made, where it could not.
pub(crate) fn print_unmade<L: Sink>(
    patch: &Patch,
    node: u32,
    symbols: &Symbols,
    held: &mut Held,
    lines: &mut L,
) -> Result<(), SinkFailed>
    ensures ok { OnOk result (L.taken lines.new ≡ grown (L.taken lines.old) (texts.unmade_text symbols.now (fault_in (get patch.now.grove.nodes node)))) }
    ensures err { OnErr result (TookPart (L.taken lines.old) (L.taken lines.new) (texts.unmade_text symbols.now (fault_in (get patch.now.grove.nodes node)))) }
    ensures cause { HasCause (L.faults lines.old) (L.faults lines.new) result }
{
    held.clear();
    say_unmade(patch, node, symbols, held, lines)?;
    flush(held, lines)
}

/// Prints which boxes of a canvas feed one another in a loop, where some do.
pub(crate) fn print_loop<L: Sink>(
    patch: &Patch,
    canvas: u32,
    numbers: &mut BoxNumbers,
    symbols: &Symbols,
    held: &mut Held,
    lines: &mut L,
) -> Result<(), SinkFailed>
    ensures ok { OnOk result (L.taken lines.new ≡ grown (L.taken lines.old) (texts.loops_text patch.now canvas)) }
    ensures err { OnErr result (TookPart (L.taken lines.old) (L.taken lines.new) (texts.loops_text patch.now canvas)) }
    ensures cause { HasCause (L.faults lines.old) (L.faults lines.new) result }
{
    if !patch.has_loop(canvas) {
        return Ok(());
    }
    held.clear();
    say_loop(patch, canvas, numbers, symbols, held, lines)?;
    flush(held, lines)
}

/// Prints which wires of a canvas don't fit any more and went, in order.
pub(crate) fn print_gone<L: Sink>(
    patch: &Patch,
    canvas: u32,
    gone: &[BoxWire],
    symbols: &Symbols,
    held: &mut Held,
    lines: &mut L,
) -> Result<(), SinkFailed>
    ensures ok { OnOk result (L.taken lines.new ≡ grown (L.taken lines.old) (texts.gone_text (texts.path_in patch.now canvas) gone.now)) }
    ensures err { OnErr result (TookPart (L.taken lines.old) (L.taken lines.new) (texts.gone_text (texts.path_in patch.now canvas) gone.now)) }
    ensures cause { HasCause (L.faults lines.old) (L.faults lines.new) result }
{
    held.clear();
    say_gone(patch, canvas, gone, symbols, held, lines)?;
    flush(held, lines)
}

/// Prints which wires of the canvas around went, where one lies around.
pub(crate) fn print_gone_around<L: Sink>(
    patch: &Patch,
    around: Option<u32>,
    gone: &[BoxWire],
    symbols: &Symbols,
    held: &mut Held,
    lines: &mut L,
) -> Result<(), SinkFailed>
    ensures ok { OnOk result (L.taken lines.new ≡ grown (L.taken lines.old) (texts.gone_around patch.now around gone.now)) }
    ensures err { OnErr result (TookPart (L.taken lines.old) (L.taken lines.new) (texts.gone_around patch.now around gone.now)) }
    ensures cause { HasCause (L.faults lines.old) (L.faults lines.new) result }
{
    match around {
        Some(canvas) => print_gone(patch, canvas, gone, symbols, held, lines),
        None => Ok(()),
    }
}

/// Prints the loop of the canvas around, where one lies around and has one.
pub(crate) fn print_loop_around<L: Sink>(
    patch: &Patch,
    around: Option<u32>,
    numbers: &mut BoxNumbers,
    symbols: &Symbols,
    held: &mut Held,
    lines: &mut L,
) -> Result<(), SinkFailed>
    ensures ok { OnOk result (L.taken lines.new ≡ grown (L.taken lines.old) (texts.loops_if patch.now around)) }
    ensures err { OnErr result (TookPart (L.taken lines.old) (L.taken lines.new) (texts.loops_if patch.now around)) }
    ensures cause { HasCause (L.faults lines.old) (L.faults lines.new) result }
{
    match around {
        Some(canvas) => print_loop(patch, canvas, numbers, symbols, held, lines),
        None => Ok(()),
    }
}

/// Says the lines of growth, in order.
fn say_remarks<L: Sink>(
    patch: &Patch,
    remarks: &[Remark],
    numbers: &mut BoxNumbers,
    symbols: &Symbols,
    held: &mut Held,
    lines: &mut L,
) -> Result<(), SinkFailed>
    ensures ok { OnOk result (Says (L.taken lines.old) held.old.items (L.taken lines.new) held.new.items (remarks_text symbols.now patch.now remarks.now)) }
    ensures err { OnErr result (Fails (L.taken lines.old) held.old.items (L.taken lines.new) (remarks_text symbols.now patch.now remarks.now)) }
    ensures cause { HasCause (L.faults lines.old) (L.faults lines.new) result }
{
    for remark in remarks {
        say_remark(patch, remark, numbers, symbols, held, lines)?;
    }
    Ok(())
}

#[tactic(auto, unfolding(crate::specs::Remarks::remark_text))]
fn say_remark<L: Sink>(
    patch: &Patch,
    remark: &Remark,
    numbers: &mut BoxNumbers,
    symbols: &Symbols,
    held: &mut Held,
    lines: &mut L,
) -> Result<(), SinkFailed>
    ensures ok { OnOk result (Says (L.taken lines.old) held.old.items (L.taken lines.new) held.new.items (remark_text symbols.now patch.now remark.now)) }
    ensures err { OnErr result (Fails (L.taken lines.old) held.old.items (L.taken lines.new) (remark_text symbols.now patch.now remark.now)) }
    ensures cause { HasCause (L.faults lines.old) (L.faults lines.new) result }
{
    match remark {
        Remark::NotMade { node } => say_unmade(patch, *node, symbols, held, lines),
        Remark::Unfit { canvas, wire } => say_unfit(patch, *canvas, *wire, symbols, held, lines),
        Remark::Loop { canvas } => say_loop(patch, *canvas, numbers, symbols, held, lines),
    }
}

/// Says why a box could not be made. A box without text has no line.
pub(crate) fn say_unmade<L: Sink>(
    patch: &Patch,
    node: u32,
    symbols: &Symbols,
    held: &mut Held,
    lines: &mut L,
) -> Result<(), SinkFailed>
    ensures ok { OnOk result (Says (L.taken lines.old) held.old.items (L.taken lines.new) held.new.items (texts.unmade_text symbols.now (fault_in (get patch.now.grove.nodes node)))) }
    ensures err { OnErr result (Fails (L.taken lines.old) held.old.items (L.taken lines.new) (texts.unmade_text symbols.now (fault_in (get patch.now.grove.nodes node)))) }
    ensures cause { HasCause (L.faults lines.old) (L.faults lines.new) result }
{
    match patch.fault_at(node) {
        Some((fault, name)) => say_fault(fault, name, symbols, held, lines),
        None => Ok(()),
    }
}

/// Says why a box could not be made that its line names so. A name that isn't of the table has no line.
#[tactic(auto, unfolding(pd_say::specs::Lines::text_of))]
fn say_fault<L: Sink>(
    fault: Fault,
    name: Atom,
    symbols: &Symbols,
    held: &mut Held,
    lines: &mut L,
) -> Result<(), SinkFailed>
    ensures ok { OnOk result (Says (L.taken lines.old) held.old.items (L.taken lines.new) held.new.items (texts.told_fault symbols.now fault name)) }
    ensures err { OnErr result (Fails (L.taken lines.old) held.old.items (L.taken lines.new) (texts.told_fault symbols.now fault name)) }
    ensures cause { HasCause (L.faults lines.old) (L.faults lines.new) result }
{
    if !pd_hearing::is_known(symbols, &name) {
        return Ok(());
    }
    match fault {
        Fault::Unknown => say(&Line::NotMade { name }, symbols, held, lines),
        Fault::InsideItself => say(&Line::InsideItself { name }, symbols, held, lines),
        Fault::BadFile { number } => say(&Line::BadFile { name, number }, symbols, held, lines),
        Fault::TooDeep => say(&Line::TooDeep { name }, symbols, held, lines),
    }
}

/// Says that a wire doesn't fit.
#[tactic(auto, unfolding(pd_say::specs::Lines::text_of))]
pub(crate) fn say_unfit<L: Sink>(
    patch: &Patch,
    canvas: u32,
    wire: Wire,
    symbols: &Symbols,
    held: &mut Held,
    lines: &mut L,
) -> Result<(), SinkFailed>
    ensures ok { OnOk result (Says (L.taken lines.old) held.old.items (L.taken lines.new) held.new.items (texts.unfit_text (texts.path_in patch.now canvas) wire)) }
    ensures err { OnErr result (Fails (L.taken lines.old) held.old.items (L.taken lines.new) (texts.unfit_text (texts.path_in patch.now canvas) wire)) }
    ensures cause { HasCause (L.faults lines.old) (L.faults lines.new) result }
{
    let path = patch.path_of(canvas);
    let line = Line::NoFit {
        wire: Ends {
            source: wire.source,
            outlet: wire.outlet,
            sink: wire.sink,
            inlet: wire.inlet,
        },
        canvas: CanvasPath {
            document: None,
            path: path.as_slice(),
        },
    };
    say(&line, symbols, held, lines)
}

/// Says which wires of a canvas don't fit any more, in order.
fn say_gone<L: Sink>(
    patch: &Patch,
    canvas: u32,
    gone: &[BoxWire],
    symbols: &Symbols,
    held: &mut Held,
    lines: &mut L,
) -> Result<(), SinkFailed>
    ensures ok { OnOk result (Says (L.taken lines.old) held.old.items (L.taken lines.new) held.new.items (texts.gone_text (texts.path_in patch.now canvas) gone.now)) }
    ensures err { OnErr result (Fails (L.taken lines.old) held.old.items (L.taken lines.new) (texts.gone_text (texts.path_in patch.now canvas) gone.now)) }
    ensures cause { HasCause (L.faults lines.old) (L.faults lines.new) result }
{
    for wire in gone {
        say_unfit(patch, canvas, wire.wire, symbols, held, lines)?;
    }
    Ok(())
}

/// Makes `numbers` the numbers of the boxes of a canvas that feed one another in a loop.
fn fill_stuck(patch: &Patch, canvas: u32, numbers: &mut BoxNumbers)
    ensures { numbers.new.numbers.items ≡ texts.numbers_told (net_of patch.now) (stuck_in patch.now canvas) }
{
    match patch.order_at(canvas) {
        Some(order) => fill_numbers(patch, order.stuck(), numbers),
        None => numbers.numbers.clear(),
    }
}

/// Says which boxes of a canvas feed one another in a loop.
#[tactic(auto, unfolding(pd_say::specs::Lines::text_of))]
pub(crate) fn say_loop<L: Sink>(
    patch: &Patch,
    canvas: u32,
    numbers: &mut BoxNumbers,
    symbols: &Symbols,
    held: &mut Held,
    lines: &mut L,
) -> Result<(), SinkFailed>
    ensures ok { OnOk result (Says (L.taken lines.old) held.old.items (L.taken lines.new) held.new.items (texts.loop_text patch.now canvas)) }
    ensures err { OnErr result (Fails (L.taken lines.old) held.old.items (L.taken lines.new) (texts.loop_text patch.now canvas)) }
    ensures cause { HasCause (L.faults lines.old) (L.faults lines.new) result }
{
    fill_stuck(patch, canvas, numbers);
    let path = patch.path_of(canvas);
    let line = Line::SignalLoop {
        canvas: CanvasPath {
            document: None,
            path: path.as_slice(),
        },
        boxes: numbers.numbers.as_slice(),
    };
    say(&line, symbols, held, lines)
}
