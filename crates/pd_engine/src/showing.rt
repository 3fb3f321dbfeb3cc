//! The signal order of a canvas, printed.

ghost use Rattle.std.specs.Prelude.{◌≡◌, ◌≤◌, OnOk, OnErr, vec_capacity, option_and_then, Some, codes};
ghost use Rattle.std.specs.Option.{option_copied};
ghost use Rattle.pd_io.specs.Stream.{grown, TookPart};
ghost use Rattle.pd_say.specs.Gathering.{HasCause};
ghost use Rattle.pd_patch.specs.Telling.{order_in};
ghost use Rattle.pd_hearing.specs.Worlds.{net_of};
ghost use Rattle.pd_stage.specs.Lines.{numbers_told, boxes_text};
ghost use Rattle.pd_engine.specs.Commands.{order_text, led_to, shown};

use crate::printing::print;
use crate::room::{BoxNumbers, MOST_BOXES};
use pd_atom::Symbols;
use pd_io::{Sink, SinkFailed};
use pd_order::Order;
use pd_patch::Patch;
use pd_say::{CanvasPath, Held, Line};

/// Makes `numbers` the numbers of boxes.
pub(crate) fn fill_numbers(patch: &Patch, boxes: &[u32], numbers: &mut BoxNumbers)
    ensures { numbers.new.numbers.items ≡ numbers_told (net_of patch.now) boxes.now }
{
    fill(patch, boxes, &mut numbers.numbers);
}

fn fill(patch: &Patch, boxes: &[u32], numbers: &mut Vec<u32>)
    requires { 16384 ≤ vec_capacity numbers.old }
    ensures numbers { numbers.new.items ≡ numbers_told (net_of patch.now) boxes.now }
    ensures room { 16384 ≤ vec_capacity numbers.new }
{
    numbers.clear();
    let told = &boxes[..boxes.len().min(MOST_BOXES)];
    for key in told {
        numbers.push_reserved(patch.number_at(*key));
    }
}

/// Prints the chain and the stuck list of the canvas at a path, or that there is none.
#[tactic(auto, unfolding(pd_say::specs::Lines::text_of))]
pub(crate) fn show<L: Sink>(
    patch: &Patch,
    path: &[u32],
    numbers: &mut BoxNumbers,
    symbols: &Symbols,
    held: &mut Held,
    lines: &mut L,
) -> Result<(), SinkFailed>
    ensures ok { OnOk result (L.taken lines.new ≡ grown (L.taken lines.old) (shown (net_of patch.now) path.now)) }
    ensures err { OnErr result (TookPart (L.taken lines.old) (L.taken lines.new) (shown (net_of patch.now) path.now)) }
    ensures cause { HasCause (L.faults lines.old) (L.faults lines.new) result }
{
    match order_along(patch, path) {
        Some(order) => show_order(patch, order, path, numbers, symbols, held, lines),
        None => print(&Line::NoCanvas, symbols, held, lines),
    }
}

fn order_along<'a>(patch: &'a Patch, path: &[u32]) -> Option<&'a Order>
    ensures { option_copied result ≡ option_and_then (λ c. order_in patch.now.orders.items c) (led_to (net_of patch.now) (Some patch.now.grove.root) path.now) }
{
    match patch.place_key(path) {
        Some(canvas) => patch.order_at(canvas),
        None => None,
    }
}

fn show_order<L: Sink>(
    patch: &Patch,
    order: &Order,
    path: &[u32],
    numbers: &mut BoxNumbers,
    symbols: &Symbols,
    held: &mut Held,
    lines: &mut L,
) -> Result<(), SinkFailed>
    ensures ok { OnOk result (L.taken lines.new ≡ grown (L.taken lines.old) (order_text (net_of patch.now) path.now (Some order.now))) }
    ensures err { OnErr result (TookPart (L.taken lines.old) (L.taken lines.new) (order_text (net_of patch.now) path.now (Some order.now))) }
    ensures cause { HasCause (L.faults lines.old) (L.faults lines.new) result }
{
    fill_numbers(patch, order.chain(), numbers);
    print_chain(path, numbers.numbers.as_slice(), symbols, held, lines)?;
    fill_numbers(patch, order.stuck(), numbers);
    print_stuck(path, numbers.numbers.as_slice(), symbols, held, lines)
}

#[tactic(auto, unfolding(pd_say::specs::Lines::text_of))]
fn print_chain<L: Sink>(
    path: &[u32],
    boxes: &[u32],
    symbols: &Symbols,
    held: &mut Held,
    lines: &mut L,
) -> Result<(), SinkFailed>
    ensures ok { OnOk result (L.taken lines.new ≡ grown (L.taken lines.old) (boxes_text (codes "chain ") path.now boxes.now)) }
    ensures err { OnErr result (TookPart (L.taken lines.old) (L.taken lines.new) (boxes_text (codes "chain ") path.now boxes.now)) }
    ensures cause { HasCause (L.faults lines.old) (L.faults lines.new) result }
{
    let canvas = CanvasPath {
        document: None,
        path,
    };
    print(&Line::Chain { canvas, boxes }, symbols, held, lines)
}

#[tactic(auto, unfolding(pd_say::specs::Lines::text_of))]
fn print_stuck<L: Sink>(
    path: &[u32],
    boxes: &[u32],
    symbols: &Symbols,
    held: &mut Held,
    lines: &mut L,
) -> Result<(), SinkFailed>
    ensures ok { OnOk result (L.taken lines.new ≡ grown (L.taken lines.old) (boxes_text (codes "stuck ") path.now boxes.now)) }
    ensures err { OnErr result (TookPart (L.taken lines.old) (L.taken lines.new) (boxes_text (codes "stuck ") path.now boxes.now)) }
    ensures cause { HasCause (L.faults lines.old) (L.faults lines.new) result }
{
    let canvas = CanvasPath {
        document: None,
        path,
    };
    print(&Line::Stuck { canvas, boxes }, symbols, held, lines)
}
