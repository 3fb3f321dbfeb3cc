//! Which wires fit between boxes.

ghost use Rattle.std.specs.Prelude.{◌≡◌, ◌-◌, Some, option_map, slice_get};
ghost use Rattle.std.specs.Option.{option_copied};
ghost use Rattle.pd_tree.specs.Ports.{fits as fits_sockets, fits_between as fits_pair, joins as joins_ports};
ghost use Rattle.pd_fit.specs.Seeing.{views_of, sockets_of_box, sockets_seen, fitting as count_fitting};

use crate::boxes::Seen;
use pd_canvas::Wire;

/// A number less the wires between boxes that fit, or 0.
pub(crate) fn less_fitting(boxes: &[Seen], wires: &[Wire], most: u32) -> u32
    ensures { result ≡ most - count_fitting (views_of boxes.now) wires.now }
{
    let mut left = most;
    for wire in wires {
        if fits(boxes, wire) {
            left = left.saturating_sub(1);
        }
    }
    left
}

fn fits(boxes: &[Seen], wire: &Wire) -> bool
    ensures { result ≡ fits_sockets (sockets_seen (views_of boxes.now)) wire.now }
{
    let source = seen_at(boxes, wire.source);
    let sink = seen_at(boxes, wire.sink);
    fits_between(source, sink, wire)
}

fn seen_at(boxes: &[Seen], number: u32) -> Option<&Seen>
    ensures { option_copied result ≡ slice_get boxes.now number }
{
    boxes.get(number as usize)
}

fn fits_between(source: Option<&Seen>, sink: Option<&Seen>, wire: &Wire) -> bool
    ensures { result ≡ fits_pair (option_map sockets_of_box (option_copied source.entry)) (option_map sockets_of_box (option_copied sink.entry)) wire.now }
{
    match source {
        Some(source) => fits_from(source, sink, wire),
        None => false,
    }
}

fn fits_from(source: &Seen, sink: Option<&Seen>, wire: &Wire) -> bool
    ensures { result ≡ fits_pair (option_map sockets_of_box (Some source.now)) (option_map sockets_of_box (option_copied sink.entry)) wire.now }
{
    match sink {
        Some(sink) => joins(
            sink.is_made,
            signal_at(source.outlets.as_slice(), wire.outlet),
            signal_at(sink.inlets.as_slice(), wire.inlet),
        ),
        None => false,
    }
}

fn signal_at(signals: &[bool], port: u32) -> Option<bool>
    ensures { result ≡ slice_get signals.now port }
{
    signals.get(port as usize).copied()
}

/// Whether a wire may join two ports.
fn joins(is_made: bool, from: Option<bool>, to: Option<bool>) -> bool
    ensures { result ≡ joins_ports is_made from to }
{
    match from {
        Some(from) => joins_from(is_made, from, to),
        None => false,
    }
}

fn joins_from(is_made: bool, from: bool, to: Option<bool>) -> bool
    ensures { result ≡ joins_ports is_made (Some from) to }
{
    match to {
        Some(to) => !(from && !to && is_made),
        None => false,
    }
}
