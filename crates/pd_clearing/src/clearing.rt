//! A box goes, layer by layer, with all that lies in it.

ghost use Rattle.std.specs.Prelude.{◌≡◌, ◌+◌, ℕ, IfOk, IsTrue};
ghost use Rattle.slab.specs.Slab.{get, ContainsKey};
ghost use Rattle.pd_owning.specs.Bound.{is_among};
ghost use Rattle.pd_grove.specs.Forest.{IsForest};
ghost use Rattle.pd_grove.specs.TextOrder.{keys_of_spots};
ghost use Rattle.pd_web.specs.Changes.{wires_told, HasRoom};
ghost use Rattle.pd_clearing.specs.Clearing.{CanClear, IsCleared, IsPartOf};

use crate::loosening::loosen_all;
use crate::rows::{clear_clocks, close_boxes, close_orders, drop_all, lower_numbers};
use pd_atom::Symbols;
use pd_boxes::Place;
use pd_grove::{Grove, Spot};
use pd_order::Steps;
use pd_owning::{push_part, spot_at, unbind_boxes};
use pd_patch::Patch;
use pd_placing::displace_box;
use pd_ports::port_boxes_are_known;
use std::alloc::{AllocError, Global};
use std::sync::ledger::Ledger;

/// The key of a box, and that box with all boxes that lie in it, in text order.
#[derive(Drop)]
pub struct Part {
    pub key: u32,
    pub spots: Vec<Spot>,
}

/// The box of a key with all boxes that lie in it.
///
/// # Errors
///
/// `AllocError` where memory ran out.
pub fn part_of(alloc: Global, grove: &Grove, key: u32) -> Result<Part, AllocError>
    requires forest { IsForest (get grove.now.nodes) (get grove.now.boards) grove.now.root }
    requires here { ContainsKey grove.now.nodes key }
    ensures key { IfOk result (λ part. part.key ≡ key) }
    ensures part { IfOk result (λ part. IsPartOf grove.now key part.spots.items) }
{
    let mut spots = Vec::new(alloc);
    push_part(grove, spot_at(grove, key), &mut spots)?;
    Ok(Part { key, spots })
}

/// Takes the box of a place out of its canvas, with all that lies in it and with all wires at these boxes. The boxes behind it move up by one
/// number. `part` is the box with all that lies in it, `wires` is how many wires there are, and what is given how many there are then. No
/// memory is taken. Looks at signal wires are counted in `steps`.
pub fn clear<L: Ledger>(
    patch: &mut Patch,
    alloc: Global,
    place: Place,
    part: &Part,
    wires: usize,
    symbols: &mut Symbols,
    steps: &mut Steps<L>,
) -> usize
    requires can { CanClear patch.old place part.now.key }
    requires part { IsPartOf patch.old.grove part.now.key part.now.spots.items }
    requires room { (k : ℕ) → IsTrue (is_among (keys_of_spots part.now.spots.items) k) → HasRoom patch.old.web (k + 1) 0 0 }
    requires counted { wires ≡ wires_told patch.old.web }
    ensures cleared { (c : IsCleared patch.old patch.new symbols.old place part.now.key steps.old steps.new) × (c.part ≡ keys_of_spots part.now.spots.items) }
    ensures counted { result ≡ wires_told patch.new.web }
    ensures table { symbols.new ≡ symbols.old }
{
    port_boxes_are_known();
    let spots = part.spots.as_slice();
    let left = loosen_all(patch, spots, wires, steps);
    displace_box(
        &mut patch.orders,
        &patch.grove,
        &patch.links,
        place.canvas,
        part.key,
    );
    unbind_boxes(&mut patch.names, &patch.grove, spots, symbols);
    close_orders(&mut patch.orders, &patch.grove, spots);
    clear_clocks(&mut patch.timers, spots);
    patch.grove.take_box(place.canvas, place.number);
    close_boxes(&mut patch.web, alloc, spots);
    drop_all(&mut patch.values, alloc, spots);
    lower_numbers(&mut patch.numbers, &patch.grove, place);
    left
}
