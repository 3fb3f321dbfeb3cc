//! The ports and blocks of boxes that have come.

ghost use Rattle.std.specs.Prelude.{◌≡◌, ◌<◌, ◌+◌, [], ℕ, map, drop, length, replicate, None, IsSome, IsTrue};
ghost use Rattle.std.specs.List.{AllByRecursion};
ghost use Rattle.slab.specs.Slab.{get, ContainsKey};
ghost use Rattle.pd_kind.specs.States.{silent_block};
ghost use Rattle.pd_grove.specs.declared.ports.Side.{Side};
ghost use Rattle.pd_grove.specs.Owning.{AreOwn};
ghost use Rattle.pd_grove.specs.TextOrder.{keys_of_spots};
ghost use Rattle.pd_owning.specs.Bound.{is_among, AreNew};
ghost use Rattle.pd_web.specs.Changes.{HasRoom, KeepsRoom};
ghost use Rattle.pd_web.specs.Homes.{IsPortOf};
ghost use Rattle.pd_web.specs.Hops.{ports_told, port_told};
ghost use Rattle.pd_web.specs.Jacks.{KindsSmall, jacks_at, made_in};
ghost use Rattle.pd_ports.specs.Boxes.{HasPorts, KnowsPorts};
ghost use Rattle.pd_boxes.specs.Rows.{PutsUnder};
ghost use Rattle.pd_instances.specs.Needs.{need_at, AreRoomsFor};
ghost use Rattle.pd_instances.specs.Layers.{IsNextRoom, OpensAll, PutsBlocks};

use crate::room::BoxRoom;
use pd_boxes::{Blocks, put_blocks};
use pd_grove::{Grove, Spot};
use pd_ports::{open_box, port_boxes_stay_known};
use pd_web::Web;
use std::collections::VecDeque;

/// Gives boxes that have come their ports and their blocks, each from its own room. No memory is taken.
pub(crate) fn open_all(
    web: &mut Web,
    values: &mut Vec<Blocks>,
    grove: &Grove,
    spots: &[Spot],
    rooms: &mut VecDeque<BoxRoom>,
)
    requires small { KindsSmall grove.now }
    requires live { AllByRecursion (λ k. IsSome (get grove.now.nodes k)) (keys_of_spots spots.now) }
    requires near { (k : ℕ) → IsSome (get grove.now.nodes k) → HasRoom web.old (k + 1) 0 0 }
    requires reach { (k : ℕ) → IsSome (get grove.now.nodes k) → k < length values.old.items }
    requires once { AreNew (keys_of_spots spots.now) [] }
    requires own { AreOwn (get grove.now.nodes) (get grove.now.boards) }
    requires alone { (j a b i m : ℕ) → IsPortOf grove.now j a i → IsPortOf grove.now j b m → a ≡ b }
    requires rooms { AreRoomsFor (map (need_at grove.now) (keys_of_spots spots.now)) rooms.old.items }
    requires bare { (side : Side) (k : ℕ) → IsTrue (is_among (keys_of_spots spots.now) k) → ports_told web.old side k ≡ [] }
    requires apart { (j k i : ℕ) → IsTrue (is_among (keys_of_spots spots.now) k) → IsPortOf grove.now j k i → port_told web.old j ≡ None }
    ensures opens { OpensAll grove.now web.old web.new (keys_of_spots spots.now) }
    ensures blocks { PutsBlocks grove.now (map (λ b. b.items) values.old.items) (map (λ b. b.items) values.new.items) (keys_of_spots spots.now) }
    ensures room { KeepsRoom web.old web.new }
{
    port_boxes_stay_known();
    for spot in spots {
        open_next(web, values, grove, spot.node, rooms);
    }
}

/// Gives a box that has come its ports and its blocks, from the first of some rooms.
fn open_next(
    web: &mut Web,
    values: &mut Vec<Blocks>,
    grove: &Grove,
    key: u32,
    rooms: &mut VecDeque<BoxRoom>,
)
    requires small { KindsSmall grove.now }
    requires here { ContainsKey grove.now.nodes key }
    requires near { (k : ℕ) → IsSome (get grove.now.nodes k) → HasRoom web.old (k + 1) 0 0 }
    requires reach { key < length values.old.items }
    requires room { IsNextRoom (need_at grove.now key) rooms.old.items }
    requires bare { (side : Side) → ports_told web.old side key ≡ [] }
    requires apart { (j i : ℕ) → IsPortOf grove.now j key i → port_told web.old j ≡ None }
    ensures ports { HasPorts web.old web.new key (λ side. jacks_at side grove.now key) (made_in (get grove.now.nodes key)) }
    ensures homes { KnowsPorts grove.now web.old web.new key }
    ensures blocks { PutsUnder (map (λ b. b.items) values.old.items) (map (λ b. b.items) values.new.items) key (replicate (need_at grove.now key).blocks silent_block) }
    ensures room { KeepsRoom web.old web.new }
    ensures rest { rooms.new.items ≡ drop 1 rooms.old.items }
{
    let Some(room) = rooms.pop_front() else {
        unreachable!()
    };
    let BoxRoom { ports, blocks } = room;
    open_box(web, grove, key, ports);
    put_blocks(values, key, blocks);
}
