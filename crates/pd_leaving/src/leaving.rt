//! The box around loses the port that went.

ghost use Rattle.std.specs.Prelude.{◌≡◌, ◌+◌, ◌<◌, ℕ, IsSome, map, length};
ghost use Rattle.slab.specs.Slab.{get};
ghost use Rattle.pd_grove.specs.declared.grove.Grove.{Grove as GroveModel};
ghost use Rattle.pd_grove.specs.declared.ports.Side.TheVariants.{Inlets, Outlets};
ghost use Rattle.pd_grove.specs.Owning.{AreOwn};
ghost use Rattle.pd_grove.specs.Telling.{inner_in};
ghost use Rattle.pd_web.specs.declared.jacks.Jack.{Jack};
ghost use Rattle.pd_web.specs.Jacks.{jacks_at};
ghost use Rattle.pd_web.specs.Changes.{HasRoom, Meet, wires_told};
ghost use Rattle.pd_web.specs.Hops.{ports_told};
ghost use Rattle.pd_ports.specs.Room.{HasLists};
ghost use Rattle.pd_ports.specs.Moves.{FollowsPorts};
ghost use Rattle.pd_ports.specs.Known.{AreBareWithout, AreFreeFor, KnowsHomes};
ghost use Rattle.pd_boxes.specs.Rows.{PutsUnder};
ghost use Rattle.pd_following.specs.Raising.{IsOneMore, Raises};

use pd_boxes::{Blocks, put_blocks};
use pd_grove::{Grove, Side};
use pd_ports::{PortRoom, follow_ports};
use pd_web::Web;

/// Gives a side of the box that holds a canvas the ports that this canvas has now, one fewer than a grove before gave it.
pub(crate) fn leave_port(web: &mut Web, grove: &Grove, holder: u32, side: Side, room: PortRoom)
    requires holds { IsSome (inner_in (get grove.now.nodes holder)) }
    requires own { AreOwn (get grove.now.nodes) (get grove.now.boards) }
    requires near { (k : ℕ) → IsSome (get grove.now.nodes k) → HasRoom web.old (k + 1) 0 0 }
    requires lists { HasLists room (length (jacks_at Inlets grove.now holder)) (length (jacks_at Outlets grove.now holder)) }
    requires known { KnowsHomes web.old }
    requires free { AreFreeFor web.old holder side (jacks_at side grove.now holder) }
    requires gone { AreBareWithout web.old holder side (jacks_at side grove.now holder) }
    requires meet { Meet web.old }
    ensures follows { FollowsPorts web.old web.new holder side (jacks_at side grove.now holder) }
    ensures lowers { (before : GroveModel) (at : ℕ) (jack : Jack) → ports_told web.old side holder ≡ jacks_at side before holder →
        IsOneMore web.new before holder side at jack → Raises web.new web.old holder side at jack }
    ensures known { KnowsHomes web.new }
    ensures meet { Meet web.new }
    ensures as_many { wires_told web.new ≡ wires_told web.old }
{
    web.laws();
    follow_ports(web, grove, holder, side, room);
}

/// Gives the box around its blocks, where an outlet went.
pub(crate) fn leave_blocks(values: &mut Vec<Blocks>, side: Side, holder: u32, blocks: Blocks)
    requires { holder < length values.old.items }
    ensures inlets { side ≡ Inlets → values.new ≡ values.old }
    ensures outlets { side ≡ Outlets → PutsUnder (map (λ b. b.items) values.old.items) (map (λ b. b.items) values.new.items) holder blocks.items }
{
    match side {
        Side::Inlets => {}
        Side::Outlets => put_blocks(values, holder, blocks),
    }
}
