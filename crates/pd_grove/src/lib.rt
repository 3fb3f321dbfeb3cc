//! Running boxes and canvases under keys that stay while others come and go.
//!
//! `Grove::plant` gives each box of a grown document and each of its canvases a key, so that exactly that tree
//! stands under the root's and no other box is there, each box once in the canvas in which it lies and in no other,
//! with its first state and each `timer` reset at the present time. `Seeds` take the memory before; planting itself
//! takes none and leaves all that lived before.
//!
//! `ports_of` gives the ports that boxes are on a side of their canvas, from left to right, boxes of one x in their
//! order. `box_key`, `canvas_in`, `kind_at`, `state_at` and `place_key` tell the tree that stands (law
//! `trees_are_told`: a path leads to a key exactly where it leads to a canvas), `zeros` its `$0` numbers in text
//! order, where it is at most 256 canvases deep; `in_text_order` gives the keys of all boxes, each box before those
//! inside it, and `spots` besides whether each is in the patch's own document. `take_state` and `put_state` change
//! one box's state and nothing else.
//!
//! `own_canvas_at` tells where a path leads through subpatches alone. What is planted is a forest: each box and canvas is
//! sound by itself (`IsForest`), and so the keys tell one tree, whose laws are those of `pd_forest_law`. A forest changes
//! box by box, and every key, place and state that a call doesn't name stays. After `reserve`, `put_box` puts a grown box
//! into a canvas at a number with all that lies in it (`HasPartMore`), each box made of its seed. `take_box` takes a box
//! out with all that lies in it (`TakesBox`). `refit_box` is both at one number, under the same key (`Refits`).
//! `retext_box` and `move_box` give a box another text or place (`Alters`). None of them but `reserve` takes memory, and
//! `reserve` changes nothing else (law `room_changes_nothing`).
//!
//! Labels rise along the boxes of each canvas of each grove (`AreLabelled`), so `number_at` finds a box's number by
//! halving, `is_before` tells which of two boxes of a canvas comes first, and `label` ranks them. A box that goes
//! changes no label.
//!
//! Free: want of memory, and which labels boxes get.
//!
//! Definitions: `Standing` (a tree stands under keys), `Owning`, `States` (first states), `Ports`, `Places`, `OwnPaths`
//! and `Telling` (what is told), `TextOrder`, `Planting`, `Lending`, `Forest` and `Grafts` (boxes sound by themselves,
//! and what changes of one canvas are), `Pruning`, `Room`, `Refits`, `Keys` (the boxes of a canvas and their labels),
//! `Labelled`.
#![tactic(auto)]

mod boards;
mod grafts;
mod grove;
mod laws;
mod nodes;
mod places;
mod planting;
mod ports;
mod prunes;
mod refits;
mod seeds;
mod spots;
mod telling;
mod text_order;

pub use boards::Board;
pub use grove::Grove;
pub use laws::{room_changes_nothing, trees_are_told};
pub use nodes::Node;
pub use ports::{PortSpot, Side, ports_of};
pub use seeds::{Seed, Seeds};
pub use spots::Spot;
