//! Laws of the wires inside abstractions: of a running patch, and of the patch that opens from what it saves.
//!
//! An edit of wires changes a canvas of the document alone, so inside abstractions the wires stay those of the tree that
//! grew (`wires_hold_on`). In each canvas to which a path leads, in abstractions too, the patch that opened has the same
//! ports, fan-outs, feeds and signal order as the one that was saved (`opened_patches_are_alike_everywhere`), and a path
//! leads to a canvas in both or in neither (`opened_patches_have_the_canvases`).
//!
//! Asked besides `HasOpened`: that the wires hold on (`HoldsWires`), which is so at first, and stays so through edits of
//! wires, more room, and what messages change; and that each wire stands once (`StandOnce`), which is true of each web as
//! code has it.
//!
//! Definitions: `Inside`.
#![tactic(auto)]

mod laws;

pub use laws::{
    opened_patches_are_alike_everywhere, opened_patches_have_the_canvases, wires_hold_on,
};
