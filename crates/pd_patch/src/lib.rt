//! The running patch: boxes and canvases under keys, their wires, names, signal orders and clocks.
//!
//! `Patch::grow` joins growth, planting, wires, names, signal orders and clocks. After `Ok` the tree stands under
//! keys that growth of the document gives, with the names that growth left; with the root at most 256 canvases lie in
//! one another in it, and boxes and canvases name each other as in one tree (`tree`). Its wires are those of the tree
//! that fit, told by paths and numbers of boxes (`IsWired`); under each name stand its owners, each canvas has its
//! signal order and each box its number, no clock is set and there is room for one of each box, each wire leads to a
//! box of its own canvas and the links are the signal wires, at both their boxes, and each box has its first state
//! and, where one of its outlets carries signals, a silent block for each outlet, and no key but a box's has a block
//! (`fresh`). The lines to print and the load boxes are those of this tree (`notices`, `loads`): the boxes that
//! aren't made, the wires that don't fit and the canvases with loops, each in text order.
//!
//! A refusal comes exactly where it is due (`cause`): `SymbolsFull` and `TooManyBoxes` where growth ends so,
//! `TooManyWires` where more than 65,536 wires of the grown tree fit, `TooMuchSound` where no more do and tables,
//! arrays and delay lines have more than 16,777,216 values. The table of names is then as before. Free: `NoMemory`,
//! which also comes where nothing is known of a file for which growth asks, which `gather` sees to, and would come
//! where `Web::lay` found more wires than were counted, which isn't excluded by a proof.
//!
//! What the calls that tell a patch give is exact by its parts: boxes, kinds, paths to canvases, ports, wires in
//! order, the box for which a port box stands, owners of names, states, tables, the number and the order that are
//! noted under a key, the document as it stands (`document`). So is what changes do, and that all else stays: a
//! state taken out or put back, a table's value, a clock set, cleared or taken, the time of the present event; the
//! block of an outlet is what was put there last, and no other changes with it.
//!
//! The signal order of a canvas is that of its boxes that are of a sounding kind or hold a canvas, by the signal
//! wires between them; it asks for boxes that stand apart and for wires that were laid, and looks at none of that
//! again. More than 2^32 - 2 boxes or signal wires of one canvas are answered as memory that is wanted.
//!
//! `path_of` gives the numbers of the boxes around a canvas from the outside in, at most 256. Laws: where a path of
//! at most so many numbers leads to the canvas, it is that one (`paths_lead_back`), and in a patch that grew it is
//! the whole path (`paths_are_short`); where with the root no more than 256 canvases lie in one another in a
//! document, no more do in what grows from it, whatever files there are, and one more at most from any other
//! (`growth_is_shallow`).
//!
//! Definitions: `Grown` (what a grown patch is, and why it is refused), `Wired`, `Orders`, `Linked`, `Numbers`, `Report`
//! (lines and load boxes), `Paths`, `Sounds` (values of tables and lines), `Telling`, `Walking` and `Values` (what
//! calls tell and change), `Listing`, `Lending`, `Refusals`.
#![tactic(auto)]

mod document;
mod growing;
mod laws;
mod linking;
mod listing;
mod numbers;
mod orders;
mod patch;
mod refusal;
mod report;
mod sounds;
mod telling;
mod values;
mod walking;

pub use laws::{growth_is_shallow, paths_are_short, paths_lead_back, what_grows_is_built};
pub use patch::Patch;
pub use pd_gather::Library;
pub use refusal::GrowRefusal;
pub use report::{Remark, Report, is_load_box};
