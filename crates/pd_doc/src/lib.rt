//! The patch file format in both directions.
//!
//! `read` gives the document of the text's records, or the first refusal with its record and cause, and after any
//! refusal the table of names is as before; what it gives is proper in the table after it. `write` takes a document
//! whose atoms are of the table, as those of a proper one are (`proper_pages`), and appends its text, or leaves what
//! was there. The text is canonical where the wires are sorted, which `write` leaves to its caller: it writes them
//! in the order in which they stand, and those of a proper document are sorted.
//!
//! Laws: reading the text of a proper document gives it back and leaves the table (`written_read`); what reading
//! any text gives is proper, and the table after it is one (`read_proper`); so what was read and is written is read
//! as the same document with the same table (`read_again`). A proper document stays so in a longer table
//! (`proper_extended`).
//!
//! Free: want of memory, and how deep `write` goes on the machine's stack, which is as deep as the canvases nest,
//! in a proper document at most 256. The speed is measured: `docs/BENCHMARKS.md`.
//!
//! Definitions: `Reading`, over `Records`, `Kinds`, `Fields`, `Lines` (what a text is read as); `Writing` (the
//! canonical text); `Atoms`; the others help.
#![tactic(auto)]

mod atoms;
mod elements;
mod fields;
mod kinds;
mod laws;
mod levels;
mod lexemes;
mod lines;
mod reading;
mod records;
mod refusal;
mod rows;
mod writing;

pub use laws::{proper_extended, proper_pages, read_again, read_proper, written_read};
pub use pd_canvas::{
    AtomRows, Atoms, Canvas, Change, Doc, Edit, Element, Elements, Form, Numbers, Nums, Place,
    Turn, Wire, Wires, apply_plain, can_apply, canvas_at, copy, plain_turn,
};
pub use reading::read;
pub use refusal::DocRefusal;
pub use writing::write;
