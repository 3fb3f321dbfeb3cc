//! The made patch: its document, its script, the sum of its samples, and the line that tells of its run.
//!
//! The made patch of n voices is one output and, for each voice, an oscillator that goes there made softer. `make_doc`
//! gives exactly its document, which is proper, and the table with its words, each found or new, in the order of the
//! text; for want of memory there is no document, and the table has the words all the same. `make_script` gives exactly
//! the bytes of its script, by which each voice in turn goes from the left to the right.
//!
//! A `Tally` is the sum of the magnitudes of samples that come as bytes in pieces of any length, and how many bytes came;
//! both stay at 2^64 - 1 once they would go above it. `ScriptSource` gives the bytes of a script that is at hand, and
//! never fails. `Summary::line` gives exactly the bytes of the last line of a run.
//!
//! Laws: the text of the document is what one writes by hand (`made_texts`); bytes in two pieces are tallied as those in
//! a row, and from nothing the sum is that of their magnitudes (`pieces_join`). Free: want of memory.
//!
//! Definitions: `Voices` (the voices and the words of their texts), `Documents`, `Texts` (the document, and as one writes
//! it by hand), `Scripts`, `Tallies`, `Summaries`.
#![tactic(auto)]

mod document;
mod laws;
mod script;
mod source;
mod summary;
mod tally;
mod words;

pub use document::make_doc;
pub use laws::{made_texts, pieces_join};
pub use script::make_script;
pub use source::ScriptSource;
pub use summary::Summary;
pub use tally::Tally;
