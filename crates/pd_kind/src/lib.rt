//! What boxes keep, messages, and what a hearing gives, over the kinds of boxes and what a text names (`pd_object`
//! and `pd_naming`, whose names are re-exported here).
//!
//! `State::fresh` gives what a box keeps when it is made, with all the room that it will ever need, and
//! `sound_size` how many values its table or delay line counts. `table`, `write_table`, `start`, `delay_line`,
//! `shared`, `begin_block` and `saved` are the parts of a state that others reach, each exactly its definition;
//! what `shared` lends comes back into the state. `sort_of`, `first_sort` and `stored` say what a message is, and
//! what of a list is spread over inlets. `Sends` holds what one hearing says (sends, at most one deed, notices), in
//! room that is taken once. The ramps of a `vline~` change by the calls of `RampBook` alone, whose stored times and
//! ramps are no longer than a day.
//!
//! A state is of a kind where it keeps what the kind's row names, within the row's bounds. Laws: what `fresh` makes
//! is (`fresh_fits`), what these calls change stays so (`reached_fits`), and so does what is like it (`likes_fit`).
//! Only `fresh`, `Sends::new` and `RampBook::new` take memory. Free: want of memory.
//!
//! Definitions: `States`, `Tables`, `Messages`, `Hearing`, `Fit`, `Books` (ramps), `Rows` and `Said` (sends),
//! `Forming` (messages in their normal form), `Lends`.
#![tactic(auto)]

mod forming;
mod fresh;
mod laws;
mod messages;
mod sends;
mod states;
mod tables;

pub use forming::{float_in, symbol_in};
pub use fresh::{sound_size, units_of, whole_at_least};
pub use laws::{fresh_fits, likes_fit, reached_fits};
pub use messages::{
    Around, Deed, Message, Notice, Sort, Target, first_sort, sort_of, stored, told,
};
pub use pd_naming::{argument_name_at, kind_of};
pub use pd_object::{
    Arguments, Arith, Bounded, Button, Channel, Comparison, Division, Function, Glue, Items, Kind,
    Named, Operation, Panel, PortList, Row, Side, Signal, SignalFunction, SignalOperation,
    SignalRow, Slot, Spelling, Toggle, Tone, Trigger, Values, ports,
};
pub use sends::{Atoms, Notices, SendRow, SendRows, Sends};
pub use states::{Ramp, RampBook, Ramps, Samples, Slope, State, Text};
pub use tables::Line;
