//! Parts of a state that other boxes reach: tables, buses, delay lines, what is saved.

ghost use Rattle.std.specs.Prelude.{◌≡◌, ◌<◌, length, IfSome, IfNone, None};
ghost use Rattle.std.specs.Option.{option_copied, option_copied_mut};
ghost use Rattle.std.specs.Borrow.{sem};

use crate::states::{Samples, State};
use pd_clock::Time;
use pd_num::Num;

/// How far a `delwrite~` is: the place of its next sample in the ring of its values, and whether it has run in this block.
#[derive(Clone, Copy, Debug, PartialEq, Eq, Drop)]
pub struct Line {
    pub next: u32,
    pub ran: bool,
}

impl State {
    ghost use Rattle.pd_kind.specs.Tables.{table_of, with_value, started, line_of, shared_of, block_begun, saved_of};
    ghost use Rattle.pd_kind.specs.Lends.{lends_shared};

    /// The values of a `table` or an array; `None` exactly for other kinds.
    pub fn table(&self) -> Option<&[Num]>
        ensures { option_copied result ≡ table_of self.now }
    {
        match self {
            State::Table { values } | State::Array { values } => Some(values.as_slice()),
            _ => None,
        }
    }

    /// Sets a value of a `table` or an array.
    pub fn write_table(&mut self, index: u32, value: Num)
        requires there { IfNone (table_of self.old) ⊥ }
        requires within { IfSome (table_of self.old) (λ values. index < length values) }
        ensures { self.new ≡ with_value self.old index value }
    {
        match self {
            State::Table { values } => values.set(index as usize, value),
            State::Array { values } => values.set(index as usize, value),
            _ => {}
        }
    }

    /// The reset of a `timer` becomes `now`; other states stay.
    pub fn start(&mut self, now: Time)
        ensures { self.new ≡ started self.old now }
    {
        if let State::Timer { reset, .. } = self {
            *reset = now;
        }
    }

    /// How far a `delwrite~` is; `None` exactly for other kinds.
    pub fn delay_line(&self) -> Option<Line>
        ensures { result ≡ line_of self.now }
    {
        match self {
            State::Delwrite { next, ran, .. } => Some(Line {
                next: *next,
                ran: *ran,
            }),
            _ => None,
        }
    }

    /// The values of a `send~`, a `catch~` or a `delwrite~`, for writing; `None` exactly for other states. As many are to be left.
    pub fn shared(&mut self) -> Option<&mut Samples>
        ensures* writes_back { sem 𝓛 (lends_shared self.entry result) }
        ensures value { option_copied_mut result ≡ shared_of self.old }
    {
        match self {
            State::SignalSend { block, .. } => Some(block),
            State::Catch { sum } => Some(sum),
            State::Delwrite { values, .. } => Some(values),
            _ => None,
        }
    }

    /// A `delwrite~` has not run in the block that begins; other states stay.
    pub fn begin_block(&mut self)
        ensures { self.new ≡ block_begun self.old }
    {
        if let State::Delwrite { ran, .. } = self {
            *ran = false;
        }
    }

    /// Value and other value of a `tgl` that are saved with its document; `None` exactly for other states.
    pub fn saved(&self) -> Option<(Num, Num)>
        ensures { result ≡ saved_of self.now }
    {
        match self {
            State::Toggle {
                value,
                other,
                is_saved: true,
            } => Some((*value, *other)),
            _ => None,
        }
    }
}
