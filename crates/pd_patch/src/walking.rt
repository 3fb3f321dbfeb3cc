//! What messages and clocks change in a patch.

ghost use Rattle.std.specs.Prelude.{◌≡◌, ◌↔◌, ◌<◌, ◌≤◌, ◌++◌, ◌∷◌, [], ℤ, true, false, length, slice_set, Some, None, IsSome, IfSome, IfNone, option_map};
ghost use Rattle.std.specs.List.{AllByRecursion};
ghost use Rattle.std.specs.Option.{option_copied, option_copied_mut};
ghost use Rattle.std.specs.Borrow.{sem};
ghost use Rattle.slab.specs.Slab.{get, ContainsKey};
ghost use Rattle.pd_clock.specs.Queue.{without, IsTaken};
ghost use Rattle.pd_kind.specs.Tables.{table_of, with_value};
ghost use Rattle.pd_grove.specs.Telling.{state_in, Keeps};
ghost use Rattle.pd_patch.specs.Walking.{RestStays, WritesAt, table_owner, table_named};

use crate::patch::Patch;
use pd_atom::Sym;
use pd_clock::Time;
use pd_grove::Node;
use pd_kind::State;
use pd_name::Class;
use pd_num::Num;

impl Patch {
    ghost use Rattle.pd_patch.specs.Lending.{lends_box};

    /// A box, for writing; `None` exactly where none lives under the key.
    pub fn node_mut(&mut self, key: u32) -> Option<&mut Node>
        ensures* writes_back { sem 𝓛 (lends_box self.entry key result) }
        ensures value { option_copied_mut result ≡ get self.old.grove.nodes key }
    {
        self.grove.node_mut(key)
    }

    /// What a box keeps, where it is in.
    pub fn state_at(&self, node: u32) -> Option<&State>
        ensures { option_copied result ≡ state_in (get self.now.grove.nodes node) }
    {
        self.grove.state_at(node)
    }

    /// Whether what a box keeps is in.
    pub fn has_state(&self, node: u32) -> bool
        ensures { (result ≡ true) ↔ IsSome (state_in (get self.now.grove.nodes node)) }
    {
        self.grove.state_at(node).is_some()
    }

    /// Takes out what a live box keeps. Its state has to be in.
    pub fn take_state(&mut self, node: u32) -> State
        requires { IsSome (state_in (get self.old.grove.nodes node)) }
        ensures state { state_in (get self.old.grove.nodes node) ≡ Some result }
        ensures keeps { Keeps self.old.grove self.new.grove node None }
        ensures clocks { self.new.timers ≡ self.old.timers }
        ensures rest { RestStays self.old self.new }
    {
        self.grove.take_state(node)
    }

    /// Gives a live box what it keeps.
    pub fn put_state(&mut self, node: u32, state: State)
        requires { ContainsKey self.old.grove.nodes node }
        ensures keeps { Keeps self.old.grove self.new.grove node (Some state) }
        ensures clocks { self.new.timers ≡ self.old.timers }
        ensures rest { RestStays self.old self.new }
    {
        self.grove.put_state(node, state);
    }

    /// The values of the table or array of a name, the first in text order.
    pub fn table_of(&self, name: Sym) -> Option<&[Num]>
        ensures { option_copied result ≡ table_named self.now name }
    {
        let owner = self.names.owners(Class::Table, name).first()?;
        self.grove.state_at(*owner)?.table()
    }

    /// Sets a value of the table or array of a name, the first in text order. Where there is none, or its size is at most the
    /// index, nothing changes.
    pub fn write_table(&mut self, name: Sym, index: u32, value: Num)
        ensures table { table_named self.new name ≡ option_map (λ values. slice_set values index value) (table_named self.old name) }
        ensures writes { WritesAt self.old.grove self.new.grove (table_owner self.old name) index value }
        ensures clocks { self.new.timers ≡ self.old.timers }
        ensures rest { RestStays self.old self.new }
    {
        if let Some(owner) = self.names.owners(Class::Table, name).first() {
            let owner = *owner;
            self.write_table_at(owner, index, value);
        }
    }

    fn write_table_at(&mut self, owner: u32, index: u32, value: Num)
        ensures writes { WritesAt self.old.grove self.new.grove (Some owner) index value }
        ensures clocks { self.new.timers ≡ self.old.timers }
        ensures rest { RestStays self.old self.new }
    {
        if self.has_state(owner) {
            let mut state = self.grove.take_state(owner);
            write_value(&mut state, index, value);
            self.grove.put_state(owner, state);
        }
    }

    /// Sets the clock of a box in place of the one that it has; it comes last among those of its time. A box whose key isn't below
    /// the number of keys for which there is room has no clock.
    pub fn set_clock(&mut self, owner: u32, time: Time)
        ensures set { owner < self.old.timers.end →
            self.new.timers.clocks.clocks ≡ without owner self.old.timers.clocks.clocks ++ record { time = time; owner = owner } ∷ [] }
        ensures other { self.old.timers.end ≤ owner → self.new.timers.clocks ≡ self.old.timers.clocks }
        ensures end { self.new.timers.end ≡ self.old.timers.end }
        ensures tree { self.new.grove ≡ self.old.grove }
        ensures rest { RestStays self.old self.new }
    {
        self.timers.set(owner, time);
    }

    /// Takes away the clock of a box, where it has one.
    pub fn clear_clock(&mut self, owner: u32)
        ensures clocks { self.new.timers.clocks.clocks ≡ without owner self.old.timers.clocks.clocks }
        ensures end { self.new.timers.end ≡ self.old.timers.end }
        ensures tree { self.new.grove ≡ self.old.grove }
        ensures rest { RestStays self.old self.new }
    {
        self.timers.clear(owner);
    }

    /// Takes off and gives the first that was set among the clocks of the least time, where that time is below the limit.
    pub fn next_clock(&mut self, limit: Time) -> Option<(Time, u32)>
        ensures none { IfNone result ((self.new.timers.clocks ≡ self.old.timers.clocks) × AllByRecursion (λ c. limit ≤ c.time) self.old.timers.clocks.clocks) }
        ensures some { IfSome result (λ r. (r.0 < limit) × IsTaken self.old.timers.clocks.clocks self.new.timers.clocks.clocks (record { time = r.0; owner = r.1 })) }
        ensures end { self.new.timers.end ≡ self.old.timers.end }
        ensures tree { self.new.grove ≡ self.old.grove }
        ensures rest { RestStays self.old self.new }
    {
        self.timers.next_before(limit)
    }
}

/// Sets a value of a table, where its size is above the index.
fn write_value(state: &mut State, index: u32, value: Num)
    ensures { state.new ≡ with_value state.old index value }
{
    if has_value(state, index) {
        state.write_table(index, value);
    }
}

fn has_value(state: &State, index: u32) -> bool
    ensures there { result ≡ true → IfNone (table_of state.now) ⊥ }
    ensures within { result ≡ true → IfSome (table_of state.now) (λ values. index < length values) }
    ensures outside { result ≡ false → (z : ℤ) → with_value state.now index z ≡ state.now }
{
    match state.table() {
        Some(values) => (index as usize) < values.len(),
        None => false,
    }
}
