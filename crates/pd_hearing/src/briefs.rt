//! Brief messages, and the boxes that answer one with at most another one.

ghost use Rattle.std.specs.Prelude.{◌≡◌, ◌≤◌, ◌&&◌, ℕ, true, false, length, None, IfSome, IfNone};
ghost use Rattle.pd_atom.specs.Names.{Names};
ghost use Rattle.pd_arith.specs.Rows.{binary_of, pair_row, arith_row};
ghost use Rattle.pd_plain.specs.Values.{leaves, float_row, int_row};
ghost use Rattle.pd_object.specs.declared.kinds.Kind.TheVariants.{Arith as ArithKind, Glue as GlueKind};
ghost use Rattle.pd_kind.specs.declared.states.State.TheVariants.{Float as FloatState, Int as IntState, Until as UntilState};
ghost use Rattle.pd_glue.specs.Rows.{glue_heard, resumed as kind_resumed};
ghost use Rattle.pd_plain.specs.Timed.{until_resumed};
ghost use Rattle.pd_plain.specs.Rows.{value_row, resumed as glue_resumed};
ghost use Rattle.pd_grove.specs.Telling.{kind_in, with_state};
ghost use Rattle.pd_hearing.specs.Outlets.{is_outlet_glue, is_outlet_kind, is_outlet};
ghost use Rattle.pd_hearing.specs.declared.briefs.Brief.TheVariants.{Bang as BangBrief, Float as FloatBrief};
ghost use Rattle.pd_hearing.specs.Worlds.{net_of, states_of};
ghost use Rattle.pd_hearing.specs.Guards as guard;
ghost use Rattle.pd_hearing.specs.Hearing.{heard_at as reply_at, heard_kind, box_heard, box_resumed, resumed_at, glue_table, table_name};
ghost use Rattle.pd_hearing.specs.Briefs.{selector_of, atoms_of, said_of, again, IfHeard, IfUnheard, is_heard, is_taken, is_value, is_answered, is_answered_in, is_answered_at, is_asked, is_asked_in, has_turn_left, has_turn, has_turn_in, has_turn_at};

use pd_arith::{Binary, compute};
use pd_grove::Node;
use pd_kind::{Arith, Glue, Kind, Operation, Side, State};
use pd_num::Num;
use pd_patch::Patch;

/// A message without atoms, or of one number.
#[derive(Clone, Copy, Debug, PartialEq, Eq, Drop)]
pub enum Brief {
    Bang,
    Float(Num),
}

/// What comes of a brief message at a box.
#[derive(Clone, Copy, Debug, PartialEq, Eq, Drop)]
pub enum Reaction {
    /// The box isn't known to say at most a brief message, and has heard nothing.
    Unheard,
    /// It says nothing.
    Silent,
    /// It says a brief message to its first outlet.
    Says,
}

/// Which boxes are asked: those to which most brief messages go, a `float` or an operation as `+`, or all.
#[derive(Clone, Copy, Debug, PartialEq, Eq, Drop)]
pub enum Asked {
    Common,
    All,
}

/// The number of a brief message; `None` for a bang.
#[inline(always)]
fn number_of(message: Brief) -> Option<Num>
    ensures number { IfSome result (λ z. message ≡ FloatBrief z) }
    ensures bang { IfNone result (message ≡ BangBrief) }
{
    match message {
        Brief::Float(number) => Some(number),
        Brief::Bang => None,
    }
}

/// The brief message of a number.
#[inline(always)]
fn float_of(number: Num) -> Brief
    ensures { result ≡ FloatBrief number }
{
    Brief::Float(number)
}

/// What an object computes of its two numbers, out of the way of the sum.
#[inline(never)]
fn computed(binary: Binary, left: Num, right: Num) -> Num
    ensures { result ≡ binary_of binary left right }
{
    compute(binary, left, right)
}

/// What an object computes of its two numbers. A sum needs no call.
#[inline(always)]
fn value_of(binary: Binary, left: Num, right: Num) -> Num
    ensures { result ≡ binary_of binary left right }
{
    match binary {
        Binary::Operation(Operation::Add) => left.add(right),
        _ => computed(binary, left, right),
    }
}

/// An object with two inlets hears a brief message, in whose place comes what it says.
#[inline(always)]
fn pair_hears(
    binary: Binary,
    left: &mut Num,
    right: &mut Num,
    inlet: u32,
    message: &mut Brief,
) -> Reaction
    ensures answered { is_heard result ≡ is_taken inlet message.old }
    ensures heard { IfHeard result (record { left = left.new; right = right.new; said = said_of result message.new } ≡ pair_row binary left.old right.old inlet (selector_of message.old) (atoms_of message.old)) }
    ensures left { IfUnheard result (left.new ≡ left.old) }
    ensures right { IfUnheard result (right.new ≡ right.old) }
    ensures same { IfUnheard result (message.new ≡ message.old) }
{
    match number_of(*message) {
        Some(number) => {
            if inlet == 0 {
                *left = number;
                *message = float_of(value_of(binary, number, *right));
                Reaction::Says
            } else {
                *right = number;
                Reaction::Silent
            }
        }
        None => {
            if inlet == 0 {
                *message = float_of(value_of(binary, *left, *right));
                Reaction::Says
            } else {
                Reaction::Unheard
            }
        }
    }
}

/// `float` hears a brief message.
#[inline(always)]
fn float_hears(value: &mut Num, inlet: u32, message: &mut Brief) -> Reaction
    ensures answered { is_heard result ≡ is_taken inlet message.old }
    ensures heard { IfHeard result (leaves (FloatState value.new) (said_of result message.new) ≡ float_row value.old inlet (selector_of message.old) (atoms_of message.old)) }
    ensures stays { IfUnheard result (value.new ≡ value.old) }
    ensures same { IfUnheard result (message.new ≡ message.old) }
{
    match number_of(*message) {
        Some(number) => {
            *value = number;
            if inlet == 0 {
                Reaction::Says
            } else {
                Reaction::Silent
            }
        }
        None => {
            if inlet == 0 {
                *message = float_of(*value);
                Reaction::Says
            } else {
                Reaction::Unheard
            }
        }
    }
}

/// `int` hears a brief message.
#[inline(always)]
fn int_hears(value: &mut Num, inlet: u32, message: &mut Brief) -> Reaction
    ensures answered { is_heard result ≡ is_taken inlet message.old }
    ensures heard { IfHeard result (leaves (IntState value.new) (said_of result message.new) ≡ int_row value.old inlet (selector_of message.old) (atoms_of message.old)) }
    ensures stays { IfUnheard result (value.new ≡ value.old) }
    ensures same { IfUnheard result (message.new ≡ message.old) }
{
    match number_of(*message) {
        Some(number) => {
            let whole = number.trunc();
            *value = whole;
            if inlet == 0 {
                *message = float_of(whole);
                Reaction::Says
            } else {
                Reaction::Silent
            }
        }
        None => {
            if inlet == 0 {
                let whole = value.trunc();
                *value = whole;
                *message = float_of(whole);
                Reaction::Says
            } else {
                Reaction::Unheard
            }
        }
    }
}

/// An arithmetic object hears a brief message.
#[inline(always)]
fn arith_hears(arith: &Arith, state: &mut State, inlet: u32, message: &mut Brief) -> Reaction
    ensures answered { is_heard result ≡ is_answered (ArithKind arith.now) state.old inlet message.old }
    ensures heard { IfHeard result (leaves state.new (said_of result message.new) ≡ arith_row arith.now state.old inlet (selector_of message.old) (atoms_of message.old)) }
    ensures stays { IfUnheard result (state.new ≡ state.old) }
    ensures same { IfUnheard result (message.new ≡ message.old) }
{
    match (arith, state) {
        (Arith::Operation { operation, .. }, State::Operation { left, right }) => {
            pair_hears(Binary::Operation(*operation), left, right, inlet, message)
        }
        (Arith::Comparison { comparison, .. }, State::Comparison { left, right }) => {
            pair_hears(Binary::Comparison(*comparison), left, right, inlet, message)
        }
        (Arith::Division { division, .. }, State::Division { left, right }) => {
            pair_hears(Binary::Division(*division), left, right, inlet, message)
        }
        _ => Reaction::Unheard,
    }
}

/// `float` and `int` hear a brief message.
#[inline(always)]
#[tactic(auto, unfolding(pd_plain::specs::Rows::value_row))]
fn value_hears(glue: &Glue, state: &mut State, inlet: u32, message: &mut Brief) -> Reaction
    ensures answered { is_heard result ≡ (is_value glue.now state.old && is_taken inlet message.old) }
    ensures heard { IfHeard result (leaves state.new (said_of result message.new) ≡ value_row glue.now state.old inlet (selector_of message.old) (atoms_of message.old)) }
    ensures stays { IfUnheard result (state.new ≡ state.old) }
    ensures same { IfUnheard result (message.new ≡ message.old) }
{
    match (glue, state) {
        (Glue::Float { .. }, State::Float { value }) => float_hears(value, inlet, message),
        (Glue::Int { .. }, State::Int { value }) => int_hears(value, inlet, message),
        _ => Reaction::Unheard,
    }
}

/// An object that keeps a value, or one that passes all on, hears a brief message.
#[inline(always)]
#[tactic(auto, unfolding(pd_plain::specs::Rows::plain_row))]
fn glue_hears(glue: &Glue, state: &mut State, inlet: u32, message: &mut Brief) -> Reaction
    ensures answered { is_heard result ≡ is_answered (GlueKind glue.now) state.old inlet message.old }
    ensures heard { (names : Names) (now : ℕ) → IfHeard result (record { state = state.new; names = names; said = said_of result message.new } ≡ glue_heard names glue.now state.old inlet (selector_of message.old) (atoms_of message.old) now None) }
    ensures small { (names : Names) → IfHeard result (guard.is_small_box names glue.now state.old ≡ true) }
    ensures bare { IfHeard result (glue_table glue.now ≡ None) }
    ensures inner { IfHeard result (is_outlet_glue glue.now ≡ false) }
    ensures stays { IfUnheard result (state.new ≡ state.old) }
    ensures same { IfUnheard result (message.new ≡ message.old) }
{
    match glue {
        Glue::Float { .. } | Glue::Int { .. } => value_hears(glue, state, inlet, message),
        Glue::Bang { .. } => {
            *message = Brief::Bang;
            Reaction::Says
        }
        Glue::Receive { .. } => Reaction::Says,
        Glue::Port { side: Side::Inlet } => Reaction::Says,
        _ => Reaction::Unheard,
    }
}

/// An arithmetic object hears a brief message, where it is asked.
#[inline(always)]
fn asked_arith_hears(
    asked: Asked,
    arith: &Arith,
    state: &mut State,
    inlet: u32,
    message: &mut Brief,
) -> Reaction
    ensures answered { is_heard result ≡ (is_asked asked (ArithKind arith.now) && is_answered (ArithKind arith.now) state.old inlet message.old) }
    ensures heard { IfHeard result (leaves state.new (said_of result message.new) ≡ arith_row arith.now state.old inlet (selector_of message.old) (atoms_of message.old)) }
    ensures stays { IfUnheard result (state.new ≡ state.old) }
    ensures same { IfUnheard result (message.new ≡ message.old) }
{
    match (asked, arith) {
        (Asked::All, _) => arith_hears(arith, state, inlet, message),
        (Asked::Common, Arith::Operation { .. }) => arith_hears(arith, state, inlet, message),
        (Asked::Common, _) => Reaction::Unheard,
    }
}

/// One of the other control objects hears a brief message, where it is asked.
#[inline(always)]
fn asked_glue_hears(
    asked: Asked,
    glue: &Glue,
    state: &mut State,
    inlet: u32,
    message: &mut Brief,
) -> Reaction
    ensures answered { is_heard result ≡ (is_asked asked (GlueKind glue.now) && is_answered (GlueKind glue.now) state.old inlet message.old) }
    ensures heard { (names : Names) (now : ℕ) → IfHeard result (record { state = state.new; names = names; said = said_of result message.new } ≡ glue_heard names glue.now state.old inlet (selector_of message.old) (atoms_of message.old) now None) }
    ensures small { (names : Names) → IfHeard result (guard.is_small_box names glue.now state.old ≡ true) }
    ensures bare { IfHeard result (glue_table glue.now ≡ None) }
    ensures inner { IfHeard result (is_outlet_glue glue.now ≡ false) }
    ensures stays { IfUnheard result (state.new ≡ state.old) }
    ensures same { IfUnheard result (message.new ≡ message.old) }
{
    match (asked, glue) {
        (Asked::All, _) => glue_hears(glue, state, inlet, message),
        (Asked::Common, Glue::Float { .. }) => glue_hears(glue, state, inlet, message),
        (Asked::Common, _) => Reaction::Unheard,
    }
}

/// A box of a kind hears a brief message, where it is asked.
#[inline(always)]
fn kind_hears(
    asked: Asked,
    kind: &Kind,
    state: &mut State,
    inlet: u32,
    message: &mut Brief,
) -> Reaction
    ensures answered { is_heard result ≡ (is_asked asked kind.now && is_answered kind.now state.old inlet message.old) }
    ensures heard { (names : Names) (now : ℕ) → 2 ≤ length names → IfHeard result (record { state = state.new; names = names; said = said_of result message.new } ≡ heard_kind names kind.now state.old inlet (selector_of message.old) (atoms_of message.old) now None) }
    ensures bare { IfHeard result (table_name kind.now ≡ None) }
    ensures inner { IfHeard result (is_outlet_kind kind.now ≡ false) }
    ensures stays { IfUnheard result (state.new ≡ state.old) }
    ensures same { IfUnheard result (message.new ≡ message.old) }
{
    match kind {
        Kind::Arith(arith) => asked_arith_hears(asked, arith, state, inlet, message),
        Kind::Glue(glue) => asked_glue_hears(asked, glue, state, inlet, message),
        _ => Reaction::Unheard,
    }
}

/// A box hears a brief message, where it is asked.
#[inline(always)]
fn box_hears(asked: Asked, found: &mut Node, inlet: u32, message: &mut Brief) -> Reaction
    ensures answered { is_heard result ≡ (is_asked_in asked (Some found.old.kind) && is_answered_in (Some found.old.kind) found.old.state inlet message.old) }
    ensures heard { (names : Names) (now : ℕ) → 2 ≤ length names → IfHeard result (record { node = found.new; names = names; said = said_of result message.new } ≡ box_heard names found.old inlet (selector_of message.old) (atoms_of message.old) now) }
    ensures bare { IfHeard result (table_name found.old.kind ≡ None) }
    ensures inner { IfHeard result (is_outlet_kind found.old.kind ≡ false) }
    ensures rest { found.new ≡ with_state found.new.state found.old }
    ensures stays { IfUnheard result (found.new.state ≡ found.old.state) }
    ensures same { IfUnheard result (message.new ≡ message.old) }
{
    match &mut found.state {
        Some(state) => kind_hears(asked, &found.kind, state, inlet, message),
        None => Reaction::Unheard,
    }
}

/// A box that is asked hears a brief message, where it is known to say nothing more than one to its first outlet; in the message's place
/// comes what it says. Other boxes, outlets of canvases among them, have heard nothing then.
#[inline(always)]
pub fn hear_brief(
    patch: &mut Patch,
    asked: Asked,
    node: u32,
    inlet: u32,
    message: &mut Brief,
) -> Reaction
    ensures answered { is_heard result ≡ (is_asked_in asked (kind_in ((net_of patch.old).nodes node)) && is_answered_at (net_of patch.old) (states_of patch.old) node inlet message.old) }
    ensures heard { (names : Names) (now : ℕ) → 2 ≤ length names → IfHeard result (record { states = states_of patch.new; names = names; said = said_of result message.new } ≡ reply_at (net_of patch.old) now (states_of patch.old) names node inlet (selector_of message.old) (atoms_of message.old)) }
    ensures inner { IfHeard result (is_outlet (kind_in ((net_of patch.old).nodes node)) ≡ false) }
    ensures stays { IfUnheard result (states_of patch.new ≡ states_of patch.old) }
    ensures same { IfUnheard result (message.new ≡ message.old) }
    ensures net { net_of patch.new ≡ net_of patch.old }
    ensures clocks { patch.new.timers ≡ patch.old.timers }
{
    match patch.node_mut(node) {
        Some(found) => box_hears(asked, found, inlet, message),
        None => Reaction::Unheard,
    }
}

/// An `until` that is resumed goes on, where it runs and has a turn left: it says a bang and asks to be resumed again.
#[inline(always)]
fn until_goes_on(is_running: bool, count: &mut Option<u32>) -> bool
    ensures answered { result ≡ has_turn_left is_running count.old }
    ensures goes { result ≡ true → leaves (UntilState is_running count.new) again ≡ until_resumed is_running count.old }
    ensures stays { result ≡ false → count.new ≡ count.old }
{
    if !is_running {
        return false;
    }
    match *count {
        None => true,
        Some(0) => false,
        Some(left) => {
            *count = Some(left - 1);
            true
        }
    }
}

/// The same of an object.
#[inline(always)]
#[tactic(auto, unfolding(pd_plain::specs::Rows::resumed))]
fn glue_goes_on(glue: &Glue, state: &mut State) -> bool
    ensures answered { result ≡ has_turn (GlueKind glue.now) state.old }
    ensures goes { result ≡ true → leaves state.new again ≡ glue_resumed glue.now state.old }
    ensures inner { result ≡ true → is_outlet_glue glue.now ≡ false }
    ensures stays { result ≡ false → state.new ≡ state.old }
{
    match (glue, state) {
        (Glue::Until, State::Until { is_running, count }) => until_goes_on(*is_running, count),
        _ => false,
    }
}

/// The same of a box of a kind.
#[inline(always)]
#[tactic(auto, unfolding(pd_glue::specs::Rows::resumed))]
fn kind_goes_on(kind: &Kind, state: &mut State) -> bool
    ensures answered { result ≡ has_turn kind.now state.old }
    ensures goes { result ≡ true → leaves state.new again ≡ kind_resumed kind.now state.old }
    ensures inner { result ≡ true → is_outlet_kind kind.now ≡ false }
    ensures stays { result ≡ false → state.new ≡ state.old }
{
    match kind {
        Kind::Glue(glue) => glue_goes_on(glue, state),
        _ => false,
    }
}

/// The same of a box.
#[inline(always)]
fn box_goes_on(found: &mut Node) -> bool
    ensures answered { result ≡ has_turn_in (Some found.old.kind) found.old.state }
    ensures goes { (names : Names) → result ≡ true → record { node = found.new; names = names; said = again } ≡ box_resumed names found.old }
    ensures inner { result ≡ true → is_outlet_kind found.old.kind ≡ false }
    ensures rest { found.new ≡ with_state found.new.state found.old }
    ensures stays { result ≡ false → found.new.state ≡ found.old.state }
{
    match &mut found.state {
        Some(state) => kind_goes_on(&found.kind, state),
        None => false,
    }
}

/// An `until` that is resumed goes on, where it runs and has a turn left: it says a bang to its outlet and asks to be resumed again. Whether
/// that is so; if not, nothing changed.
#[inline(always)]
pub fn goes_on_at(patch: &mut Patch, node: u32) -> bool
    ensures answered { result ≡ has_turn_at (net_of patch.old) (states_of patch.old) node }
    ensures goes { (names : Names) → result ≡ true → record { states = states_of patch.new; names = names; said = again } ≡ resumed_at (net_of patch.old) (states_of patch.old) names node }
    ensures inner { result ≡ true → is_outlet (kind_in ((net_of patch.old).nodes node)) ≡ false }
    ensures stays { result ≡ false → states_of patch.new ≡ states_of patch.old }
    ensures net { net_of patch.new ≡ net_of patch.old }
    ensures clocks { patch.new.timers ≡ patch.old.timers }
{
    match patch.node_mut(node) {
        Some(found) => box_goes_on(found),
        None => false,
    }
}
