//! What a box that works with messages as a whole does with a message.

ghost use Rattle.std.specs.Prelude.{◌≡◌, ◌≤◌, length};
ghost use Rattle.pd_object.specs.Ports.{IsSmallGlue};
ghost use Rattle.pd_kind.specs.Fit.{IsLike};
ghost use Rattle.pd_kind.specs.Said.{said_by};
ghost use Rattle.pd_list.specs.Rows.{IsSmallState, list_row};

use crate::choices::{hear_route, hear_select};
use crate::lists::{hear_append, hear_length, hear_prepend, hear_split, hear_trim};
use crate::outlets::hear_trigger;
use crate::slots::{hear_pack, hear_unpack};
use pd_atom::{Atom, Sym};
use pd_kind::{Glue, Sends, State};

/// What a box that keeps `state` does with a message at an inlet: the state after it, and in `out` what is said. Inlet 0 is
/// that on the left. A box of another kind, or one that keeps the state of another kind, hears nothing.
#[tactic(auto, unfolding(crate::specs::Rows::list_row))]
pub fn hear_list(
    glue: &Glue,
    state: &mut State,
    inlet: u32,
    selector: Sym,
    atoms: &[Atom],
    out: &mut Sends,
)
    requires short { length atoms.now ≤ 1024 }
    requires kind { IsSmallGlue glue.now }
    requires state { IsSmallState state.old }
    ensures heard { record { state = state.new; said = said_by out.new } ≡ list_row glue.now state.old inlet selector atoms.now }
    ensures small { IsSmallState state.new }
    ensures kept { IsLike state.old state.new }
{
    match (glue, state) {
        (Glue::Trigger { outlets, .. }, _) => {
            hear_trigger(outlets.as_slice(), selector, atoms, out);
        }
        (Glue::Pack { slots }, State::Pack { slots: kept }) => {
            hear_pack(slots.as_slice(), kept, inlet, selector, atoms, out);
        }
        (Glue::Unpack { slots }, _) => hear_unpack(slots.as_slice(), selector, atoms, out),
        (Glue::Route { .. }, State::Route { arguments }) => {
            hear_route(arguments, inlet, selector, atoms, out);
        }
        (Glue::Select { .. }, State::Select { arguments }) => {
            hear_select(arguments, inlet, selector, atoms, out);
        }
        (Glue::ListAppend { .. }, State::ListAppend { stored }) => {
            hear_append(stored, inlet, selector, atoms, out);
        }
        (Glue::ListPrepend { .. }, State::ListPrepend { stored }) => {
            hear_prepend(stored, inlet, selector, atoms, out);
        }
        (Glue::ListSplit { .. }, State::ListSplit { count }) => {
            hear_split(count, inlet, selector, atoms, out);
        }
        (Glue::ListTrim, _) => hear_trim(selector, atoms, out),
        (Glue::ListLength, _) => hear_length(selector, atoms, out),
        _ => out.say_nothing(),
    }
}
