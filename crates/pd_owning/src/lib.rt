//! Which of two boxes comes first in the text of a running patch, and names bound to boxes that come and unbound from
//! boxes that go.
//!
//! `comes_before` tells which of two boxes comes first in text order, by climbing out of both to a canvas that they
//! share: at most so many steps as canvases lie around them, and one comparison of labels. `spot_at` tells how a live
//! box stands in text order, in the patch's own document or not, and `name_at` which name it owns.
//!
//! `bind_box` binds one box to its name at its place among the owners, which it finds by halving, so that the owners
//! are those of the tree again but for boxes that aren't bound yet (`AreOwnersBut`); `unbind_box` takes it out again.
//! All other names' owners stay. `reserve_owner` sets room aside before, and after it binding takes no memory and
//! can't fail. `bind_boxes` and `unbind_boxes` do so for a list of boxes, as that of a box with all that lies in it, which
//! `push_part` tells.
//!
//! Laws: where a box goes with all that lies in it, the owners are those that they were but for these boxes
//! (`owners_follow_boxes`), so boxes are unbound before they go, and bound after they came; these boxes are told in text
//! order (`parts_are_told`).
//!
//! By no clause: that `bind_box` compares the box only as often as the list of the name's owners is halved, and that
//! beside it the two calls go once over the owners of that name alone, of which those behind the box move.
//!
//! Definitions: `Order` (boxes around boxes), `Bound` (owners where some boxes aren't bound, and room for more),
//! `Parts` (a box with all that lies in it).
#![tactic(auto)]

mod bound;
mod laws;
mod order;
mod parts;
mod spots;
mod told;

pub use bound::{bind_box, name_at, reserve_owner, unbind_box};
pub use laws::{owners_follow_boxes, parts_are_told};
pub use order::comes_before;
pub use parts::{bind_boxes, unbind_boxes};
pub use spots::spot_at;
pub use told::push_part;
