//! Ends of ports that go.

ghost use Rattle.std.specs.Prelude.{◌≡◌, ℕ, true, false, Some, slice_get};
ghost use Rattle.pd_wire.specs.Book.{IsEnd};
ghost use Rattle.pd_web.specs.declared.sockets.Spot.{Spot};
ghost use Rattle.pd_ports.specs.Ends.{AreLive, Drops, HasLiveEnds, IsAmong, IsEndOf, end_in};
ghost use Rattle.pd_ports.specs.Moves.{IsLeft};

use crate::taking::{end_at, is_same};
use pd_web::{Port, Sockets, Spot};
use pd_wire::{End, WireBook};

/// Drops the ends of a box's ports, but for ends that still have wires.
pub(crate) fn drop_ends(book: &mut WireBook, own: &Sockets)
    requires { HasLiveEnds book.old own.now }
    ensures { Drops book.old book.new (IsEndOf own.now) }
{
    drop_side(book, own.inlets.as_slice());
    drop_side(book, own.outlets.as_slice());
}

fn drop_side(book: &mut WireBook, ports: &[Port])
    requires { AreLive book.old ports.now }
    ensures { Drops book.old book.new (IsAmong ports.now) }
{
    for port in ports {
        drop_end_of(book, port.end);
    }
}

/// Drops the ends of old ports that no new one has, but for ends that still have wires. It is known of each end of a new one which port
/// it is.
pub(crate) fn drop_left(book: &mut WireBook, spots: &[Spot], old: &[Port], new: &[Port])
    requires live { AreLive book.old old.now }
    requires told { (m e : ℕ) → end_in new.now m ≡ Some e → (s : Spot) × (slice_get spots.now e ≡ Some s) × (s.port ≡ m) }
    ensures { Drops book.old book.new (IsLeft old.now new.now) }
{
    for port in old {
        drop_left_end(book, spots, new, port.end);
    }
}

fn drop_left_end(book: &mut WireBook, spots: &[Spot], new: &[Port], end: Option<u32>)
    requires live { (e : ℕ) → end ≡ Some e → IsEnd book.old e }
    requires told { (m e : ℕ) → end_in new.now m ≡ Some e → (s : Spot) × (slice_get spots.now e ≡ Some s) × (s.port ≡ m) }
    ensures { Drops book.old book.new (λ e. (end ≡ Some e) × (IsAmong new.now e → ⊥)) }
{
    if !is_taken(spots, new, end) {
        drop_end_of(book, end);
    }
}

/// Whether an end is that of one of these ports.
fn is_taken(spots: &[Spot], ports: &[Port], end: Option<u32>) -> bool
    requires told { (m e : ℕ) → end_in ports.now m ≡ Some e → (s : Spot) × (slice_get spots.now e ≡ Some s) × (s.port ≡ m) }
    ensures taken { (e : ℕ) → end ≡ Some e → result ≡ true → IsAmong ports.now e }
    ensures left { (e : ℕ) → end ≡ Some e → result ≡ false → IsAmong ports.now e → ⊥ }
{
    let Some(number) = end else {
        return false;
    };
    match spots.get(number as usize) {
        Some(spot) => is_same(end_at(ports, spot.port as usize), end),
        None => false,
    }
}

fn drop_end_of(book: &mut WireBook, end: Option<u32>)
    requires { (e : ℕ) → end ≡ Some e → IsEnd book.old e }
    ensures { Drops book.old book.new (λ e. end ≡ Some e) }
{
    if let Some(number) = end {
        drop_bare(book, End::of_number(number as usize));
    }
}

/// Drops an end, but where it has a wire.
fn drop_bare(book: &mut WireBook, end: End)
    requires { IsEnd book.old end }
    ensures { Drops book.old book.new (λ e. e ≡ end) }
{
    if book.fan_first(end).is_none() && book.feed_first(end).is_none() {
        book.drop_end(end);
    }
}
