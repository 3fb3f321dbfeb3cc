//! Slots in the order in which they were set, and the heap of the soonest.

ghost use Rattle.std.specs.Prelude.{◌≡◌, ℕ, ◌+◌, ◌<◌, ◌≤◌, ◌++◌, ◌∷◌, [], true, Option, IfSome, IfNone, length, vec_len, vec_capacity};
ghost use Rattle.std.specs.BinaryHeap.{heap_items, heap_len, heap_capacity, IsHeap};
ghost use Rattle.std.specs.List.{AllByRecursion};
ghost use Rattle.pd_clock.specs.Index.{IsIndexOf, place_of};
ghost use Rattle.pd_clock.specs.Queue.{IsTaken, without, AreApart};
ghost use Rattle.pd_clock.specs.Slots.{live_clocks, order, AreTracked, AreKeys, IsLiveTop, key, dead_of};

use crate::times::Time;
use indexmap::IndexMap;
use std::cmp::Reverse;
use std::collections::BinaryHeap;

/// A clock that is or was set: its time in units, and whose it is.
#[derive(Clone, Copy)]
pub(crate) struct Slot {
    pub(crate) time: u128,
    pub(crate) owner: u32,
    pub(crate) live: bool,
}

/// The greatest key whose slot is live, after the stale ones above it went.
pub(crate) fn live_top(
    slots: &[Slot],
    heap: &mut BinaryHeap<Reverse<(u128, usize)>>,
) -> Option<(u128, usize)>
    requires order { IsHeap order (heap_items heap.old) }
    requires tracked { AreTracked (heap_items heap.old) 0 slots.now }
    requires keys { AreKeys slots.now (heap_items heap.old) }
    ensures order { IsHeap order (heap_items heap.new) }
    ensures tracked { AreTracked (heap_items heap.new) 0 slots.now }
    ensures keys { AreKeys slots.now (heap_items heap.new) }
    ensures none { IfNone result (live_clocks slots.now ≡ []) }
    ensures some { IfSome result (λ k. IsLiveTop slots.now (heap_items heap.new) (key k.0 k.1)) }
    ensures capacity { heap_capacity heap.new ≡ heap_capacity heap.old }
    ensures fewer { heap_len heap.new ≤ heap_len heap.old }
{
    while let Some(top) = heap.peek() {
        let (time, place) = top.0;
        if slots[place].live {
            return Some((time, place));
        }
        heap.pop();
    }
    None
}

/// Takes off the first among the clocks of the least time, where it is below a limit.
pub(crate) fn take_before(
    slots: &mut Vec<Slot>,
    heap: &mut BinaryHeap<Reverse<(u128, usize)>>,
    limit: u128,
) -> Option<(Time, u32)>
    requires order { IsHeap order (heap_items heap.old) }
    requires tracked { AreTracked (heap_items heap.old) 0 slots.old.items }
    requires keys { AreKeys slots.old.items (heap_items heap.old) }
    ensures order { IsHeap order (heap_items heap.new) }
    ensures tracked { AreTracked (heap_items heap.new) 0 slots.new.items }
    ensures keys { AreKeys slots.new.items (heap_items heap.new) }
    ensures none { IfNone result ((slots.new.items ≡ slots.old.items) × AllByRecursion (λ c. limit ≤ c.time) (live_clocks slots.old.items)) }
    ensures some { IfSome result (λ r. (r.0 < limit) × IsTaken (live_clocks slots.old.items) (live_clocks slots.new.items) (record { time = r.0; owner = r.1 })) }
    ensures apart { AreApart (live_clocks slots.old.items) → AreApart (live_clocks slots.new.items) }
    ensures shorter { length (live_clocks slots.new.items) ≤ length (live_clocks slots.old.items) }
    ensures places { (at : ℕ → Option ℕ) → IsIndexOf at slots.old.items → IsIndexOf at slots.new.items }
    ensures fewer { heap_len heap.new ≤ heap_len heap.old }
    ensures len { vec_len slots.new ≡ vec_len slots.old }
    ensures capacity { vec_capacity slots.new ≡ vec_capacity slots.old }
    ensures heap_capacity { heap_capacity heap.new ≡ heap_capacity heap.old }
{
    match live_top(slots, heap) {
        Some((time, place)) => {
            if limit <= time {
                return None;
            }
            let slot = slots[place];
            heap.pop();
            slots[place] = Slot {
                time: slot.time,
                owner: slot.owner,
                live: false,
            };
            Some((Time::of_units(slot.time), slot.owner))
        }
        None => None,
    }
}

/// Puts a clock last.
pub(crate) fn add(
    slots: &mut Vec<Slot>,
    heap: &mut BinaryHeap<Reverse<(u128, usize)>>,
    time: u128,
    owner: u32,
)
    requires order { IsHeap order (heap_items heap.old) }
    requires tracked { AreTracked (heap_items heap.old) 0 slots.old.items }
    requires keys { AreKeys slots.old.items (heap_items heap.old) }
    requires room { vec_len slots.old < vec_capacity slots.old }
    requires heap_room { heap_len heap.old < heap_capacity heap.old }
    ensures order { IsHeap order (heap_items heap.new) }
    ensures tracked { AreTracked (heap_items heap.new) 0 slots.new.items }
    ensures keys { AreKeys slots.new.items (heap_items heap.new) }
    ensures items { slots.new.items ≡ slots.old.items ++ record { time = time; owner = owner; live = true } ∷ [] }
    ensures clocks { live_clocks slots.new.items ≡ live_clocks slots.old.items ++ record { time = time; owner = owner } ∷ [] }
    ensures len { vec_len slots.new ≡ vec_len slots.old + 1 }
    ensures heap_len { heap_len heap.new ≡ heap_len heap.old + 1 }
    ensures capacity { vec_capacity slots.new ≡ vec_capacity slots.old }
    ensures heap_capacity { heap_capacity heap.old ≤ heap_capacity heap.new }
{
    let place = slots.len();
    if heap.push(Reverse((time, place))).is_ok() {
        slots.push_reserved(Slot {
            time,
            owner,
            live: true,
        });
    }
}

/// Lets the owner's slot die, which its place leads to.
pub(crate) fn kill_owner(slots: &mut Vec<Slot>, places: &IndexMap<u32, usize>, owner: u32)
    requires places { IsIndexOf (place_of places.now) slots.old.items }
    ensures items { slots.new.items ≡ dead_of owner slots.old.items }
    ensures clocks { live_clocks slots.new.items ≡ without owner (live_clocks slots.old.items) }
    ensures len { vec_len slots.new ≡ vec_len slots.old }
    ensures capacity { vec_capacity slots.new ≡ vec_capacity slots.old }
{
    kill_at_place(slots, places, owner);
}

/// Lets the slot die that the owner's place leads to.
fn kill_at_place(slots: &mut Vec<Slot>, places: &IndexMap<u32, usize>, owner: u32)
    requires places { IsIndexOf (place_of places.now) slots.old.items }
    ensures items { slots.new.items ≡ dead_of owner slots.old.items }
    ensures len { vec_len slots.new ≡ vec_len slots.old }
    ensures capacity { vec_capacity slots.new ≡ vec_capacity slots.old }
{
    match places.get(&owner) {
        Some(found) => {
            let place = *found;
            let last = slots[place];
            let dead = Slot {
                time: last.time,
                owner: last.owner,
                live: false,
            };
            slots[place] = dead;
        }
        None => {}
    }
}
