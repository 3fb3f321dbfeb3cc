//! Room for slots: dead ones go, and memory is taken.

ghost use Rattle.std.specs.Prelude.{◌≡◌, ℕ, ◌+◌, ◌^◌, ◌<◌, ◌≤◌, ◌∷◌, [], true, Some, OnOk, if◌then◌else◌, nat_eq, IsPermutation, length, vec_len, vec_capacity};
ghost use Rattle.std.specs.BinaryHeap.{heap_items, heap_len, heap_capacity, IsHeap};
ghost use Rattle.std.specs.List.{AllByRecursion};
ghost use Rattle.indexmap.specs.IndexMap.{IsEmpty, IsUnchanged, index_map_len, spare};
ghost use Rattle.pd_clock.specs.Index.{IsIndexOf, place_of};
ghost use Rattle.pd_clock.specs.Queue.{AreApart};
ghost use Rattle.pd_clock.specs.Slots.{live_clocks, order, AreTracked, AreKeys, key};

use crate::slots::Slot;
use indexmap::IndexMap;
use std::alloc::AllocError;
use std::cmp::Reverse;
use std::collections::BinaryHeap;

/// Puts a key into a heap that has room.
fn push_key(heap: &mut BinaryHeap<Reverse<(u128, usize)>>, time: u128, place: usize)
    requires { heap_len heap.old < heap_capacity heap.old }
    ensures permutation { IsPermutation (key time place ∷ heap_items heap.old) (heap_items heap.new) }
    ensures order { IsHeap order (heap_items heap.old) → IsHeap order (heap_items heap.new) }
    ensures len { heap_len heap.new ≡ heap_len heap.old + 1 }
    ensures capacity { heap_capacity heap.old ≤ heap_capacity heap.new }
{
    let _done = heap.push(Reverse((time, place))).is_ok();
}

/// Puts the keys of all slots into an empty heap.
fn fill(slots: &[Slot], heap: &mut BinaryHeap<Reverse<(u128, usize)>>)
    requires order { IsHeap order (heap_items heap.old) }
    requires empty { heap_items heap.old ≡ [] }
    requires len { heap_len heap.old ≡ 0 }
    requires room { length slots.now ≤ heap_capacity heap.old }
    ensures order { IsHeap order (heap_items heap.new) }
    ensures tracked { AreTracked (heap_items heap.new) 0 slots.now }
    ensures keys { AreKeys slots.now (heap_items heap.new) }
    ensures len { heap_len heap.new ≡ length slots.now }
    ensures capacity { heap_capacity heap.old ≤ heap_capacity heap.new }
{
    for place in 0..slots.len() {
        let slot = slots[place];
        push_key(heap, slot.time, place);
    }
}

/// Notes the place of an owner's last slot.
pub(crate) fn note(places: &mut IndexMap<u32, usize>, owner: u32, place: usize)
    requires { 0 < spare places.old }
    ensures noted { (o : ℕ) → place_of places.new o ≡ (if nat_eq owner o then Some place else place_of places.old o) }
    ensures len { index_map_len places.new ≤ index_map_len places.old + 1 }
    ensures capacity { index_map_len places.old + spare places.old ≤ index_map_len places.new + spare places.new }
{
    match places.get_mut(&owner) {
        Some(found) => *found = place,
        None => {
            let _ = places.insert(owner, place);
        }
    }
}

/// Notes the places of all slots, which are live, in an empty index.
fn note_all(slots: &[Slot], places: &mut IndexMap<u32, usize>)
    requires empty { IsEmpty places.old }
    requires len { index_map_len places.old ≡ 0 }
    requires room { length slots.now ≤ spare places.old }
    requires live { AllByRecursion (λ s. s.live ≡ true) slots.now }
    requires apart { AreApart (live_clocks slots.now) }
    ensures places { IsIndexOf (place_of places.new) slots.now }
    ensures len { index_map_len places.new ≤ length slots.now }
    ensures capacity { spare places.old ≤ index_map_len places.new + spare places.new }
{
    for place in 0..slots.len() {
        let slot = slots[place];
        note(places, slot.owner, place);
    }
}

/// Lets the dead slots go.
fn compact(
    slots: &mut Vec<Slot>,
    heap: &mut BinaryHeap<Reverse<(u128, usize)>>,
    places: &mut IndexMap<u32, usize>,
)
    requires room { vec_len slots.old ≤ heap_capacity heap.old }
    requires places_room { vec_len slots.old ≤ index_map_len places.old + spare places.old }
    requires apart { AreApart (live_clocks slots.old.items) }
    ensures order { IsHeap order (heap_items heap.new) }
    ensures tracked { AreTracked (heap_items heap.new) 0 slots.new.items }
    ensures keys { AreKeys slots.new.items (heap_items heap.new) }
    ensures clocks { live_clocks slots.new.items ≡ live_clocks slots.old.items }
    ensures len { length slots.new.items ≡ length (live_clocks slots.old.items) }
    ensures heap_len { heap_len heap.new ≡ length slots.new.items }
    ensures capacity { vec_capacity slots.new ≡ vec_capacity slots.old }
    ensures heap_capacity { heap_capacity heap.old ≤ heap_capacity heap.new }
    ensures places { IsIndexOf (place_of places.new) slots.new.items }
    ensures places_len { index_map_len places.new ≤ length slots.new.items }
    ensures places_capacity { index_map_len places.old + spare places.old ≤ index_map_len places.new + spare places.new }
{
    slots.retain(|s| s.live);
    heap.clear();
    fill(slots, heap);
    places.clear();
    note_all(slots, places);
}

/// Makes room for one more slot, without taking memory.
pub(crate) fn make_room(
    slots: &mut Vec<Slot>,
    heap: &mut BinaryHeap<Reverse<(u128, usize)>>,
    places: &mut IndexMap<u32, usize>,
)
    requires order { IsHeap order (heap_items heap.old) }
    requires tracked { AreTracked (heap_items heap.old) 0 slots.old.items }
    requires keys { AreKeys slots.old.items (heap_items heap.old) }
    requires fits { heap_len heap.old ≤ vec_len slots.old }
    requires caps { vec_capacity slots.old ≤ heap_capacity heap.old }
    requires space { length (live_clocks slots.old.items) < vec_capacity slots.old }
    requires apart { AreApart (live_clocks slots.old.items) }
    requires places { IsIndexOf (place_of places.old) slots.old.items }
    requires places_fit { index_map_len places.old ≤ vec_len slots.old }
    requires places_caps { vec_capacity slots.old ≤ index_map_len places.old + spare places.old }
    ensures order { IsHeap order (heap_items heap.new) }
    ensures tracked { AreTracked (heap_items heap.new) 0 slots.new.items }
    ensures keys { AreKeys slots.new.items (heap_items heap.new) }
    ensures fits { heap_len heap.new ≤ vec_len slots.new }
    ensures room { vec_len slots.new < vec_capacity slots.new }
    ensures clocks { live_clocks slots.new.items ≡ live_clocks slots.old.items }
    ensures capacity { vec_capacity slots.new ≡ vec_capacity slots.old }
    ensures caps { vec_capacity slots.new ≤ heap_capacity heap.new }
    ensures places { IsIndexOf (place_of places.new) slots.new.items }
    ensures places_fit { index_map_len places.new ≤ vec_len slots.new }
    ensures places_caps { vec_capacity slots.new ≤ index_map_len places.new + spare places.new }
{
    if slots.len() == slots.capacity() {
        compact(slots, heap, places);
    }
}

/// Takes memory for at least twice as many slots as there is to be room for, so that compaction is rare.
pub(crate) fn make_space(
    slots: &mut Vec<Slot>,
    heap: &mut BinaryHeap<Reverse<(u128, usize)>>,
    places: &mut IndexMap<u32, usize>,
    room: usize,
) -> Result<(), AllocError>
    requires small { room ≤ 2 ^ 40 }
    requires fits { heap_len heap.old ≤ vec_len slots.old }
    requires caps { vec_capacity slots.old ≤ heap_capacity heap.old }
    requires places_fit { index_map_len places.old ≤ vec_len slots.old }
    requires places_caps { vec_capacity slots.old ≤ index_map_len places.old + spare places.old }
    ensures items { slots.new.items ≡ slots.old.items }
    ensures len { vec_len slots.new ≡ vec_len slots.old }
    ensures keys { heap_items heap.new ≡ heap_items heap.old }
    ensures keys_len { heap_len heap.new ≡ heap_len heap.old }
    ensures entries { IsUnchanged places.old places.new }
    ensures caps { vec_capacity slots.new ≤ heap_capacity heap.new }
    ensures places_caps { vec_capacity slots.new ≤ index_map_len places.new + spare places.new }
    ensures capacity { vec_capacity slots.old ≤ vec_capacity slots.new }
    ensures ok { OnOk result (room ≤ vec_capacity slots.new) }
{
    if 2 * room <= slots.capacity() {
        return Ok(());
    }
    let wanted = 4 * room;
    heap.reserve(wanted - heap.len())?;
    places.reserve(wanted - places.len())?;
    slots.reserve_exact(wanted - slots.len())
}
