//! `delwrite~` and `delread~` over a block.

ghost use Rattle.std.specs.Prelude.{◌≡◌, ◌<◌, ◌≤◌, ◌-◌, ◌+◌, ◌^◌, length};
ghost use Rattle.pd_kind.specs.States.{line_length};
ghost use Rattle.pd_signal.specs.Boxes.{IsRing};
ghost use Rattle.pd_signal.specs.Rings.{place_after as place_after_place, places_on as places_on_from, places_back as places_back_from, written, read_from};
ghost use Rattle.pd_signal.specs.Delays.{way_back as way_back_of, delayed};

use pd_clock::Rate;
use pd_kind::{Line, Samples};
use pd_num::{Num, Sig};

/// The place after a place of a ring of so many values.
fn place_after(count: usize, at: usize) -> usize
    requires { at < count }
    ensures value { result ≡ place_after_place count at }
    ensures within { result < count }
{
    if at + 1 == count { 0 } else { at + 1 }
}

/// The place 64 places on.
fn block_on(count: usize, at: u32) -> u32
    requires block { 64 ≤ count }
    requires within { at < count }
    requires small { count ≤ 2 ^ 32 }
    ensures value { result ≡ places_on_from count at 64 }
    ensures within { result < count }
{
    let next = at as usize + 64;
    if next < count {
        next as u32
    } else {
        (next - count) as u32
    }
}

/// Writes a block into a ring from a place on.
fn write_from(ring: &mut Samples, from: usize, x: &[Sig; 64])
    requires { from < length ring.old }
    ensures ring { ring.new ≡ written ring.old from x.now }
    ensures same { length ring.new ≡ length ring.old }
{
    let count = ring.as_slice().len();
    let mut at = from;
    for i in 0..64 {
        ring.set(at, x[i]);
        at = place_after(count, at);
    }
}

/// Writes a block at the next places of a ring, and leads on to the places after it.
pub(crate) fn write_line(ring: &mut Samples, next: &mut u32, x: &[Sig; 64])
    requires block { 64 ≤ length ring.old }
    requires within { next.old < length ring.old }
    requires small { length ring.old ≤ 2 ^ 32 }
    ensures ring { ring.new ≡ written ring.old next.old x.now }
    ensures next { next.new ≡ places_on_from (length ring.old) next.old 64 }
    ensures sized { IsRing ring.new next.new }
{
    let from = *next;
    write_from(ring, from as usize, x);
    *next = block_on(ring.as_slice().len(), from);
}

/// How many samples a time in milliseconds is, 0 where it is negative.
fn delay_of(rate: Rate, time: Num) -> u64
    ensures { result ≡ line_length rate time }
{
    let micros = time.micros();
    if micros < 0 {
        return 0;
    }
    let units = micros as u128 * u128::from(rate.hz());
    (units / 1_000_000_000) as u64
}

/// How far back from the place of the next sample a reader begins.
fn way_back(count: usize, ran: bool, delay: u64) -> usize
    requires { 64 ≤ count }
    ensures value { result ≡ way_back_of count ran delay }
    ensures within { result ≤ count }
{
    let delay = (delay as usize).min(count - 64);
    if ran { delay + 64 } else { delay.max(64) }
}

/// The place so many places back.
fn places_back(count: usize, at: usize, back: usize) -> usize
    requires within { at < count }
    requires back { back ≤ count }
    ensures value { result ≡ places_back_from count at back }
    ensures within { result < count }
{
    if at < back {
        at + (count - back)
    } else {
        at - back
    }
}

/// The 64 values of a ring from a place on.
fn read(ring: &[Sig], from: usize, out: &mut [Sig; 64])
    requires block { 64 ≤ length ring.now }
    requires within { from < length ring.now }
    ensures { out.new ≡ read_from ring.now from }
{
    let first = (ring.len() - from).min(64);
    let (front, back) = out.split_at_mut(first);
    front.copy_from_slice(&ring[from..from + first]);
    back.copy_from_slice(&ring[..64 - first]);
}

/// What a reader of this delay in milliseconds gives.
pub(crate) fn read_line(ring: &[Sig], line: Line, rate: Rate, time: Num, out: &mut [Sig; 64])
    requires block { 64 ≤ length ring.now }
    requires within { line.next < length ring.now }
    ensures { out.new ≡ delayed ring.now line rate time }
{
    let back = way_back(ring.len(), line.ran, delay_of(rate, time));
    let from = places_back(ring.len(), line.next as usize, back);
    read(ring, from, out);
}
