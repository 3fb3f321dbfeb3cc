//! Time goes on over a list of ramps.

ghost use Rattle.std.specs.Prelude.{◌≡◌, ℕ, ◌+◌, ◌*◌, ◌≤◌, ◌<◌, ◌^◌, pos, length, drop, slice_index_or, IfSome};
ghost use Rattle.std.specs.List.{All};
ghost use Rattle.pd_kind.specs.Books.{IsShort, IsBook};
ghost use Rattle.pd_vline.specs.Ramps.{AreSamples};
ghost use Rattle.pd_vline.specs.Taken.{front, taken, value_at as value_then};

use crate::values::base_at;
use pd_clock::Time;
use pd_kind::{Ramp, Ramps};
use pd_num::Sig;

/// So many units of time a sample.
const SAMPLE: u128 = 1_000_000_000;

/// How far time is on a list of ramps: the base, and how many ramps it has taken.
#[derive(Clone, Copy, Drop)]
pub(crate) struct Place {
    pub(crate) base: Option<(Ramp, Sig)>,
    pub(crate) count: usize,
}

/// Takes the ramps up to the first that starts at a time or later into the base.
pub(crate) fn advance(place: Place, ramps: &[Ramp], before: u128) -> Place
    requires base { IfSome place.base (λ b. IsShort b.0) }
    requires ramps { All IsShort ramps.now }
    requires within { place.count ≤ length ramps.now }
    ensures taken { front result.base (drop result.count ramps.now) ≡ taken before place.base (drop place.count ramps.now) }
    ensures short { IfSome result.base (λ b. IsShort b.0) }
    ensures within { result.count ≤ length ramps.now }
{
    let mut base = place.base;
    let mut count = place.count;
    while count < ramps.len() {
        let ramp = ramps[count];
        if before <= ramp.start.units() {
            return Place { base, count };
        }
        let value = base_at(&base, ramp.start);
        base = Some((ramp, value));
        count += 1;
    }
    Place { base, count }
}

/// The value at a time.
pub(crate) fn value_at(ramps: &Ramps, time: Time) -> Sig
    requires book { IsBook ramps.now }
    requires early { time ≤ 2 ^ 101 }
    ensures { result ≡ value_then ramps.now.base ramps.now.ramps time }
{
    let place = Place {
        base: ramps.base,
        count: 0,
    };
    let place = advance(place, ramps.ramps.as_slice(), time.units() + 1);
    base_at(&place.base, time)
}

/// The samples of the block that starts at a time, and the place after them.
pub(crate) fn fill(ramps: &Ramps, start: Time, out: &mut [Sig; 64]) -> Place
    requires book { IsBook ramps.now }
    requires early { start ≤ 2 ^ 101 }
    ensures samples { AreSamples out.new (value_then ramps.now.base ramps.now.ramps) start }
    ensures taken { (t : ℕ) → start + 64000000000 ≤ t → taken t result.base (drop result.count ramps.now.ramps) ≡ taken t ramps.now.base ramps.now.ramps }
    ensures short { IfSome result.base (λ b. IsShort b.0) }
    ensures within { result.count ≤ length ramps.now.ramps }
{
    let mut place = Place {
        base: ramps.base,
        count: 0,
    };
    for i in 0..64 {
        let time = start.units() + i as u128 * SAMPLE;
        place = advance(place, ramps.ramps.as_slice(), time + 1);
        out[i] = base_at(&place.base, Time::of_units(time));
    }
    place
}
