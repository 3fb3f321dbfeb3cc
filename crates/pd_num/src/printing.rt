//! The parts of a printed number.

ghost use Rattle.std.specs.Prelude.{◌≡◌, ◌≤◌, ◌<◌, ◌+◌, ◌^◌, ◌++◌, decimal};
ghost use Rattle.arrayvec.specs.ArrayVec.{array_vec_len};
ghost use Rattle.pd_num.specs.Printing.{places_text, point_text};

use arrayvec::ArrayVec;
use itoa::Buffer;

/// Puts the whole part at the end.
pub(crate) fn push_whole(n: u64, out: &mut ArrayVec<u8, 24>)
    requires small { n ≤ 1000000000 }
    requires room { array_vec_len out.old ≤ 1 }
    ensures text { out.new.items ≡ out.old.items ++ decimal n }
    ensures room { array_vec_len out.new ≤ 11 }
{
    let mut buffer = Buffer::new();
    for b in buffer.format(n).as_bytes() {
        out.push(*b);
    }
}

/// Puts the digits of a fraction at the end, up to the last that isn't 0.
fn push_places(places: u32, rest: u64, out: &mut ArrayVec<u8, 24>)
    requires small { rest < 10 ^ places }
    requires few { places ≤ 6 }
    requires room { array_vec_len out.old + places ≤ 24 }
    ensures { out.new.items ≡ out.old.items ++ places_text places rest }
{
    if rest > 0 {
        let unit = 10u64.pow(places - 1);
        out.push(b'0' + (rest / unit) as u8);
        push_places(places - 1, rest % unit, out);
    }
}

/// Puts a point and the millionths at the end, where there are any.
pub(crate) fn push_fraction(rest: u64, out: &mut ArrayVec<u8, 24>)
    requires small { rest < 1000000 }
    requires room { array_vec_len out.old ≤ 11 }
    ensures { out.new.items ≡ out.old.items ++ point_text rest }
{
    if rest > 0 {
        out.push(b'.');
        push_places(6, rest, out);
    }
}
