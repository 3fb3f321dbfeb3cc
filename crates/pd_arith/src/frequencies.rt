//! The frequency of a note's number.

ghost use Rattle.std.specs.Prelude.{◌≡◌, ◌<◌, ◌≤◌, ◌+◌, ◌*◌, pos};
ghost use Rattle.pd_arith.specs.Frequency.{top_notes, note_frequency as frequency_of_note, between as frequency_between, frequency_of};

use pd_num::Num;

/// The frequencies, in millionths of a hertz, of the notes 120 to 131.
const TOP_NOTES: [u64; 12] = [
    8372018090,
    8869844192,
    9397272574,
    9956063480,
    10548081822,
    11175303406,
    11839821526,
    12543853952,
    13289750322,
    14080000000,
    14917240368,
    15804265640,
];

/// The frequency of a whole number from 0 to 131.
fn note_frequency(note: u64) -> u64
    requires { note ≤ 131 }
    ensures value { result ≡ frequency_of_note note }
    ensures small { result ≤ 15804265640 }
{
    TOP_NOTES[(note % 12) as usize] >> (10 - note / 12)
}

/// The frequency so many millionths above a whole number.
fn between(note: u64, rest: u64) -> u64
    requires note { note ≤ 130 }
    requires rest { rest < 1000000 }
    ensures value { result ≡ frequency_between note rest }
    ensures small { result ≤ 31608531280 }
{
    let low = note_frequency(note);
    let high = note_frequency(note + 1);
    low + high.saturating_sub(low) * rest / 1_000_000
}

fn whole(micros: u64) -> Num
    requires { micros ≤ 31608531280 }
    ensures { result ≡ pos micros }
{
    match Num::of_micros(micros as i64) {
        Some(number) => number,
        None => unreachable!(),
    }
}

/// The frequency of a note's number, which is limited to 0 to 131.
pub(crate) fn frequency(note: Num) -> Num
    ensures { result ≡ frequency_of note }
{
    let micros = note.micros();
    if micros < 0 {
        return whole(note_frequency(0));
    }
    let count = micros as u64;
    if count >= 131_000_000 {
        return whole(note_frequency(131));
    }
    whole(between(count / 1_000_000, count % 1_000_000))
}
