//! Samples of 16 bits.

ghost use Rattle.std.specs.Prelude.{◌≡◌, ◌≤◌, ◌++◌, length, drop};
ghost use Rattle.pd_mix.specs.Samples.{sample_of, sample_bytes, frames, block_bytes};

use byteorder::{ByteOrder, LittleEndian};
use pd_num::Sig;

/// So many bytes has a block: 64 times a sample of the left and one of the right channel.
pub const BYTES: usize = 256;

/// One whole, in billionths.
const WHOLE: i64 = 1_000_000_000;

/// The greatest sample.
const GREATEST: i64 = 32_767;

/// The sample of a signal value, which is limited to one whole: its share of the greatest sample, cut.
fn sample(value: Sig) -> i16
    ensures { result ≡ sample_of value }
{
    (value.nanos().clamp(-WHOLE, WHOLE) * GREATEST / WHOLE) as i16
}

/// Writes a sample of each channel, the left one before the right one.
fn put_frame(left: Sig, right: Sig, out: &mut [u8])
    requires { 4 ≤ length out.old }
    ensures { out.new ≡ sample_bytes left ++ (sample_bytes right ++ drop 4 out.old) }
{
    LittleEndian::write_i16(out, sample(left));
    LittleEndian::write_i16(&mut out[2..], sample(right));
}

/// Writes the samples of a block of two channels, the left one before the right one.
pub fn write_samples(block: &[[Sig; 64]; 2], out: &mut [u8; BYTES])
    ensures { out.new ≡ block_bytes block.now }
{
    write_channels(&block[0], &block[1], out);
}

fn write_channels(left: &[Sig; 64], right: &[Sig; 64], out: &mut [u8; BYTES])
    ensures { out.new ≡ frames left.now right.now }
{
    for i in 0..64 {
        put_frame(left[i], right[i], &mut out[4 * i..4 * i + 4]);
    }
}
