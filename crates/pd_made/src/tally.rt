//! The sum of the magnitudes of samples.

ghost use Rattle.std.specs.Prelude.{◌≡◌, ◌∷◌, []};
ghost use Rattle.pd_made.specs.Tallies.{magnitude as magnitude_of, nothing, tallied};

/// A sum of the magnitudes of samples of 16 bits, which come as bytes, the lower one first, in pieces of any length.
#[derive(Clone, Copy, Debug, PartialEq, Eq)]
pub struct Tally {
    /// The sum over the whole samples, at most 2^64 - 1.
    pub sum: u64,
    /// How many bytes came, at most 2^64 - 1.
    pub count: u64,
    /// The lower byte of a sample whose higher byte is still to come.
    pub low: Option<u8>,
}

impl Tally {
    /// The sum of no samples.
    pub fn new() -> Tally
        ensures { result ≡ nothing }
    {
        Tally {
            sum: 0,
            count: 0,
            low: None,
        }
    }

    /// Adds the samples of bytes that came.
    pub fn add(&mut self, bytes: &[u8])
        ensures { self.new ≡ tallied self.old bytes.now }
    {
        for byte in bytes {
            *self = self.with(*byte);
        }
    }

    /// The sum with one byte more.
    fn with(self, byte: u8) -> Tally
        ensures { result ≡ tallied self (byte ∷ []) }
    {
        let count = self.count.saturating_add(1);
        match self.low {
            None => Tally {
                sum: self.sum,
                count,
                low: Some(byte),
            },
            Some(low) => Tally {
                sum: self.sum.saturating_add(u64::from(magnitude(low, byte))),
                count,
                low: None,
            },
        }
    }
}

/// The magnitude of a sample.
fn magnitude(low: u8, high: u8) -> u16
    ensures { result ≡ magnitude_of low high }
{
    i16::from_le_bytes([low, high]).unsigned_abs()
}
