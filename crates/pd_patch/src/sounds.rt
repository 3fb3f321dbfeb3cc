//! How much sound the boxes of a patch keep.

ghost use Rattle.std.specs.Prelude.{◌≡◌, nat_lt};
ghost use Rattle.pd_patch.specs.Sounds.{sound_in};

use pd_clock::Rate;
use pd_kind::sound_size;
use pd_tree::Row;

/// The most values of tables, arrays and delay lines.
const MOST_SOUND: u64 = 16_777_216;

/// Whether the boxes would keep more than 16,777,216 values.
pub(crate) fn is_too_much(rows: &[Row], rate: Rate) -> bool
    ensures { result ≡ nat_lt 16777216 (sound_in rate rows.now) }
{
    let mut left = MOST_SOUND;
    for row in rows {
        let size = sound_size(&row.kind, rate);
        if size > left {
            return true;
        }
        left -= size;
    }
    false
}
