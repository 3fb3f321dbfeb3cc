//! All ports and wires of a running patch.

ghost use Rattle.std.specs.Prelude.{◌≡◌, ◌<◌, ◌≤◌, ℕ, Err, Some, IsSome, length, OnOk, IfOk};
ghost use Rattle.slab.specs.Slab.{get};
ghost use Rattle.pd_grove.specs.declared.ports.Side.{Side};
ghost use Rattle.pd_web.specs.Jacks.{KindsSmall, jacks_at, made_in};
ghost use Rattle.pd_web.specs.Sockets.{made_at};
ghost use Rattle.pd_web.specs.Lines.{all_lines, fed_from, feeding};
ghost use Rattle.pd_web.specs.Hops.{ports_told, fan_hops, feed_hops, places_of, port_told};
ghost use Rattle.pd_web.specs.Changes.{Meet, wires_told};
ghost use Rattle.pd_web.specs.Homes.{IsPortOf};
ghost use Rattle.pd_web.specs.declared.lay.Unlaid.TheVariants.{TooManyWires};

use crate::homes::lay_homes;
use crate::sockets::lay_sockets;
use crate::web::Web;
use crate::wires::lay_wires;
use pd_grove::Grove;
use pd_wire::WireBook;
use std::alloc::{AllocError, Global};

/// So many wires may fit.
pub const MOST_WIRES: u32 = 65_536;

/// Why the wires of a patch can't be laid.
#[derive(Clone, Copy, Debug, PartialEq, Eq, Drop)]
pub enum Unlaid {
    /// More than 65,536 wires fit.
    TooManyWires,
    NoMemory,
}

impl From<AllocError> for Unlaid {
    ghost use Rattle.std.specs.Prelude.{◌≡◌};
    ghost use Rattle.pd_web.specs.declared.lay.Unlaid.TheVariants.{NoMemory};

    ghost from_gives = { λ _ e. e ≡ NoMemory };

    fn from(_: AllocError) -> Unlaid {
        Unlaid::NoMemory
    }
}

impl Web {
    /// The ports of the boxes of a running patch, and the wires between them that fit.
    ///
    /// # Errors
    ///
    /// `NoMemory` where memory ran out, `TooManyWires` where that wasn't so when the 65,537th wire was found that fits.
    pub fn lay(alloc: Global, grove: &Grove) -> Result<Web, Unlaid>
        requires { KindsSmall grove.now }
        ensures ports { IfOk result (λ w. (side : Side) (k : ℕ) → ports_told w side k ≡ jacks_at side grove.now k) }
        ensures made { IfOk result (λ w. (k : ℕ) → made_at w.sockets.items k ≡ made_in (get grove.now.nodes k)) }
        ensures fans { IfOk result (λ w. (k outlet : ℕ) → places_of (fan_hops w k outlet) ≡ fed_from k outlet (all_lines grove.now)) }
        ensures feeds { IfOk result (λ w. (k inlet : ℕ) → places_of (feed_hops w k inlet) ≡ feeding k inlet (all_lines grove.now)) }
        ensures meet { IfOk result (λ w. Meet w) }
        ensures homes { IfOk result (λ w. (j k i : ℕ) → port_told w j ≡ Some (k, i) → IsPortOf grove.now j k i) }
        ensures homes_found { IfOk result (λ w. (j k i : ℕ) → IsPortOf grove.now j k i → IsSome (port_told w j)) }
        ensures counted { IfOk result (λ w. wires_told w ≡ length (all_lines grove.now)) }
        ensures few { OnOk result (length (all_lines grove.now) ≤ 65536) }
        ensures many { result ≡ Err TooManyWires → 65536 < length (all_lines grove.now) }
    {
        let mut sockets = lay_sockets(alloc, grove)?;
        let homes = lay_homes(alloc, sockets.as_slice())?;
        let spare = Vec::new(alloc);
        let mut spots = Vec::new(alloc);
        let mut book = WireBook::new(alloc)?;
        lay_wires(
            sockets.as_mut_slice(),
            &mut spots,
            &mut book,
            grove,
            MOST_WIRES,
        )?;
        book.laws();
        Ok(Web {
            sockets,
            spots,
            homes,
            book,
            spare,
        })
    }
}
