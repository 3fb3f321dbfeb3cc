// The links of many wires.
ghost use Rattle.std.specs.Prelude.{◌≡◌, IfOk, OnOk};
ghost use Rattle.pd_links.specs.Linked.{AreLinked, HasOneMore};

use crate::links::Links;
use pd_chain::SignalWire;
use std::alloc::{AllocError, Global};

impl Links {
    /// The links of these wires, each as often as it is there.
    ///
    /// # Errors
    ///
    /// `AllocError` where memory ran out, or where a box has more wires than can be counted.
    pub fn of(alloc: Global, wires: &[SignalWire]) -> Result<Links, AllocError>
        ensures { IfOk result (λ made. AreLinked made wires.now) }
    {
        let mut links = Links::new(alloc)?;
        for wire in wires {
            links.push(*wire)?;
        }
        Ok(links)
    }

    // A wire more, with the room for it.
    fn push(&mut self, wire: SignalWire) -> Result<(), AllocError>
        ensures { OnOk result (HasOneMore self.old self.new wire.source wire.sink) }
    {
        self.reserve_one(wire.source, wire.sink)?;
        self.add(wire.source, wire.sink);
        Ok(())
    }
}
