//! The running patch.

ghost use Rattle.std.specs.Prelude.{◌≡◌, OnOk, OnErr, IfOk, IfErr};
ghost use Rattle.pd_atom.specs.Names.{Extends};
ghost use Rattle.pd_canvas.specs.Proper.{IsProper};
ghost use Rattle.pd_library.specs.Files.{answer_in};
ghost use Rattle.pd_gather.specs.Gather.{AreProper};
ghost use Rattle.pd_growth.specs.Steps.{beginning};
ghost use Rattle.pd_growth.specs.Growth.{grown};
ghost use Rattle.pd_grove.specs.TextOrder.{keys_in_order};
ghost use Rattle.pd_patch.specs.Report.{notices_in, loads_among};
ghost use Rattle.pd_patch.specs.Grown.{IsFresh, IsTree, HasCause};
ghost use Rattle.pd_patch.specs.Walking.{AllButTime};

use crate::growing::grow_whole;
use crate::refusal::GrowRefusal;
use crate::report::Report;
use crate::values::Blocks;
use pd_atom::Symbols;
use pd_canvas::Doc;
use pd_clock::{Rate, Time};
use pd_gather::Library;
use pd_grove::Grove;
use pd_links::Links;
use pd_name::Names;
use pd_order::Order;
use pd_timers::Timers;
use pd_web::Web;
use std::alloc::Global;

/// A running patch: its boxes and canvases, their wires, names, clocks and signal orders.
#[derive(Drop)]
pub struct Patch {
    pub grove: Grove,
    pub web: Web,
    pub names: Names,
    pub timers: Timers,
    /// The signal wires, by the keys of their boxes.
    pub links: Links,
    /// By the key of the canvas.
    pub orders: Vec<Option<Order>>,
    /// By the key of the box: its number in its canvas.
    pub numbers: Vec<u32>,
    /// By the key of the box: the blocks of its outlets.
    pub values: Vec<Blocks>,
    pub rate: Rate,
    /// The time of the present event.
    pub present: Time,
}

impl Patch {
    /// Grows a document under its file name: the root takes the first `$0`, and each abstraction the next one.
    ///
    /// The library has to answer every name that growing the document meets, as `gather` leaves it.
    ///
    /// # Errors
    ///
    /// `SymbolsFull`, `TooManyBoxes`, `TooManyWires` and `TooMuchSound` where the patch is past a limit, and `NoMemory`. The table
    /// is then as before.
    pub fn grow(
        alloc: Global,
        doc: Doc,
        name: &[u8],
        rate: Rate,
        library: &Library,
        first_zero: u32,
        symbols: &mut Symbols,
    ) -> Result<(Patch, Report), GrowRefusal>
        requires proper { IsProper symbols.old doc.root }
        requires found { AreProper symbols.old library.now }
        ensures refused { OnErr result (symbols.new ≡ symbols.old) }
        ensures extends { OnOk result (Extends symbols.old symbols.new) }
        ensures tree { IfOk result (λ r. IsTree r.0 symbols.new rate (grown (answer_in library.now) name.now doc.root (beginning symbols.old first_zero))) }
        ensures fresh { IfOk result (λ r. IsFresh r.0 symbols.new name.now rate) }
        ensures notices { IfOk result (λ r. r.1.notices.items ≡ notices_in r.0.grove r.0.web r.0.orders.items) }
        ensures loads { IfOk result (λ r. r.1.fresh.items ≡ loads_among r.0.grove (keys_in_order r.0.grove)) }
        ensures cause { IfErr result (λ e. HasCause e (grown (answer_in library.now) name.now doc.root (beginning symbols.old first_zero)) rate) }
    {
        let names = symbols.len();
        let files = library.files();
        match grow_whole(alloc, &doc, name, rate, files, first_zero, symbols) {
            Ok(grown) => Ok(grown),
            Err(refusal) => {
                symbols.cut_back(names);
                Err(refusal)
            }
        }
    }

    /// Sets the time of the present event, which is 0 in a new patch. It takes no memory.
    pub fn set_now(&mut self, now: Time)
        ensures time { self.new.present ≡ now }
        ensures rest { AllButTime self.old self.new }
    {
        self.present = now;
    }

    /// The rate of samples.
    pub fn rate(&self) -> Rate
        ensures { result ≡ self.now.rate }
    {
        self.rate
    }
}
