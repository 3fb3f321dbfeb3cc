//! Growth, layer by layer.

ghost use Rattle.std.specs.Prelude.{◌≡◌, ◌<◌, length, IfOk, IfErr};
ghost use Rattle.std.specs.List.{AllByRecursion};
ghost use Rattle.slab.specs.Slab.{get};
ghost use Rattle.pd_atom.specs.Names.{Extends};
ghost use Rattle.pd_object.specs.Ports.{IsSmallKind};
ghost use Rattle.pd_canvas.specs.Pages.{elements_of};
ghost use Rattle.pd_canvas.specs.Proper.{IsProper};
ghost use Rattle.pd_library.specs.Files.{answer_in};
ghost use Rattle.pd_gather.specs.Gather.{AreProper};
ghost use Rattle.pd_growth.specs.Steps.{beginning};
ghost use Rattle.pd_growth.specs.Growth.{grown};
ghost use Rattle.pd_tree.specs.Trees.{Trees, width, stands_of, stands_in};
ghost use Rattle.pd_grove.specs.Standing.{GroveStands, NodesOf};
ghost use Rattle.pd_grove.specs.Forest.{IsForest};
ghost use Rattle.pd_grove.specs.TextOrder.{deep, keys_in_order};
ghost use Rattle.pd_web.specs.Jacks.{KindsSmall};
ghost use Rattle.pd_patch.specs.Report.{notices_in, loads_among};
ghost use Rattle.pd_patch.specs.Fed.{AreFed};
ghost use Rattle.pd_patch.specs.Grown.{AreLaid, IsFresh, IsTree, HasCause};

use crate::linking::links_of;
use crate::numbers::{box_end, numbers_of};
use crate::orders::orders_of;
use crate::patch::Patch;
use crate::refusal::GrowRefusal;
use crate::report::{Report, report_of};
use crate::sounds::is_too_much;
use crate::values::values_of;
use pd_atom::Symbols;
use pd_bind::bind_names;
use pd_canvas::Doc;
use pd_clock::{Rate, Time};
use pd_fit::has_too_many_wires;
use pd_grove::Grove;
use pd_growth::{Grown, grow};
use pd_library::Files;
use pd_timers::Timers;
use pd_tree::{Row, Sheet};
use pd_web::Web;
use std::alloc::{AllocError, Global};

/// Grows a document and gives its boxes keys, wires, names, orders and clocks.
pub(crate) fn grow_whole(
    alloc: Global,
    doc: &Doc,
    name: &[u8],
    rate: Rate,
    files: &Files,
    first_zero: u32,
    symbols: &mut Symbols,
) -> Result<(Patch, Report), GrowRefusal>
    requires proper { IsProper symbols.old doc.now.root }
    requires found { AreProper symbols.old files.now }
    ensures extends { Extends symbols.old symbols.new }
    ensures tree { IfOk result (λ r. IsTree r.0 symbols.new rate (grown (answer_in files.now) name.now doc.now.root (beginning symbols.old first_zero))) }
    ensures fresh { IfOk result (λ r. IsFresh r.0 symbols.new name.now rate) }
    ensures notices { IfOk result (λ r. r.1.notices.items ≡ notices_in r.0.grove r.0.web r.0.orders.items) }
    ensures loads { IfOk result (λ r. r.1.fresh.items ≡ loads_among r.0.grove (keys_in_order r.0.grove)) }
    ensures cause { IfErr result (λ e. HasCause e (grown (answer_in files.now) name.now doc.now.root (beginning symbols.old first_zero)) rate) }
{
    let Grown { sheet, rows } = grow(alloc, &doc.root, name, files, first_zero, symbols)?;
    if has_too_many_wires(alloc, &sheet, rows.as_slice())? {
        return Err(GrowRefusal::TooManyWires);
    }
    if is_too_much(rows.as_slice(), rate) {
        return Err(GrowRefusal::TooMuchSound);
    }
    let count = count_in(doc)?;
    let planted = plant_whole(alloc, sheet, rows, count, name, rate, symbols)?;
    Ok(planted)
}

/// How many boxes the root canvas of a document has.
fn count_in(doc: &Doc) -> Result<u32, AllocError>
    ensures { IfOk result (λ count. count ≡ length (elements_of doc.now.root)) }
{
    match u32::try_from(doc.root.box_count()) {
        Ok(count) => Ok(count),
        Err(_) => Err(AllocError),
    }
}

/// Gives grown boxes keys, wires, names, orders and clocks.
fn plant_whole(
    alloc: Global,
    sheet: Sheet,
    rows: Vec<Row>,
    count: u32,
    name: &[u8],
    rate: Rate,
    symbols: &mut Symbols,
) -> Result<(Patch, Report), AllocError>
    requires small { AllByRecursion (λ r. IsSmallKind r.kind) rows.items }
    ensures table { symbols.new ≡ symbols.old }
    ensures stands { (t : Trees) → stands_in rows.items ≡ stands_of t → width t ≡ count → IfOk result (λ r. GroveStands r.0.grove sheet t) }
    ensures of_tree { (t : Trees) → stands_in rows.items ≡ stands_of t → IfOk result (λ r. NodesOf t (get r.0.grove.nodes)) }
    ensures small { IfOk result (λ r. KindsSmall r.0.grove) }
    ensures forest { (t : Trees) → stands_in rows.items ≡ stands_of t → width t ≡ count → deep t < 257 →
        IfOk result (λ r. IsForest (get r.0.grove.nodes) (get r.0.grove.boards) r.0.grove.root) }
    ensures fresh { IfOk result (λ r. IsFresh r.0 symbols.old name.now rate) }
    ensures notices { IfOk result (λ r. r.1.notices.items ≡ notices_in r.0.grove r.0.web r.0.orders.items) }
    ensures loads { IfOk result (λ r. r.1.fresh.items ≡ loads_among r.0.grove (keys_in_order r.0.grove)) }
{
    let grove = Grove::plant(alloc, sheet, rows, count, rate, Time::of_units(0))?;
    let web = web_of(alloc, &grove)?;
    let names = bind_names(alloc, &grove, name, symbols)?;
    let links = links_of(alloc, &grove, &web)?;
    let orders = orders_of(alloc, &grove, &web)?;
    let numbers = numbers_of(alloc, &grove)?;
    let values = values_of(alloc, &grove, &web)?;
    let timers = Timers::new(alloc, box_end(&grove)?)?;
    let patch = Patch {
        grove,
        web,
        names,
        timers,
        links,
        orders,
        numbers,
        values,
        rate,
        present: Time::of_units(0),
    };
    let report = report_of(alloc, &patch)?;
    Ok((patch, report))
}

/// The ports and wires of a tree of which no more wires fit than may.
fn web_of(alloc: Global, grove: &Grove) -> Result<Web, AllocError>
    requires { KindsSmall grove.now }
    ensures laid { IfOk result (λ web. AreLaid grove.now web) }
    ensures fed { IfOk result (λ web. AreFed web) }
{
    match Web::lay(alloc, grove) {
        Ok(web) => {
            web.laws();
            Ok(web)
        }
        Err(_) => Err(AllocError),
    }
}
