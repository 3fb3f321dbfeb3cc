//! Which wire an edit is about, or why it is refused.

ghost use Rattle.std.specs.Prelude.{◌≡◌, ◌≢◌, ◌<◌, Ok, Err, IfOk, IfErr, OnOk, Some};
ghost use Rattle.pd_grove.specs.OwnPaths.{sub_reached};
ghost use Rattle.pd_web.specs.Canvases.{keys_at};
ghost use Rattle.pd_web.specs.Lines.{IsRoute};
ghost use Rattle.pd_web.specs.Changes.{wires_told};
ghost use Rattle.pd_patch.specs.Linked.{ShareCanvas};
ghost use Rattle.pd_patch.specs.Listing.{IsThere};
ghost use Rattle.pd_wiring.specs.declared.refusals.EditRefusal.TheVariants.{NoMemory};
ghost use Rattle.pd_wiring.specs.Changes.{LeadsAlong};
ghost use Rattle.pd_wiring.specs.Plans.{Attaches, Detaches, refusal_by, connecting, disconnecting};

use pd_canvas::Wire;
use pd_patch::Patch;
use pd_seek::wire_between;
use pd_web::Line;
use pd_wire::WireKey;
use pd_wiring::{EditRefusal, WireRefusal, line_of, line_there};

/// Where a wire comes: the canvas, and the line along which it will lead.
#[derive(Clone, Copy)]
pub(crate) struct Coming {
    pub canvas: u32,
    pub line: Line,
}

/// Which wire goes: the canvas in which it is, its key, and the line along which it leads.
#[derive(Clone, Copy)]
pub(crate) struct Going {
    pub canvas: u32,
    pub key: WireKey,
    pub line: Line,
}

/// Where a wire comes that is told by numbers of the boxes of the canvas at a path.
pub(crate) fn wire_to_come(
    patch: &Patch,
    wires: usize,
    path: &[u32],
    wire: &Wire,
) -> Result<Coming, EditRefusal>
    requires counted { wires ≡ wires_told patch.now.web }
    ensures planned { IfOk result (λ a. connecting patch.now wire.now (sub_reached patch.now.grove (Some patch.now.grove.root) path.now) ≡ Ok (Attaches a.canvas a.line)) }
    ensures refused { IfErr result (λ why. connecting patch.now wire.now (sub_reached patch.now.grove (Some patch.now.grove.root) path.now) ≡ Err why) }
    ensures remembers { IfErr result (λ why. why ≢ NoMemory) }
    ensures few { OnOk result (wires < 65536) }
    ensures route { IfOk result (λ a. IsRoute patch.now.web.sockets.items a.line) }
    ensures together { IfOk result (λ a. ShareCanvas patch.now.grove a.line.source a.line.sink) }
    ensures inside { IfOk result (λ a. IsThere (keys_at patch.now.grove a.canvas) a.line.source) }
{
    let Some(canvas) = patch.grove.own_canvas_at(path) else {
        return Err(EditRefusal::NoCanvas);
    };
    let line = match line_of(patch, canvas, wire) {
        Ok(line) => line,
        Err(why) => return Err(refused_by(why)),
    };
    if wires >= 65_536 {
        return Err(EditRefusal::TooManyWires);
    }
    Ok(Coming { canvas, line })
}

/// Which wire goes that is told by numbers of the boxes of the canvas at a path.
pub(crate) fn wire_to_go(patch: &Patch, path: &[u32], wire: &Wire) -> Result<Going, EditRefusal>
    ensures planned { IfOk result (λ a. disconnecting patch.now wire.now (sub_reached patch.now.grove (Some patch.now.grove.root) path.now) ≡ Ok (Detaches a.canvas a.key a.line)) }
    ensures refused { IfErr result (λ why. disconnecting patch.now wire.now (sub_reached patch.now.grove (Some patch.now.grove.root) path.now) ≡ Err why) }
    ensures remembers { IfErr result (λ why. why ≢ NoMemory) }
    ensures leads { IfOk result (λ a. LeadsAlong patch.now.web a.key a.line) }
    ensures inside { IfOk result (λ a. IsThere (keys_at patch.now.grove a.canvas) a.line.source) }
{
    let Some(canvas) = patch.grove.own_canvas_at(path) else {
        return Err(EditRefusal::NoCanvas);
    };
    let line = match line_there(patch, canvas, wire) {
        Ok(line) => line,
        Err(why) => return Err(refused_by(why)),
    };
    let Some(key) = wire_between(&patch.web, line) else {
        return Err(EditRefusal::NoWire);
    };
    Ok(Going { canvas, key, line })
}

/// The refusal of an edit whose wire can't be put in.
fn refused_by(why: WireRefusal) -> EditRefusal
    ensures { result ≡ refusal_by why }
{
    match why {
        WireRefusal::NoBox { number } => EditRefusal::NoBox { number },
        WireRefusal::NoPort {
            number,
            port,
            outlet,
        } => EditRefusal::NoPort {
            number,
            port,
            outlet,
        },
        WireRefusal::SignalIntoControl => EditRefusal::SignalIntoControl,
    }
}
