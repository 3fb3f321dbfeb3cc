//! Which line a wire of a canvas leads along, or why it can't be put in.

ghost use Rattle.std.specs.Prelude.{◌≡◌, IfOk};
ghost use Rattle.pd_web.specs.Lines.{IsRoute};
ghost use Rattle.pd_patch.specs.Linked.{ShareCanvas};
ghost use Rattle.pd_wiring.specs.Asking.{line_asked, line_there as there_told};

use pd_canvas::Wire;
use pd_patch::Patch;
use pd_web::Line;

/// Why a wire can't be put in.
#[derive(Clone, Copy, Debug, PartialEq, Eq)]
pub enum WireRefusal {
    /// The canvas has no box of this number. The source is tried before the sink.
    NoBox {
        number: u32,
    },
    /// The box of this number has no such outlet or inlet. The outlet is tried before the inlet.
    NoPort {
        number: u32,
        port: u32,
        outlet: bool,
    },
    /// A signal outlet would lead to a control inlet of a made box.
    SignalIntoControl,
}

/// The line by keys of a wire that is told by numbers of the boxes of a canvas, where it can be put in.
///
/// # Errors
///
/// The first reason why it can't.
pub fn line_of(patch: &Patch, canvas: u32, wire: &Wire) -> Result<Line, WireRefusal>
    ensures line { result ≡ line_asked patch.now.grove patch.now.web canvas wire.now }
    ensures route { IfOk result (IsRoute patch.now.web.sockets.items) }
    ensures together { IfOk result (λ l. ShareCanvas patch.now.grove l.source l.sink) }
{
    let line = line_there(patch, canvas, wire)?;
    if !patch.web.fits(&patch.grove, canvas, wire) {
        return Err(WireRefusal::SignalIntoControl);
    }
    Ok(line)
}

/// The line by keys of a wire that is told by numbers of the boxes of a canvas, whether it fits or not.
///
/// # Errors
///
/// The first of its boxes or ports that isn't there.
pub fn line_there(patch: &Patch, canvas: u32, wire: &Wire) -> Result<Line, WireRefusal>
    ensures line { result ≡ there_told patch.now.grove patch.now.web canvas wire.now }
    ensures route { IfOk result (IsRoute patch.now.web.sockets.items) }
    ensures together { IfOk result (λ l. ShareCanvas patch.now.grove l.source l.sink) }
{
    let Some(source) = patch.grove.box_key(canvas, wire.source) else {
        return Err(WireRefusal::NoBox {
            number: wire.source,
        });
    };
    let Some(sink) = patch.grove.box_key(canvas, wire.sink) else {
        return Err(WireRefusal::NoBox { number: wire.sink });
    };
    if patch.web.outlets_at(source) <= wire.outlet {
        return Err(WireRefusal::NoPort {
            number: wire.source,
            port: wire.outlet,
            outlet: true,
        });
    }
    if patch.web.inlets_at(sink) <= wire.inlet {
        return Err(WireRefusal::NoPort {
            number: wire.sink,
            port: wire.inlet,
            outlet: false,
        });
    }
    Ok(Line {
        source,
        outlet: wire.outlet,
        sink,
        inlet: wire.inlet,
    })
}
