//! The signal wires of all canvases, by the keys of their boxes.

ghost use Rattle.std.specs.Prelude.{IfOk};
ghost use Rattle.pd_patch.specs.Grown.{AreLaid};
ghost use Rattle.pd_patch.specs.Linked.{HasLinks};

use crate::numbers::box_end;
use crate::orders::push_box_wires;
use pd_grove::Grove;
use pd_links::Links;
use pd_web::Web;
use std::alloc::{AllocError, Global};

/// The links of all signal wires. It takes time in proportion to how many keys and wires there are.
pub(crate) fn links_of(alloc: Global, grove: &Grove, web: &Web) -> Result<Links, AllocError>
    requires { AreLaid grove.now web.now }
    ensures { IfOk result (HasLinks web.now) }
{
    let end = box_end(grove)?;
    let mut wires = Vec::new(alloc);
    for key in 0..end {
        push_box_wires(web, key, &mut wires)?;
    }
    let links = Links::of(alloc, wires.as_slice())?;
    Ok(links)
}
