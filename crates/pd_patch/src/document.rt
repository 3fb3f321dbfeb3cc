//! The document of a patch as it stands.

ghost use Rattle.std.specs.Prelude.{◌≡◌, IfOk};
ghost use Rattle.pd_patch.specs.Document.{present_document};

use crate::patch::Patch;
use pd_canvas::Doc;
use pd_present::present;
use std::alloc::{AllocError, Global};

impl Patch {
    /// The document as it stands: with the present texts of message boxes, the values of saved arrays and of toggles, and the wires
    /// that fit.
    ///
    /// # Errors
    ///
    /// `AllocError` where memory ran out.
    pub fn document(&self, alloc: Global) -> Result<Doc, AllocError>
        ensures { IfOk result (λ doc. doc.root ≡ present_document self.now) }
    {
        present(alloc, &self.grove, &self.web, self.numbers.as_slice())
    }
}
