//! The document of a patch that plays.

ghost use Rattle.std.specs.Prelude.{◌≡◌, IfOk};
ghost use Rattle.pd_patch.specs.Document.{present_document};

use crate::engine::Engine;
use pd_canvas::Doc;
use std::alloc::{AllocError, Global};

impl Engine {
    /// The document of the running patch as it stands, as `Patch::document` gives it.
    ///
    /// # Errors
    ///
    /// `AllocError` where memory ran out.
    pub fn document(&self, alloc: Global) -> Result<Doc, AllocError>
        ensures { IfOk result (λ doc. doc.root ≡ present_document self.now.patch) }
    {
        self.patch.document(alloc)
    }
}
