//! The texts of refusals.

use anyhow::Result;
use pd_patch::GrowRefusal;
use std::alloc::Global;
use std::fmt::Write;

/// Why a document doesn't grow, one text for each cause.
pub(crate) fn texts(alloc: Global) -> Result<String> {
    let causes = [
        GrowRefusal::SymbolsFull,
        GrowRefusal::TooManyBoxes,
        GrowRefusal::TooManyWires,
        GrowRefusal::TooMuchSound,
        GrowRefusal::NoMemory,
    ];
    let mut said = String::new(alloc);
    for cause in causes.iter() {
        write!(said, " / {cause}")?;
    }
    Ok(said)
}
