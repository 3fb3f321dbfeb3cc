//! Room set aside for a subpatch that gets another text.

use pd_canvas::Atoms;

/// The box of a key, which is ready to get another text: as it is written in the document, and with its dollars replaced.
#[derive(Drop)]
pub struct NameRoom {
    pub key: u32,
    pub written: Atoms,
    pub text: Atoms,
}
