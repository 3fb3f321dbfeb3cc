//! What is around a box.

use pd_atom::{Atom, Sym};
use pd_library::Files;
use std::alloc::Global;

/// What stays the same for a whole document: the files, and the file name of the patch without its ending.
#[derive(Clone, Copy)]
pub struct Setting<'a> {
    pub alloc: Global,
    pub files: &'a Files,
    pub root: &'a [u8],
}

/// What is around a box: the `$0` and the arguments that its text sees, the names of the abstractions in which it lies, the
/// innermost first, and whether it is in the patch's own document.
#[derive(Clone, Copy)]
pub struct Scope<'a> {
    pub zero: u32,
    pub arguments: &'a [Atom],
    pub inside: &'a [Sym],
    pub is_top: bool,
}
