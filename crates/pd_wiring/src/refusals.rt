//! Why an edit is refused.

/// Why an edit or a save isn't made, in the order in which causes are tried.
#[derive(Clone, Copy, Debug, PartialEq, Eq)]
pub enum EditRefusal {
    /// There is no such document, or what is asked for isn't made yet.
    NoDocument,
    /// The path leads to no canvas of the document.
    NoCanvas,
    /// The canvas has no box of this number.
    NoBox {
        number: u32,
    },
    /// The box has no such outlet, or no such inlet where `outlet` is false.
    NoPort {
        number: u32,
        port: u32,
        outlet: bool,
    },
    NoWire,
    /// A signal outlet would lead to a control inlet of a made box.
    SignalIntoControl,
    TextTooLong,
    TooDeep,
    ShelfFault,
    SymbolsFull,
    TooManyBoxes,
    TooManyWires,
    TooMuchSound,
    NoMemory,
}
