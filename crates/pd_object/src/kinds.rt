//! Kinds of boxes: a variant for each row of the objects' tables, with the row's arguments.

use crate::lists::Items;
use pd_atom::{Atom, Sym};
use pd_num::Num;

/// Which of a row's two names a text has: the whole one or the short one.
#[derive(Clone, Copy, Debug, PartialEq, Eq, Drop)]
pub enum Spelling {
    Whole,
    Short,
}

/// The atoms of a text or of arguments.
pub type Arguments = Items<Atom>;

/// Numbers, as the values of a table.
pub type Values = Items<Num>;

/// What kind of box a text makes.
#[derive(Debug, Drop)]
pub enum Kind {
    Arith(Arith),
    Glue(Glue),
    Tone(Tone),
    Signal(Signal),
    Panel(Panel),
    /// `vline~`
    Vline,
    /// A box that couldn't be made. It has 32 inlets and 32 outlets that do nothing.
    Unmade,
    /// A box that holds a canvas.
    Canvas,
}

/// What a text names.
#[derive(Debug, Drop)]
pub enum Named {
    Kind(Kind),
    Abstraction(Sym),
    /// The text is empty or doesn't begin with a symbol.
    Nothing,
}

/// `+` `-` `*` `/` `min` `max`
#[derive(Clone, Copy, Debug, PartialEq, Eq, Drop)]
pub enum Operation {
    Add,
    Subtract,
    Multiply,
    Divide,
    Least,
    Greatest,
}

/// `==` `!=` `>` `<` `>=` `<=` `&&` `||`
#[derive(Clone, Copy, Debug, PartialEq, Eq, Drop)]
pub enum Comparison {
    Equal,
    Unequal,
    Above,
    Below,
    NotBelow,
    NotAbove,
    Both,
    Either,
}

/// `%` `mod` `div`
#[derive(Clone, Copy, Debug, PartialEq, Eq, Drop)]
pub enum Division {
    Remainder,
    Modulo,
    Quotient,
}

/// `abs` `mtof`
#[derive(Clone, Copy, Debug, PartialEq, Eq, Drop)]
pub enum Function {
    Magnitude,
    Frequency,
}

/// The arithmetic objects.
#[derive(Debug, Drop)]
pub enum Arith {
    Operation { operation: Operation, right: Num },
    Comparison { comparison: Comparison, right: Num },
    Division { division: Division, right: Num },
    Function { function: Function },
    Clip { low: Num, high: Num },
}

/// What an outlet of a `trigger` sends: by the first letter of its word, or a number of its own.
#[derive(Clone, Copy, Debug, PartialEq, Eq, Drop)]
pub enum Trigger {
    Bang,
    Float,
    Symbol,
    List,
    Anything,
    Constant(Num),
}

/// A slot of `pack` or `unpack`: a number with its first value, or a symbol.
#[derive(Clone, Copy, Debug, PartialEq, Eq, Drop)]
pub enum Slot {
    Number(Num),
    Symbol,
}

/// `inlet` `outlet`
#[derive(Clone, Copy, Debug, PartialEq, Eq, Drop)]
pub enum Side {
    Inlet,
    Outlet,
}

/// The other control objects but `bng` and `tgl`.
#[derive(Debug, Drop)]
pub enum Glue {
    /// A message box and its text.
    Message {
        text: Arguments,
    },
    /// A number box and its expanded text: width, low, high, label side, label, receive, send.
    FloatBox {
        text: Arguments,
    },
    /// A symbol box and its expanded text.
    SymbolBox {
        text: Arguments,
    },
    Comment,
    /// An array, its expanded text and its saved values.
    Array {
        text: Arguments,
        values: Values,
    },
    Bang {
        spelling: Spelling,
    },
    Float {
        spelling: Spelling,
        value: Num,
    },
    Int {
        spelling: Spelling,
        value: Num,
    },
    Symbol {
        value: Sym,
    },
    Trigger {
        spelling: Spelling,
        outlets: Items<Trigger>,
    },
    Pack {
        slots: Items<Slot>,
    },
    Unpack {
        slots: Items<Slot>,
    },
    Route {
        arguments: Arguments,
    },
    Select {
        spelling: Spelling,
        arguments: Arguments,
    },
    Moses {
        bound: Num,
    },
    Spigot {
        gate: Num,
    },
    Swap {
        right: Num,
    },
    Change {
        value: Num,
    },
    Until,
    Loadbang,
    Print {
        words: Arguments,
    },
    Send {
        spelling: Spelling,
        name: Option<Sym>,
    },
    Receive {
        spelling: Spelling,
        name: Option<Sym>,
    },
    Metro {
        period: Num,
    },
    Delay {
        spelling: Spelling,
        time: Num,
    },
    Timer,
    Random {
        range: Num,
    },
    /// `list append`, or `list` alone as the short name.
    ListAppend {
        spelling: Spelling,
        atoms: Arguments,
    },
    ListPrepend {
        atoms: Arguments,
    },
    ListSplit {
        count: Num,
    },
    ListTrim,
    ListLength,
    Port {
        side: Side,
    },
    Table {
        name: Option<Sym>,
        size: Num,
    },
    Tabread {
        name: Option<Sym>,
    },
    Tabwrite {
        name: Option<Sym>,
    },
}

/// The oscillators and `noise~`.
#[derive(Debug, Drop)]
pub enum Tone {
    Phasor { hertz: Num },
    Osc { hertz: Num },
    Noise,
}

/// `+~` `-~` `*~` `/~` `max~` `min~`
#[derive(Clone, Copy, Debug, PartialEq, Eq, Drop)]
pub enum SignalOperation {
    Add,
    Subtract,
    Multiply,
    Divide,
    Greatest,
    Least,
}

/// `abs~` `wrap~`
#[derive(Clone, Copy, Debug, PartialEq, Eq, Drop)]
pub enum SignalFunction {
    Magnitude,
    Wrap,
}

/// The channel to which an inlet of `dac~` adds.
#[derive(Clone, Copy, Debug, PartialEq, Eq, Drop)]
pub enum Channel {
    Left,
    Right,
    Neither,
}

/// The other signal objects but `vline~`.
#[derive(Debug, Drop)]
pub enum Signal {
    Sig {
        value: Num,
    },
    /// With an argument inlet 1 is a control port.
    Operation {
        operation: SignalOperation,
        right: Option<Num>,
    },
    Function {
        function: SignalFunction,
    },
    Clip {
        low: Num,
        high: Num,
    },
    Line,
    Samphold,
    Lop {
        hertz: Num,
    },
    Hip {
        hertz: Num,
    },
    Delwrite {
        name: Option<Sym>,
        time: Num,
    },
    Delread {
        name: Option<Sym>,
        time: Num,
    },
    Send {
        spelling: Spelling,
        name: Option<Sym>,
    },
    Receive {
        spelling: Spelling,
        name: Option<Sym>,
    },
    Throw {
        name: Option<Sym>,
    },
    Catch {
        name: Option<Sym>,
    },
    Snapshot,
    Tabread {
        name: Option<Sym>,
    },
    Dac {
        channels: Items<Channel>,
    },
    Inlet,
    Outlet,
}

/// The fields of a `bng`, in the order of its text.
#[derive(Clone, Copy, Debug, PartialEq, Eq, Drop)]
pub struct Button {
    pub size: Num,
    pub hold: Num,
    pub interrupt: Num,
    pub init: Num,
    pub send: Option<Sym>,
    pub receive: Option<Sym>,
    pub label: Option<Sym>,
    pub x_offset: Num,
    pub y_offset: Num,
    pub font: Num,
    pub font_size: Num,
    pub background: Num,
    pub foreground: Num,
    pub label_colour: Num,
}

/// The fields of a `tgl`, in the order of its text.
#[derive(Clone, Copy, Debug, PartialEq, Eq, Drop)]
pub struct Toggle {
    pub size: Num,
    pub init: Num,
    pub send: Option<Sym>,
    pub receive: Option<Sym>,
    pub label: Option<Sym>,
    pub x_offset: Num,
    pub y_offset: Num,
    pub font: Num,
    pub font_size: Num,
    pub background: Num,
    pub foreground: Num,
    pub label_colour: Num,
    pub value: Num,
    pub other: Num,
    /// Whether the text has 15 atoms, its name among them, none of them a comma or semicolon. Only then are value and
    /// other value saved with the document.
    pub is_whole: bool,
}

/// `bng` and `tgl`.
#[derive(Debug, Drop)]
pub enum Panel {
    Bng(Button),
    Tgl(Toggle),
}
