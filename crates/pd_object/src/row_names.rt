//! The rows of the objects' tables that may lack a method, and their first names.

ghost use Rattle.std.specs.Prelude.{◌≡◌};
ghost use Rattle.pd_object.specs.RowNames.{row_name, signal_row_name};

/// A row of the objects' tables: the objects that have one behaviour.
#[derive(Clone, Copy, Debug, PartialEq, Eq, Drop)]
pub enum Row {
    Message,
    FloatBox,
    SymbolBox,
    Bang,
    Float,
    Int,
    Symbol,
    Trigger,
    Pack,
    Unpack,
    Route,
    Select,
    Moses,
    Spigot,
    Swap,
    Change,
    Until,
    Print,
    Send,
    Receive,
    Metro,
    Delay,
    Timer,
    Random,
    ListAppend,
    ListPrepend,
    ListSplit,
    ListTrim,
    ListLength,
    Operation,
    Comparison,
    Division,
    Function,
    Clip,
    Tabread,
    Tabwrite,
    Toggle,
    Sounding(SignalRow),
}

/// A row of the signal objects.
#[derive(Clone, Copy, Debug, PartialEq, Eq, Drop)]
pub enum SignalRow {
    Sig,
    Phasor,
    Osc,
    Noise,
    SignalOperation,
    SignalFunction,
    SignalClip,
    Line,
    Samphold,
    Lop,
    Hip,
    Delwrite,
    Delread,
    SignalSend,
    SignalReceive,
    Throw,
    Catch,
    Snapshot,
    SignalTabread,
    Dac,
    SignalInlet,
    SignalOutlet,
    Vline,
}

impl Row {
    /// The first name of the row, as a line tells it.
    pub fn name(self) -> &'static [u8]
        ensures { result.now ≡ row_name self }
    {
        match self {
            Row::Message => b"msg",
            Row::FloatBox => b"floatatom",
            Row::SymbolBox => b"symbolatom",
            Row::Bang => b"bang",
            Row::Float => b"float",
            Row::Int => b"int",
            Row::Symbol => b"symbol",
            Row::Trigger => b"trigger",
            Row::Pack => b"pack",
            Row::Unpack => b"unpack",
            Row::Route => b"route",
            Row::Select => b"select",
            Row::Moses => b"moses",
            Row::Spigot => b"spigot",
            Row::Swap => b"swap",
            Row::Change => b"change",
            Row::Until => b"until",
            Row::Print => b"print",
            Row::Send => b"send",
            Row::Receive => b"receive",
            Row::Metro => b"metro",
            Row::Delay => b"delay",
            Row::Timer => b"timer",
            Row::Random => b"random",
            Row::ListAppend => b"list",
            Row::ListPrepend => b"list prepend",
            Row::ListSplit => b"list split",
            Row::ListTrim => b"list trim",
            Row::ListLength => b"list length",
            Row::Operation => b"+",
            Row::Comparison => b"==",
            Row::Division => b"%",
            Row::Function => b"abs",
            Row::Clip => b"clip",
            Row::Tabread => b"tabread",
            Row::Tabwrite => b"tabwrite",
            Row::Toggle => b"tgl",
            Row::Sounding(row) => row.name(),
        }
    }
}

impl SignalRow {
    /// The first name of the row.
    pub fn name(self) -> &'static [u8]
        ensures { result.now ≡ signal_row_name self }
    {
        match self {
            SignalRow::Sig => b"sig~",
            SignalRow::Phasor => b"phasor~",
            SignalRow::Osc => b"osc~",
            SignalRow::Noise => b"noise~",
            SignalRow::SignalOperation => b"+~",
            SignalRow::SignalFunction => b"abs~",
            SignalRow::SignalClip => b"clip~",
            SignalRow::Line => b"line~",
            SignalRow::Samphold => b"samphold~",
            SignalRow::Lop => b"lop~",
            SignalRow::Hip => b"hip~",
            SignalRow::Delwrite => b"delwrite~",
            SignalRow::Delread => b"delread~",
            SignalRow::SignalSend => b"send~",
            SignalRow::SignalReceive => b"receive~",
            SignalRow::Throw => b"throw~",
            SignalRow::Catch => b"catch~",
            SignalRow::Snapshot => b"snapshot~",
            SignalRow::SignalTabread => b"tabread~",
            SignalRow::Dac => b"dac~",
            SignalRow::SignalInlet => b"inlet~",
            SignalRow::SignalOutlet => b"outlet~",
            SignalRow::Vline => b"vline~",
        }
    }
}
