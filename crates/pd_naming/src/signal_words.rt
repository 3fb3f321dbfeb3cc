//! The words of signal objects whose arguments need no list.

ghost use Rattle.std.specs.Prelude.{◌≡◌, IfSome};
ghost use Rattle.pd_object.specs.Ports.{IsSmallSignal};
ghost use Rattle.pd_naming.specs.Naming.{tone_named, mixed_named, shaped_named, shared_named};

use crate::arguments::{first_number, is_word, name_at, number_at};
use pd_atom::Atom;
use pd_object::{Signal, SignalFunction, SignalOperation, Spelling, Tone, zero};

/// The oscillators and `noise~`.
pub(crate) fn tone_word(word: &[u8], arguments: &[Atom]) -> Option<Tone>
    ensures { result ≡ tone_named word.now arguments.now }
{
    if is_word(word, b"phasor~") {
        Some(Tone::Phasor {
            hertz: number_at(arguments, 0, zero()),
        })
    } else if is_word(word, b"osc~") {
        Some(Tone::Osc {
            hertz: number_at(arguments, 0, zero()),
        })
    } else if is_word(word, b"noise~") {
        Some(Tone::Noise)
    } else {
        None
    }
}

/// The signal objects that compute with one or two values.
pub(crate) fn mixed_word(word: &[u8], arguments: &[Atom]) -> Option<Signal>
    ensures value { result ≡ mixed_named word.now arguments.now }
    ensures small { IfSome result IsSmallSignal }
{
    if is_word(word, b"+~") {
        Some(Signal::Operation {
            operation: SignalOperation::Add,
            right: first_number(arguments),
        })
    } else if is_word(word, b"-~") {
        Some(Signal::Operation {
            operation: SignalOperation::Subtract,
            right: first_number(arguments),
        })
    } else if is_word(word, b"*~") {
        Some(Signal::Operation {
            operation: SignalOperation::Multiply,
            right: first_number(arguments),
        })
    } else if is_word(word, b"/~") {
        Some(Signal::Operation {
            operation: SignalOperation::Divide,
            right: first_number(arguments),
        })
    } else if is_word(word, b"max~") {
        Some(Signal::Operation {
            operation: SignalOperation::Greatest,
            right: first_number(arguments),
        })
    } else if is_word(word, b"min~") {
        Some(Signal::Operation {
            operation: SignalOperation::Least,
            right: first_number(arguments),
        })
    } else if is_word(word, b"abs~") {
        Some(Signal::Function {
            function: SignalFunction::Magnitude,
        })
    } else if is_word(word, b"wrap~") {
        Some(Signal::Function {
            function: SignalFunction::Wrap,
        })
    } else {
        None
    }
}

/// The ones that shape a signal.
pub(crate) fn shaped_word(word: &[u8], arguments: &[Atom]) -> Option<Signal>
    ensures value { result ≡ shaped_named word.now arguments.now }
    ensures small { IfSome result IsSmallSignal }
{
    if is_word(word, b"sig~") {
        Some(Signal::Sig {
            value: number_at(arguments, 0, zero()),
        })
    } else if is_word(word, b"clip~") {
        Some(Signal::Clip {
            low: number_at(arguments, 0, zero()),
            high: number_at(arguments, 1, zero()),
        })
    } else if is_word(word, b"line~") {
        Some(Signal::Line)
    } else if is_word(word, b"samphold~") {
        Some(Signal::Samphold)
    } else if is_word(word, b"lop~") {
        Some(Signal::Lop {
            hertz: number_at(arguments, 0, zero()),
        })
    } else if is_word(word, b"hip~") {
        Some(Signal::Hip {
            hertz: number_at(arguments, 0, zero()),
        })
    } else if is_word(word, b"snapshot~") {
        Some(Signal::Snapshot)
    } else if is_word(word, b"inlet~") {
        Some(Signal::Inlet)
    } else if is_word(word, b"outlet~") {
        Some(Signal::Outlet)
    } else {
        None
    }
}

/// The ones that find one another by name.
pub(crate) fn shared_word(word: &[u8], arguments: &[Atom]) -> Option<Signal>
    ensures value { result ≡ shared_named word.now arguments.now }
    ensures small { IfSome result IsSmallSignal }
{
    if is_word(word, b"delwrite~") {
        Some(Signal::Delwrite {
            name: name_at(arguments, 0),
            time: number_at(arguments, 1, zero()),
        })
    } else if is_word(word, b"delread~") {
        Some(Signal::Delread {
            name: name_at(arguments, 0),
            time: number_at(arguments, 1, zero()),
        })
    } else if is_word(word, b"send~") {
        Some(Signal::Send {
            spelling: Spelling::Whole,
            name: name_at(arguments, 0),
        })
    } else if is_word(word, b"s~") {
        Some(Signal::Send {
            spelling: Spelling::Short,
            name: name_at(arguments, 0),
        })
    } else if is_word(word, b"receive~") {
        Some(Signal::Receive {
            spelling: Spelling::Whole,
            name: name_at(arguments, 0),
        })
    } else if is_word(word, b"r~") {
        Some(Signal::Receive {
            spelling: Spelling::Short,
            name: name_at(arguments, 0),
        })
    } else if is_word(word, b"throw~") {
        Some(Signal::Throw {
            name: name_at(arguments, 0),
        })
    } else if is_word(word, b"catch~") {
        Some(Signal::Catch {
            name: name_at(arguments, 0),
        })
    } else if is_word(word, b"tabread~") {
        Some(Signal::Tabread {
            name: name_at(arguments, 0),
        })
    } else {
        None
    }
}
