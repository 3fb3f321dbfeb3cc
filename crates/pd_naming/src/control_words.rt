//! The words of control objects whose arguments need no list.

ghost use Rattle.std.specs.Prelude.{◌≡◌, IfSome};
ghost use Rattle.pd_object.specs.Ports.{IsSmallGlue};
ghost use Rattle.pd_naming.specs.Naming.{operation_named, comparison_named, division_named, plain_named, timed_named, addressed_named};

use crate::arguments::{hundred, is_word, name_at, number_at, one, or_symbol};
use pd_atom::Atom;
use pd_object::{Arith, Comparison, Division, Function, Glue, Operation, Side, Spelling, zero};

/// `+` `-` `*` `/` `min` `max`
pub(crate) fn operation_word(word: &[u8], arguments: &[Atom]) -> Option<Arith>
    ensures { result ≡ operation_named word.now arguments.now }
{
    if is_word(word, b"+") {
        Some(Arith::Operation {
            operation: Operation::Add,
            right: number_at(arguments, 0, zero()),
        })
    } else if is_word(word, b"-") {
        Some(Arith::Operation {
            operation: Operation::Subtract,
            right: number_at(arguments, 0, zero()),
        })
    } else if is_word(word, b"*") {
        Some(Arith::Operation {
            operation: Operation::Multiply,
            right: number_at(arguments, 0, zero()),
        })
    } else if is_word(word, b"/") {
        Some(Arith::Operation {
            operation: Operation::Divide,
            right: number_at(arguments, 0, zero()),
        })
    } else if is_word(word, b"min") {
        Some(Arith::Operation {
            operation: Operation::Least,
            right: number_at(arguments, 0, zero()),
        })
    } else if is_word(word, b"max") {
        Some(Arith::Operation {
            operation: Operation::Greatest,
            right: number_at(arguments, 0, zero()),
        })
    } else {
        None
    }
}

/// `==` `!=` `>` `<` `>=` `<=` `&&` `||`
pub(crate) fn comparison_word(word: &[u8], arguments: &[Atom]) -> Option<Arith>
    ensures { result ≡ comparison_named word.now arguments.now }
{
    if is_word(word, b"==") {
        Some(Arith::Comparison {
            comparison: Comparison::Equal,
            right: number_at(arguments, 0, zero()),
        })
    } else if is_word(word, b"!=") {
        Some(Arith::Comparison {
            comparison: Comparison::Unequal,
            right: number_at(arguments, 0, zero()),
        })
    } else if is_word(word, b">") {
        Some(Arith::Comparison {
            comparison: Comparison::Above,
            right: number_at(arguments, 0, zero()),
        })
    } else if is_word(word, b"<") {
        Some(Arith::Comparison {
            comparison: Comparison::Below,
            right: number_at(arguments, 0, zero()),
        })
    } else if is_word(word, b">=") {
        Some(Arith::Comparison {
            comparison: Comparison::NotBelow,
            right: number_at(arguments, 0, zero()),
        })
    } else if is_word(word, b"<=") {
        Some(Arith::Comparison {
            comparison: Comparison::NotAbove,
            right: number_at(arguments, 0, zero()),
        })
    } else if is_word(word, b"&&") {
        Some(Arith::Comparison {
            comparison: Comparison::Both,
            right: number_at(arguments, 0, zero()),
        })
    } else if is_word(word, b"||") {
        Some(Arith::Comparison {
            comparison: Comparison::Either,
            right: number_at(arguments, 0, zero()),
        })
    } else {
        None
    }
}

/// `%` `mod` `div` `abs` `mtof` `clip`
pub(crate) fn division_word(word: &[u8], arguments: &[Atom]) -> Option<Arith>
    ensures { result ≡ division_named word.now arguments.now }
{
    if is_word(word, b"%") {
        Some(Arith::Division {
            division: Division::Remainder,
            right: number_at(arguments, 0, zero()),
        })
    } else if is_word(word, b"mod") {
        Some(Arith::Division {
            division: Division::Modulo,
            right: number_at(arguments, 0, zero()),
        })
    } else if is_word(word, b"div") {
        Some(Arith::Division {
            division: Division::Quotient,
            right: number_at(arguments, 0, zero()),
        })
    } else if is_word(word, b"abs") {
        Some(Arith::Function {
            function: Function::Magnitude,
        })
    } else if is_word(word, b"mtof") {
        Some(Arith::Function {
            function: Function::Frequency,
        })
    } else if is_word(word, b"clip") {
        Some(Arith::Clip {
            low: number_at(arguments, 0, zero()),
            high: number_at(arguments, 1, zero()),
        })
    } else {
        None
    }
}

/// The control objects whose arguments are numbers.
pub(crate) fn plain_word(word: &[u8], arguments: &[Atom]) -> Option<Glue>
    ensures value { result ≡ plain_named word.now arguments.now }
    ensures small { IfSome result IsSmallGlue }
{
    if is_word(word, b"bang") {
        Some(Glue::Bang {
            spelling: Spelling::Whole,
        })
    } else if is_word(word, b"b") {
        Some(Glue::Bang {
            spelling: Spelling::Short,
        })
    } else if is_word(word, b"float") {
        Some(Glue::Float {
            spelling: Spelling::Whole,
            value: number_at(arguments, 0, zero()),
        })
    } else if is_word(word, b"f") {
        Some(Glue::Float {
            spelling: Spelling::Short,
            value: number_at(arguments, 0, zero()),
        })
    } else if is_word(word, b"int") {
        Some(Glue::Int {
            spelling: Spelling::Whole,
            value: number_at(arguments, 0, zero()),
        })
    } else if is_word(word, b"i") {
        Some(Glue::Int {
            spelling: Spelling::Short,
            value: number_at(arguments, 0, zero()),
        })
    } else if is_word(word, b"moses") {
        Some(Glue::Moses {
            bound: number_at(arguments, 0, zero()),
        })
    } else if is_word(word, b"spigot") {
        Some(Glue::Spigot {
            gate: number_at(arguments, 0, zero()),
        })
    } else if is_word(word, b"swap") {
        Some(Glue::Swap {
            right: number_at(arguments, 0, zero()),
        })
    } else if is_word(word, b"change") {
        Some(Glue::Change {
            value: number_at(arguments, 0, zero()),
        })
    } else {
        None
    }
}

/// The ones of time, of chance and of the patch's ports.
pub(crate) fn timed_word(word: &[u8], arguments: &[Atom]) -> Option<Glue>
    ensures value { result ≡ timed_named word.now arguments.now }
    ensures small { IfSome result IsSmallGlue }
{
    if is_word(word, b"until") {
        Some(Glue::Until)
    } else if is_word(word, b"loadbang") {
        Some(Glue::Loadbang)
    } else if is_word(word, b"metro") {
        Some(Glue::Metro {
            period: number_at(arguments, 0, one()),
        })
    } else if is_word(word, b"delay") {
        Some(Glue::Delay {
            spelling: Spelling::Whole,
            time: number_at(arguments, 0, zero()),
        })
    } else if is_word(word, b"del") {
        Some(Glue::Delay {
            spelling: Spelling::Short,
            time: number_at(arguments, 0, zero()),
        })
    } else if is_word(word, b"timer") {
        Some(Glue::Timer)
    } else if is_word(word, b"random") {
        Some(Glue::Random {
            range: number_at(arguments, 0, one()),
        })
    } else if is_word(word, b"inlet") {
        Some(Glue::Port { side: Side::Inlet })
    } else if is_word(word, b"outlet") {
        Some(Glue::Port { side: Side::Outlet })
    } else {
        None
    }
}

/// The ones whose arguments are names.
pub(crate) fn addressed_word(word: &[u8], arguments: &[Atom]) -> Option<Glue>
    ensures value { result ≡ addressed_named word.now arguments.now }
    ensures small { IfSome result IsSmallGlue }
{
    if is_word(word, b"symbol") {
        Some(Glue::Symbol {
            value: or_symbol(name_at(arguments, 0)),
        })
    } else if is_word(word, b"send") {
        Some(Glue::Send {
            spelling: Spelling::Whole,
            name: name_at(arguments, 0),
        })
    } else if is_word(word, b"s") {
        Some(Glue::Send {
            spelling: Spelling::Short,
            name: name_at(arguments, 0),
        })
    } else if is_word(word, b"receive") {
        Some(Glue::Receive {
            spelling: Spelling::Whole,
            name: name_at(arguments, 0),
        })
    } else if is_word(word, b"r") {
        Some(Glue::Receive {
            spelling: Spelling::Short,
            name: name_at(arguments, 0),
        })
    } else if is_word(word, b"table") {
        Some(Glue::Table {
            name: name_at(arguments, 0),
            size: number_at(arguments, 1, hundred()),
        })
    } else if is_word(word, b"tabread") {
        Some(Glue::Tabread {
            name: name_at(arguments, 0),
        })
    } else if is_word(word, b"tabwrite") {
        Some(Glue::Tabwrite {
            name: name_at(arguments, 0),
        })
    } else {
        None
    }
}
