//! The printed lines.

ghost use Rattle.std.specs.Prelude.{◌≡◌, ◌<◌, length, codes, OnOk, OnErr};
ghost use Rattle.std.specs.List.{All};
ghost use Rattle.pd_atom.specs.Atoms.{IsOf};
ghost use Rattle.pd_say.specs.Gathering.{Says, Fails, HasCause};
ghost use Rattle.pd_say.specs.Lines.{text_of, selector_error, named_error, boxes_line, print_line, argument_error, file_error, wire_error, refusal_text, LineOf, notice_line as line_of_notice};
ghost use Rattle.pd_say.specs.Paths.{CanvasOf};
ghost use Rattle.pd_object.specs.RowNames.{row_name};

use crate::gathering::{Held, put};
use crate::paths::CanvasPath;
use crate::pieces::{Piece, put_all};
use crate::refusals::{Request, Why};
use pd_atom::{Atom, Sym, Symbols};
use pd_io::{Sink, SinkFailed};
use pd_kind::{Message, Notice, Row};

/// The ends of a wire: the number of its source box with the outlet, and that of its sink box with the inlet.
#[derive(Clone, Copy, Debug, PartialEq, Eq)]
pub struct Ends {
    pub source: u32,
    pub outlet: u32,
    pub sink: u32,
    pub inlet: u32,
}

/// A printed line.
#[derive(Clone, Copy)]
pub enum Line<'a> {
    /// A print with these words, its arguments, hears a message.
    Print {
        words: &'a [Atom],
        message: Message<'a>,
    },
    /// The row's objects have no method for the selector.
    NoMethod {
        row: Row,
        selector: Sym,
    },
    /// A canvas has no method for the selector.
    NoCanvasMethod {
        selector: Sym,
    },
    /// A delivery would go deeper than 1,000.
    StackOverflow,
    /// An event has had 1,000,000 deliveries.
    EventCut,
    /// Nobody hears at the name that a message box or the script gives.
    NoObject {
        name: Atom,
    },
    /// A message box lacks the argument of this number.
    NoArgument {
        number: u16,
    },
    /// A message was cut at 1,024 atoms.
    MessageCut,
    /// The text of a message box would exceed 1,024 atoms.
    TextFull,
    /// The table of names is full.
    TableFull,
    /// An event has asked for 256 edits.
    QueueFull,
    /// A canvas hears a verb with other arguments.
    BadArguments {
        selector: Sym,
    },
    /// A box isn't made: its text, which begins with this atom, names no object.
    NotMade {
        name: Atom,
    },
    /// A box isn't made: the file of its name is refused at this record, 0 where it is too long.
    BadFile {
        name: Atom,
        number: u32,
    },
    /// A box isn't made: it would be inside itself.
    InsideItself {
        name: Atom,
    },
    /// A box isn't made: its canvas would be nested too deep.
    TooDeep {
        name: Atom,
    },
    /// A `vline~` has 256 ramps that it has yet to begin.
    TooManyRamps,
    /// A wire is left out, by the numbers of its ends before the edit.
    NoFit {
        wire: Ends,
        canvas: CanvasPath<'a>,
    },
    /// The boxes of a canvas that have no place in the signal order.
    SignalLoop {
        canvas: CanvasPath<'a>,
        boxes: &'a [u32],
    },
    /// What was asked for isn't done.
    Refused {
        request: Request,
        why: Why,
    },
    /// The signal order of a canvas.
    Chain {
        canvas: CanvasPath<'a>,
        boxes: &'a [u32],
    },
    /// The boxes that the signal order of a canvas lacks.
    Stuck {
        canvas: CanvasPath<'a>,
        boxes: &'a [u32],
    },
    /// The path of a `show` leads to no canvas.
    NoCanvas,
}

/// Says an error of the objects of a kind with a selector.
fn put_selector_error<'a, L: Sink>(
    kind: &'a [u8],
    complaint: &'a [u8],
    selector: Sym,
    symbols: &'a Symbols,
    held: &mut Held,
    sink: &mut L,
) -> Result<(), SinkFailed>
    requires { selector < length symbols.now }
    ensures ok { OnOk result (Says (L.taken sink.old) held.old.items (L.taken sink.new) held.new.items (selector_error symbols.now kind.now complaint.now selector)) }
    ensures err { OnErr result (Fails (L.taken sink.old) held.old.items (L.taken sink.new) (selector_error symbols.now kind.now complaint.now selector)) }
    ensures cause { HasCause (L.faults sink.old) (L.faults sink.new) result }
{
    let pieces = [
        Piece::Bytes(b"error: "),
        Piece::Bytes(kind),
        Piece::Bytes(complaint),
        Piece::Bytes(symbols.name(selector)),
        Piece::Bytes(b"'\n"),
    ];
    put_all(&pieces, symbols, held, sink)
}

/// Says that the objects of a row have no method for a selector.
fn put_no_method<L: Sink>(
    row: Row,
    selector: Sym,
    symbols: &Symbols,
    held: &mut Held,
    sink: &mut L,
) -> Result<(), SinkFailed>
    requires { selector < length symbols.now }
    ensures ok { OnOk result (Says (L.taken sink.old) held.old.items (L.taken sink.new) held.new.items (selector_error symbols.now (row_name row) (codes ": no method for '") selector)) }
    ensures err { OnErr result (Fails (L.taken sink.old) held.old.items (L.taken sink.new) (selector_error symbols.now (row_name row) (codes ": no method for '") selector)) }
    ensures cause { HasCause (L.faults sink.old) (L.faults sink.new) result }
{
    put_selector_error(
        row.name(),
        b": no method for '",
        selector,
        symbols,
        held,
        sink,
    )
}

/// Says an error of canvases with a selector.
fn put_canvas_error<'a, L: Sink>(
    complaint: &'a [u8],
    selector: Sym,
    symbols: &'a Symbols,
    held: &mut Held,
    sink: &mut L,
) -> Result<(), SinkFailed>
    requires { selector < length symbols.now }
    ensures ok { OnOk result (Says (L.taken sink.old) held.old.items (L.taken sink.new) held.new.items (selector_error symbols.now (codes "pd") complaint.now selector)) }
    ensures err { OnErr result (Fails (L.taken sink.old) held.old.items (L.taken sink.new) (selector_error symbols.now (codes "pd") complaint.now selector)) }
    ensures cause { HasCause (L.faults sink.old) (L.faults sink.new) result }
{
    put_selector_error(b"pd", complaint, selector, symbols, held, sink)
}

/// Says an error with what an atom names.
fn put_named<L: Sink>(
    atom: Atom,
    complaint: &[u8],
    symbols: &Symbols,
    held: &mut Held,
    sink: &mut L,
) -> Result<(), SinkFailed>
    requires { IsOf symbols.now atom }
    ensures ok { OnOk result (Says (L.taken sink.old) held.old.items (L.taken sink.new) held.new.items (named_error symbols.now atom complaint.now)) }
    ensures err { OnErr result (Fails (L.taken sink.old) held.old.items (L.taken sink.new) (named_error symbols.now atom complaint.now)) }
    ensures cause { HasCause (L.faults sink.old) (L.faults sink.new) result }
{
    let pieces = [
        Piece::Bytes(b"error: "),
        Piece::Atom(atom),
        Piece::Bytes(complaint),
    ];
    put_all(&pieces, symbols, held, sink)
}

/// Says where a canvas is, and numbers of boxes.
fn put_boxes<'a, L: Sink>(
    word: &'a [u8],
    canvas: &CanvasPath<'a>,
    boxes: &'a [u32],
    symbols: &Symbols,
    held: &mut Held,
    sink: &mut L,
) -> Result<(), SinkFailed>
    requires { CanvasOf symbols.now canvas.now }
    ensures ok { OnOk result (Says (L.taken sink.old) held.old.items (L.taken sink.new) held.new.items (boxes_line symbols.now word.now canvas.now boxes.now)) }
    ensures err { OnErr result (Fails (L.taken sink.old) held.old.items (L.taken sink.new) (boxes_line symbols.now word.now canvas.now boxes.now)) }
    ensures cause { HasCause (L.faults sink.old) (L.faults sink.new) result }
{
    let pieces = [
        Piece::Bytes(word),
        Piece::Canvas(canvas.document, canvas.path),
        Piece::Bytes(b":"),
        Piece::Numbers(boxes),
        Piece::Bytes(b"\n"),
    ];
    put_all(&pieces, symbols, held, sink)
}

/// Says which boxes have no place in the signal order.
fn put_loop<'a, L: Sink>(
    canvas: &CanvasPath<'a>,
    boxes: &'a [u32],
    symbols: &Symbols,
    held: &mut Held,
    sink: &mut L,
) -> Result<(), SinkFailed>
    requires { CanvasOf symbols.now canvas.now }
    ensures ok { OnOk result (Says (L.taken sink.old) held.old.items (L.taken sink.new) held.new.items (boxes_line symbols.now (codes "error: signal loop at ") canvas.now boxes.now)) }
    ensures err { OnErr result (Fails (L.taken sink.old) held.old.items (L.taken sink.new) (boxes_line symbols.now (codes "error: signal loop at ") canvas.now boxes.now)) }
    ensures cause { HasCause (L.faults sink.old) (L.faults sink.new) result }
{
    put_boxes(
        b"error: signal loop at ",
        canvas,
        boxes,
        symbols,
        held,
        sink,
    )
}

/// Says the line of a print.
fn put_print<'a, L: Sink>(
    words: &'a [Atom],
    selector: Sym,
    atoms: &'a [Atom],
    symbols: &Symbols,
    held: &mut Held,
    sink: &mut L,
) -> Result<(), SinkFailed>
    requires words { All (λ a. IsOf symbols.now a) words.now }
    requires selector { selector < length symbols.now }
    requires atoms { All (λ a. IsOf symbols.now a) atoms.now }
    ensures ok { OnOk result (Says (L.taken sink.old) held.old.items (L.taken sink.new) held.new.items (print_line symbols.now words.now selector atoms.now)) }
    ensures err { OnErr result (Fails (L.taken sink.old) held.old.items (L.taken sink.new) (print_line symbols.now words.now selector atoms.now)) }
    ensures cause { HasCause (L.faults sink.old) (L.faults sink.new) result }
{
    let pieces = [
        Piece::Words(words),
        Piece::Bytes(b": "),
        Piece::Message(selector, atoms),
        Piece::Bytes(b"\n"),
    ];
    put_all(&pieces, symbols, held, sink)
}

/// Says that an argument is missing.
fn put_no_argument<L: Sink>(
    number: u16,
    symbols: &Symbols,
    held: &mut Held,
    sink: &mut L,
) -> Result<(), SinkFailed>
    ensures ok { OnOk result (Says (L.taken sink.old) held.old.items (L.taken sink.new) held.new.items (argument_error number)) }
    ensures err { OnErr result (Fails (L.taken sink.old) held.old.items (L.taken sink.new) (argument_error number)) }
    ensures cause { HasCause (L.faults sink.old) (L.faults sink.new) result }
{
    let pieces = [
        Piece::Bytes(b"error: $"),
        Piece::Count(u32::from(number)),
        Piece::Bytes(b": no such argument\n"),
    ];
    put_all(&pieces, symbols, held, sink)
}

/// Says that a file is refused.
fn put_bad_file<L: Sink>(
    name: Atom,
    number: u32,
    symbols: &Symbols,
    held: &mut Held,
    sink: &mut L,
) -> Result<(), SinkFailed>
    requires { IsOf symbols.now name }
    ensures ok { OnOk result (Says (L.taken sink.old) held.old.items (L.taken sink.new) held.new.items (file_error symbols.now name number)) }
    ensures err { OnErr result (Fails (L.taken sink.old) held.old.items (L.taken sink.new) (file_error symbols.now name number)) }
    ensures cause { HasCause (L.faults sink.old) (L.faults sink.new) result }
{
    let pieces = [
        Piece::Bytes(b"error: "),
        Piece::Atom(name),
        Piece::Bytes(b": bad file at record "),
        Piece::Count(number),
        Piece::Bytes(b"\n"),
    ];
    put_all(&pieces, symbols, held, sink)
}

/// Says that a wire is left out.
fn put_no_fit<L: Sink>(
    wire: &Ends,
    canvas: &CanvasPath<'_>,
    symbols: &Symbols,
    held: &mut Held,
    sink: &mut L,
) -> Result<(), SinkFailed>
    requires { CanvasOf symbols.now canvas.now }
    ensures ok { OnOk result (Says (L.taken sink.old) held.old.items (L.taken sink.new) held.new.items (wire_error symbols.now wire.now canvas.now)) }
    ensures err { OnErr result (Fails (L.taken sink.old) held.old.items (L.taken sink.new) (wire_error symbols.now wire.now canvas.now)) }
    ensures cause { HasCause (L.faults sink.old) (L.faults sink.new) result }
{
    let pieces = [
        Piece::Bytes(b"error: wire "),
        Piece::Count(wire.source),
        Piece::Bytes(b" "),
        Piece::Count(wire.outlet),
        Piece::Bytes(b" "),
        Piece::Count(wire.sink),
        Piece::Bytes(b" "),
        Piece::Count(wire.inlet),
        Piece::Bytes(b" does not fit at "),
        Piece::Canvas(canvas.document, canvas.path),
        Piece::Bytes(b"\n"),
    ];
    put_all(&pieces, symbols, held, sink)
}

/// Says that what was asked for isn't done.
fn put_refused<L: Sink>(
    request: Request,
    why: Why,
    symbols: &Symbols,
    held: &mut Held,
    sink: &mut L,
) -> Result<(), SinkFailed>
    ensures ok { OnOk result (Says (L.taken sink.old) held.old.items (L.taken sink.new) held.new.items (refusal_text request why)) }
    ensures err { OnErr result (Fails (L.taken sink.old) held.old.items (L.taken sink.new) (refusal_text request why)) }
    ensures cause { HasCause (L.faults sink.old) (L.faults sink.new) result }
{
    let pieces = [
        Piece::Bytes(b"error: "),
        Piece::Bytes(request.word()),
        Piece::Bytes(b" refused: "),
        Piece::Why(why),
        Piece::Bytes(b"\n"),
    ];
    put_all(&pieces, symbols, held, sink)
}

/// Says a line.
#[tactic(auto, unfolding(crate::specs::Lines::text_of))]
pub fn say<L: Sink>(
    line: &Line<'_>,
    symbols: &Symbols,
    held: &mut Held,
    sink: &mut L,
) -> Result<(), SinkFailed>
    requires { LineOf symbols.now line.now }
    ensures ok { OnOk result (Says (L.taken sink.old) held.old.items (L.taken sink.new) held.new.items (text_of symbols.now line.now)) }
    ensures err { OnErr result (Fails (L.taken sink.old) held.old.items (L.taken sink.new) (text_of symbols.now line.now)) }
    ensures cause { HasCause (L.faults sink.old) (L.faults sink.new) result }
{
    match line {
        Line::Print { words, message } => {
            put_print(words, message.selector, message.atoms, symbols, held, sink)
        }
        Line::NoMethod { row, selector } => put_no_method(*row, *selector, symbols, held, sink),
        Line::NoCanvasMethod { selector } => {
            put_canvas_error(b": no method for '", *selector, symbols, held, sink)
        }
        Line::BadArguments { selector } => {
            put_canvas_error(b": bad arguments for '", *selector, symbols, held, sink)
        }
        Line::NoObject { name } => put_named(*name, b": no such object\n", symbols, held, sink),
        Line::NotMade { name } => put_named(*name, b": couldn't create\n", symbols, held, sink),
        Line::InsideItself { name } => put_named(*name, b": inside itself\n", symbols, held, sink),
        Line::TooDeep { name } => put_named(*name, b": too deep\n", symbols, held, sink),
        Line::BadFile { name, number } => put_bad_file(*name, *number, symbols, held, sink),
        Line::NoArgument { number } => put_no_argument(*number, symbols, held, sink),
        Line::NoFit { wire, canvas } => put_no_fit(wire, canvas, symbols, held, sink),
        Line::SignalLoop { canvas, boxes } => put_loop(canvas, boxes, symbols, held, sink),
        Line::Chain { canvas, boxes } => put_boxes(b"chain ", canvas, boxes, symbols, held, sink),
        Line::Stuck { canvas, boxes } => put_boxes(b"stuck ", canvas, boxes, symbols, held, sink),
        Line::Refused { request, why } => put_refused(*request, *why, symbols, held, sink),
        Line::StackOverflow => put(b"error: stack overflow\n", held, sink),
        Line::EventCut => put(b"error: event cut at 1000000 deliveries\n", held, sink),
        Line::MessageCut => put(b"error: message cut at 1024 atoms\n", held, sink),
        Line::TextFull => put(b"error: msg: text full\n", held, sink),
        Line::TableFull => put(b"error: symbol table full\n", held, sink),
        Line::QueueFull => put(b"error: edit queue full\n", held, sink),
        Line::TooManyRamps => put(b"error: vline~: too many ramps\n", held, sink),
        Line::NoCanvas => put(b"error: show: no canvas\n", held, sink),
    }
}

/// The line of a notice.
pub fn line_of(notice: Notice) -> Line<'static>
    ensures { result ≡ line_of_notice notice }
{
    match notice {
        Notice::NoMethod { row, selector } => Line::NoMethod { row, selector },
        Notice::NoArgument { number } => Line::NoArgument { number },
        Notice::NoReceiver { name } => Line::NoObject { name },
        Notice::MessageCut => Line::MessageCut,
        Notice::TextFull => Line::TextFull,
        Notice::TableFull => Line::TableFull,
        Notice::TooManyRamps => Line::TooManyRamps,
    }
}

/// Says the line of a notice.
pub fn say_notice<L: Sink>(
    notice: Notice,
    symbols: &Symbols,
    held: &mut Held,
    sink: &mut L,
) -> Result<(), SinkFailed>
    requires { LineOf symbols.now (line_of_notice notice) }
    ensures ok { OnOk result (Says (L.taken sink.old) held.old.items (L.taken sink.new) held.new.items (text_of symbols.now (line_of_notice notice))) }
    ensures err { OnErr result (Fails (L.taken sink.old) held.old.items (L.taken sink.new) (text_of symbols.now (line_of_notice notice))) }
    ensures cause { HasCause (L.faults sink.old) (L.faults sink.new) result }
{
    let line = line_of(notice);
    say(&line, symbols, held, sink)
}
