//! The document of a made patch.

ghost use Rattle.std.specs.Prelude.{◌≡◌, ◌≤◌, ◌++◌, pos, length, IfOk, OnOk};
ghost use Rattle.pd_atom.specs.Names.{IsTable};
ghost use Rattle.pd_canvas.specs.Proper.{IsProper};
ghost use Rattle.pd_canvas.specs.Views.{entry_of, entries_of};
ghost use Rattle.pd_made.specs.Voices.{with_words, words_in, AreWords};
ghost use Rattle.pd_made.specs.Documents.{made_header, object_box as object_box_of, frequency as frequency_of, voice_boxes, made_boxes, voice_wires, made_wires, document_by, made_document};

use crate::words::{Words, bring_words};
use pd_atom::{Atom, Symbols};
use pd_canvas::{AtomRows, Atoms, Canvas, Doc, Element, Elements, Form, Wire, Wires};
use pd_num::Num;
use std::alloc::{AllocError, Global};

/// One unit, in millionths.
const UNIT: u32 = 1_000_000;

/// The made patch of so many voices: an output, and for each voice an oscillator whose tone goes there made softer.
///
/// The table has its words after it, whatever the answer.
pub fn make_doc(alloc: Global, n: u32, symbols: &mut Symbols) -> Result<Doc, AllocError>
    requires few { n ≤ 1000 }
    requires room { length symbols.old ≤ 65533 }
    ensures names { symbols.new ≡ with_words symbols.old }
    ensures table { IsTable symbols.new }
    ensures words { AreWords symbols.new (words_in symbols.new) }
    ensures document { IfOk result (λ d. d.root ≡ made_document symbols.new n) }
    ensures proper { IsProper symbols.new (made_document symbols.new n) }
{
    let words = bring_words(symbols);
    make_by(alloc, n, words)
}

/// The made patch, by its words.
fn make_by(alloc: Global, n: u32, words: Words) -> Result<Doc, AllocError>
    requires { n ≤ 1000 }
    ensures { IfOk result (λ d. d.root ≡ document_by words n) }
{
    let header = make_header(alloc)?;
    let boxes = make_boxes(alloc, n, words)?;
    let wires = make_wires(alloc, n)?;
    let root = Canvas {
        header,
        kept: AtomRows::new(alloc),
        boxes: Elements::from_vec(boxes),
        wires: Wires::from_vec(wires),
        coords: AtomRows::new(alloc),
    };
    Ok(Doc { root })
}

/// The number of so many millionths.
fn number(micros: u32) -> Num
    ensures { result ≡ pos micros }
{
    match Num::of_micros(i64::from(micros)) {
        Some(num) => num,
        None => unreachable!(),
    }
}

fn make_header(alloc: Global) -> Result<Atoms, AllocError>
    ensures { IfOk result (λ h. h ≡ made_header) }
{
    let header = [
        Atom::Number(number(0)),
        Atom::Number(number(50 * UNIT)),
        Atom::Number(number(450 * UNIT)),
        Atom::Number(number(300 * UNIT)),
        Atom::Number(number(12 * UNIT)),
    ];
    Ok(Atoms::from_vec(Vec::from_slice(alloc, &header)?))
}

/// An object at 0 0.
fn object_box(alloc: Global, text: &[Atom]) -> Result<Element, AllocError>
    ensures { IfOk result (λ e. entry_of e ≡ object_box_of text.now) }
{
    Ok(Element {
        x: number(0),
        y: number(0),
        form: Form::Obj,
        text: Atoms::from_vec(Vec::from_slice(alloc, text)?),
        width: None,
        tail: AtomRows::new(alloc),
    })
}

/// The frequency of a voice, in Hz.
fn frequency(voice: u32) -> u32
    requires { voice ≤ 1000 }
    ensures { result ≡ frequency_of voice }
{
    100 + 37 * voice % 400
}

/// Puts the boxes of a voice last.
fn push_voice(
    alloc: Global,
    voice: u32,
    words: Words,
    boxes: &mut Vec<Element>,
) -> Result<(), AllocError>
    requires { voice ≤ 1000 }
    ensures { OnOk result (entries_of boxes.new.items ≡ entries_of boxes.old.items ++ voice_boxes words voice) }
{
    let tone = number(frequency(voice) * UNIT);
    let oscillator = [Atom::Symbol(words.oscillator), Atom::Number(tone)];
    boxes.push(object_box(alloc, &oscillator)?)?;
    let factor = [Atom::Symbol(words.factor), Atom::Number(number(1000))];
    boxes.push(object_box(alloc, &factor)?)?;
    Ok(())
}

/// The output and the boxes of all voices.
fn make_boxes(alloc: Global, n: u32, words: Words) -> Result<Vec<Element>, AllocError>
    requires { n ≤ 1000 }
    ensures { IfOk result (λ v. entries_of v.items ≡ made_boxes words n) }
{
    let mut boxes = Vec::new(alloc);
    boxes.push(object_box(alloc, &[Atom::Symbol(words.output)])?)?;
    for voice in 0..n {
        push_voice(alloc, voice + 1, words, &mut boxes)?;
    }
    Ok(boxes)
}

/// Puts the wires of a voice last.
fn push_wires(voice: u32, wires: &mut Vec<Wire>) -> Result<(), AllocError>
    requires some { 1 ≤ voice }
    requires few { voice ≤ 1000 }
    ensures { OnOk result (wires.new.items ≡ wires.old.items ++ voice_wires voice) }
{
    wires.push(Wire {
        source: 2 * voice - 1,
        outlet: 0,
        sink: 2 * voice,
        inlet: 0,
    })?;
    wires.push(Wire {
        source: 2 * voice,
        outlet: 0,
        sink: 0,
        inlet: 0,
    })?;
    Ok(())
}

/// The wires of all voices.
fn make_wires(alloc: Global, n: u32) -> Result<Vec<Wire>, AllocError>
    requires { n ≤ 1000 }
    ensures { IfOk result (λ v. v.items ≡ made_wires n) }
{
    let mut wires = Vec::new(alloc);
    for voice in 0..n {
        push_wires(voice + 1, &mut wires)?;
    }
    Ok(wires)
}
