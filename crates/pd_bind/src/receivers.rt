//! The symbols at which canvases hear.

ghost use Rattle.std.specs.Prelude.{◌≡◌, ◌<◌, length, MatchOption};
ghost use Rattle.pd_atom.specs.Names.{name_of, longest};
ghost use Rattle.pd_bind.specs.Naming.{symbol_named, canvas_symbol, receiver_bytes};

use arrayvec::ArrayVec;
use pd_atom::{Sym, Symbols};

/// The greatest length of a name.
const LONGEST: usize = 255;

/// The symbol of a name, where the table has it. The table stays as it is.
fn find(name: &[u8], symbols: &mut Symbols) -> Option<Sym>
    requires { 0 < length name.now }
    ensures value { result ≡ symbol_named symbols.old name.now }
    ensures table { symbols.new ≡ symbols.old }
{
    let len = symbols.len();
    let Ok(symbol) = symbols.intern(name) else {
        return None;
    };
    if symbol.number() < len {
        return Some(symbol);
    }
    symbols.cut_back(len);
    None
}

/// The symbol at which a canvas of this name hears, where the table has it. The table stays as it is.
pub(crate) fn canvas_receiver(name: &[u8], symbols: &mut Symbols) -> Option<Sym>
    ensures value { result ≡ canvas_symbol symbols.old name.now }
    ensures table { symbols.new ≡ symbols.old }
{
    match receiver(name) {
        Some(bytes) => find(bytes.as_slice(), symbols),
        None => None,
    }
}

/// The symbol at which a canvas of this symbol's name hears, where the table has it. The table stays as it is.
pub(crate) fn named_canvas_receiver(name: Sym, symbols: &mut Symbols) -> Option<Sym>
    ensures value { result ≡ canvas_symbol symbols.old (name_of symbols.old name) }
    ensures table { symbols.new ≡ symbols.old }
{
    match receiver(spelling(name, symbols)) {
        Some(bytes) => find(bytes.as_slice(), symbols),
        None => None,
    }
}

/// `pd-` and a name, where these are no more bytes than a name may have.
fn receiver(name: &[u8]) -> Option<ArrayVec<u8, LONGEST>>
    ensures { MatchOption result (longest < length (receiver_bytes name.now)) (λ bytes. bytes.items ≡ receiver_bytes name.now) }
{
    let mut bytes = ArrayVec::new();
    bytes.try_extend_from_slice(b"pd-").ok()?;
    bytes.try_extend_from_slice(name).ok()?;
    Some(bytes)
}

/// The bytes of a symbol, none where it isn't of the table.
pub(crate) fn spelling(name: Sym, symbols: &Symbols) -> &[u8]
    ensures { result.now ≡ name_of symbols.now name }
{
    if name.number() < symbols.len() {
        symbols.name(name)
    } else {
        &[]
    }
}
