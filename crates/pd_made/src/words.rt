//! The words of a made patch's texts, as symbols of a table.

ghost use Rattle.std.specs.Prelude.{◌≡◌, ◌<◌, ◌≤◌, ◌+◌, length, position, bytes_eq, Some};
ghost use Rattle.pd_atom.specs.Names.{IsTable, Extends, longest, most};
ghost use Rattle.pd_made.specs.Voices.{with_name, with_words, words_in, AreWords};

use pd_atom::{Sym, Symbols};

/// The symbols of `dac~`, `osc~` and `*~`.
#[derive(Clone, Copy, Debug, PartialEq, Eq)]
pub(crate) struct Words {
    pub(crate) output: Sym,
    pub(crate) oscillator: Sym,
    pub(crate) factor: Sym,
}

/// The symbol of a name, for which the table has room.
fn symbol_of(name: &[u8], symbols: &mut Symbols) -> Sym
    requires some { 0 < length name.now }
    requires short { length name.now ≤ longest }
    requires room { length symbols.old < most }
    ensures names { symbols.new ≡ with_name symbols.old name.now }
    ensures place { position (bytes_eq name.now) symbols.new ≡ Some result }
    ensures extends { Extends symbols.old symbols.new }
    ensures few { length symbols.new ≤ length symbols.old + 1 }
    ensures table { IsTable symbols.new }
{
    match symbols.intern(name) {
        Ok(symbol) => symbol,
        Err(_) => unreachable!(),
    }
}

/// The words, which are new to the table or found there.
pub(crate) fn bring_words(symbols: &mut Symbols) -> Words
    requires { length symbols.old ≤ 65533 }
    ensures names { symbols.new ≡ with_words symbols.old }
    ensures there { AreWords symbols.new result }
    ensures value { result ≡ words_in symbols.new }
    ensures table { IsTable symbols.new }
{
    let output = symbol_of(b"dac~", symbols);
    let oscillator = symbol_of(b"osc~", symbols);
    let factor = symbol_of(b"*~", symbols);
    Words {
        output,
        oscillator,
        factor,
    }
}
