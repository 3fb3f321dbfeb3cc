//! Laws over what the calls give.
ghost use Rattle.std.specs.Prelude.{◌≡◌, ◌<◌, ◌≤◌, ◌∷◌, [], length};
ghost use Rattle.pd_atom.specs.declared.Atom.{Atom};
ghost use Rattle.pd_atom.specs.declared.Atom.TheVariants.{Comma};
ghost use Rattle.pd_atom.specs.Names.{Names, IsTable, Extends, given, longest};
ghost use Rattle.pd_atom.specs.Atoms.{IsOf, HoldsNumber, spelled};
ghost use Rattle.pd_atom.specs.Tokens.{atom_read, settled, IsSettled};

/// The spelling of an atom has from 1 to 255 bytes, and reads as the settled atom without a new name.
pub fn spellings_read()
    ensures some { (names : Names) (a : Atom) → IsTable names → IsOf names a → HoldsNumber a → 0 < length (spelled names a) }
    ensures short { (names : Names) (a : Atom) → IsTable names → IsOf names a → HoldsNumber a → length (spelled names a) ≤ longest }
    ensures read { (names : Names) (a : Atom) → IsTable names → IsOf names a → HoldsNumber a →
        atom_read names (spelled names a) ≡ given (settled names a) names }
{}

/// An atom that settles to itself is settled, it holds a number that is one, and it is a comma where it is spelled so.
pub fn settled_laws()
    ensures same { (names : Names) (a : Atom) → IsSettled names a → settled names a ≡ a }
    ensures number { (names : Names) (a : Atom) → IsSettled names a → HoldsNumber a }
    ensures comma { (names : Names) (a : Atom) → IsSettled names a → spelled names a ≡ 44 ∷ [] → a ≡ Comma }
{}

/// Where a table goes on, atoms of it stay atoms of it, with the same spelling, and settled ones stay settled.
pub fn tables_extended()
    ensures of_table { (old new : Names) (a : Atom) → Extends old new → IsOf old a → IsOf new a }
    ensures spelled { (old new : Names) (a : Atom) → Extends old new → IsOf old a → spelled new a ≡ spelled old a }
    ensures settled { (old new : Names) (a : Atom) → Extends old new → IsTable old → IsTable new → IsOf old a →
        IsSettled old a → IsSettled new a }
    ensures onward { (first second third : Names) → Extends first second → Extends second third → Extends first third }
{}
