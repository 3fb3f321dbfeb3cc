//! Laws over the wires of running patches.

ghost use Rattle.std.specs.Prelude.{◌≡◌, ◌+◌, ℕ, Some, IsSome, slice_get};
ghost use Rattle.pd_tree.specs.Trees.{Tree};
ghost use Rattle.pd_tree.specs.Ports.{sockets_in, trimmed_sheet};
ghost use Rattle.pd_grove.specs.declared.grove.Grove.{Grove};
ghost use Rattle.pd_grove.specs.Places.{CanvasStands};
ghost use Rattle.pd_web.specs.declared.web.Web.{Web};
ghost use Rattle.pd_web.specs.Lines.{Line, all_lines, fed_from, feeding, boxes_in};
ghost use Rattle.pd_web.specs.Canvases.{IsOwn, keys_at, fed_in, feeding_in, fitting, HoldersAreNoPorts};
ghost use Rattle.pd_web.specs.Changes.{line_told, wires_told, IsSame, Joins, CutsWire};

/// Where the boxes of a canvas stand in it once and in no other, the lines from an outlet of the box of a number are the wires of that
/// canvas that fit and come from this outlet, in their order; the lines to an inlet likewise.
pub fn canvases_wire_their_own_boxes()
    ensures fans { (g : Grove) (c i outlet k : ℕ) → IsOwn g c → slice_get (keys_at g c) i ≡ Some k →
        fed_from k outlet (all_lines g) ≡ fed_in g c i outlet }
    ensures feeds { (g : Grove) (c i inlet k : ℕ) → IsOwn g c → slice_get (keys_at g c) i ≡ Some k →
        feeding k inlet (all_lines g) ≡ feeding_in g c i inlet }
{}

/// Where a canvas stands under its key, its boxes have the ports that the tree gives them, and its wires that fit are those that the
/// trimmed tree keeps.
pub fn standing_canvases_are_trimmed()
    ensures ports { (g : Grove) (c : ℕ) (u : Tree) → CanvasStands g c u → HoldersAreNoPorts u.boxes → boxes_in g c ≡ sockets_in u.boxes }
    ensures wires { (g : Grove) (c : ℕ) (u : Tree) → CanvasStands g c u → HoldersAreNoPorts u.boxes → fitting g c ≡ (trimmed_sheet u.boxes u.sheet).wires }
{}

/// A wire that is joined is one more, one that is cut is one less, and where every wire stays there are as many.
pub fn wires_are_counted()
    ensures joins { (w w' : Web) (key : ℕ) (l : Line) (fan_place feed_place : ℕ) → Joins w w' key l fan_place feed_place →
        wires_told w' ≡ wires_told w + 1 }
    ensures cuts { (w w' : Web) (key : ℕ) → CutsWire w w' key → IsSome (line_told w key) → wires_told w' + 1 ≡ wires_told w }
    ensures stays { (w w' : Web) → IsSame w w' → wires_told w' ≡ wires_told w }
{}
