//! Laws over what the edits give.
ghost use Rattle.std.specs.Prelude.{◌≡◌, ℕ, false, ◌==◌, ◌&&◌, List, [], ◌∷◌, ◌++◌, IsSomeAnd};
ghost use Rattle.pd_atom.specs.Names.{Names};
ghost use Rattle.pd_canvas.specs.declared.wires.Wire.{Wire};
ghost use Rattle.pd_canvas.specs.declared.edits.Edit.{Edit};
ghost use Rattle.pd_canvas.specs.Pages.{Page};
ghost use Rattle.pd_canvas.specs.Wiring.{with_wire, AreSorted, fan_out};
ghost use Rattle.pd_canvas.specs.Paths.{along, edit_at};
ghost use Rattle.pd_canvas.specs.Edits.{Fits, edited};
ghost use Rattle.pd_canvas.specs.Proper.{Brings, IsWithinLimits, IsProper};

/// A new wire goes last in its outlet's fan-out, and every other outlet keeps its own.
pub fn fan_outs()
    ensures last { (w : Wire) (ws : List Wire) → AreSorted ws →
        fan_out w.source w.outlet (with_wire w ws) ≡ fan_out w.source w.outlet ws ++ w ∷ [] }
    ensures others { (w : Wire) (ws : List Wire) (source outlet : ℕ) → (w.source == source && w.outlet == outlet) ≡ false →
        fan_out source outlet (with_wire w ws) ≡ fan_out source outlet ws }
{}

/// A proper document stays proper under an edit that brings what is ready, as long as it keeps the limits.
pub fn edits_keep_proper()
    ensures { (names : Names) (e : Edit) (path : List ℕ) (p : Page) → IsProper names p → IsSomeAnd (along path p) (Fits e) →
        Brings names e → IsWithinLimits (edit_at path (edited e) p) → IsProper names (edit_at path (edited e) p) }
{}
