//! Laws over blocks.

ghost use Rattle.std.specs.Prelude.{◌≡◌, ◌<◌, ◌≤◌, ℕ, List};
ghost use Rattle.pd_atom.specs.Names.{Names};
ghost use Rattle.pd_clock.specs.declared.times.Rate.{Rate};
ghost use Rattle.pd_clock.specs.Queue.{Clock};
ghost use Rattle.pd_tree.specs.declared.rows.Sheet.{Sheet};
ghost use Rattle.pd_tree.specs.Trees.{Tree, Trees};
ghost use Rattle.pd_growth.specs.Steps.{Step};
ghost use Rattle.pd_grove.specs.Standing.{GroveStands};
ghost use Rattle.pd_grove.specs.TextOrder.{deep};
ghost use Rattle.pd_patch.specs.declared.patch.Patch.{Patch};
ghost use Rattle.pd_patch.specs.Orders.{AreOrdered};
ghost use Rattle.pd_patch.specs.Built.{IsBuilt};
ghost use Rattle.pd_patch.specs.Grown.{IsTree};
ghost use Rattle.pd_block.specs.Nets.{Sound, net_of, with_clocks};
ghost use Rattle.pd_block.specs.Blocks.{block_within, block_of};

/// Where no more canvases lie in one another than are run, a block in which more are run is the same: no box is silent because it lies too
/// deep. In a patch that grew this is so, whatever its clocks are by then and whatever its boxes keep.
pub fn levels_are_enough()
    ensures standing { (p : Patch) (s : Sheet) (t : Trees) → GroveStands p.grove s t → AreOrdered p.grove p.web p.orders.items → deep t ≤ 256 →
        (clocks : List Clock) (sound : Sound) (start levels : ℕ) → deep t < levels →
        block_within levels (with_clocks (net_of p) clocks) sound start ≡ block_of (with_clocks (net_of p) clocks) sound start }
    ensures grown { (p : Patch) (names : Names) (file : List ℕ) (rate : Rate) (grown : Step Tree) → IsTree p names rate grown →
        IsBuilt p names file rate → (clocks : List Clock) (sound : Sound) (start levels : ℕ) → 256 ≤ levels →
        block_within levels (with_clocks (net_of p) clocks) sound start ≡ block_of (with_clocks (net_of p) clocks) sound start }
{}
