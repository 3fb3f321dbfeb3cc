//! Laws of the bounds of what boxes keep.
ghost use Rattle.std.specs.Prelude.{ℕ, ℤ, List, [], Option};
ghost use Rattle.slab.specs.Slab.{get};
ghost use Rattle.pd_atom.specs.Names.{Names};
ghost use Rattle.pd_atom.specs.declared.Atom.{Atom};
ghost use Rattle.pd_clock.specs.declared.times.Rate.{Rate};
ghost use Rattle.pd_object.specs.declared.kinds.Kind.{Kind};
ghost use Rattle.pd_kind.specs.declared.messages.Deed.{Deed};
ghost use Rattle.pd_kind.specs.declared.states.State.{State};
ghost use Rattle.pd_kind.specs.States.{start_of};
ghost use Rattle.pd_kind.specs.Tables.{started};
ghost use Rattle.pd_glue.specs.Rows.{resumed};
ghost use Rattle.pd_grove.specs.States.{NodesFresh};
ghost use Rattle.pd_patch.specs.declared.patch.Patch.{Patch};
ghost use Rattle.pd_turns.specs.Turns.{World};
ghost use Rattle.pd_hearing.specs.Worlds.{Net, Kept};
ghost use Rattle.pd_hearing.specs.Hearing.{heard_kind, heard_at, resumed_at};
ghost use Rattle.pd_hearing.specs.Deeds.{done};
ghost use Rattle.pd_walk.specs.declared.walker.Start.{Start};
ghost use Rattle.pd_walk.specs.declared.walker.Budget.{Budget};
ghost use Rattle.pd_walk.specs.Outcome.{outcome, world, IsLeft};
ghost use Rattle.pd_block.specs.Nets.{Net as BlockNet, Sound, states_of};
ghost use Rattle.pd_block.specs.Blocks.{block_of};
ghost use Rattle.pd_bounds_law.specs.Bounds.{KeepsBounds, AllKeepBounds};

/// What a box keeps when it is made is within its bounds, and so is what all boxes keep of a patch whose boxes were just made.
pub fn what_is_made_keeps_bounds()
    ensures made { (k : Kind) (rate : Rate) (now : ℕ) → KeepsBounds (started (start_of k rate) now) }
    ensures grown { (p : Patch) (rate : Rate) (now : ℕ) → NodesFresh rate now (get p.grove.nodes) → AllKeepBounds (states_of p) }
{}

/// Messages leave what boxes keep within their bounds: each that a box hears, its being resumed, a value that is written into a table, and
/// so a whole delivery, whatever begins it.
pub fn messages_keep_bounds()
    ensures hearing { (names : Names) (k : Kind) (s : State) (inlet selector : ℕ) (atoms : List Atom) (now : ℕ) (table : Option (List ℤ)) →
        KeepsBounds s → KeepsBounds (heard_kind names k s inlet selector atoms now table).state }
    ensures again { (k : Kind) (s : State) → KeepsBounds s → KeepsBounds (resumed k s).state }
    ensures boxes { (net : Net) (now : ℕ) (names : Names) (states : ℕ → Option State) (node inlet selector : ℕ) (atoms : List Atom) →
        AllKeepBounds states → AllKeepBounds (heard_at net now states names node inlet selector atoms).states }
    ensures boxes_again { (net : Net) (names : Names) (states : ℕ → Option State) (node : ℕ) → AllKeepBounds states → AllKeepBounds (resumed_at net states names node).states }
    ensures deed { (net : Net) (now node : ℕ) (d : Deed) (kept : Kept) → AllKeepBounds kept.states → AllKeepBounds (done net now node d kept).states }
    ensures delivery { (net : Net) (now : ℕ) (w : World Kept) (s : Start) → AllKeepBounds w.kept.states → AllKeepBounds (outcome net now w s).kept.states }
    ensures left { (net : Net) (now : ℕ) (before after : Kept) (budget rest : Budget) (s : Start) (old new : Option (List ℕ)) →
        AllKeepBounds before.states → IsLeft after rest old new (outcome net now (world before budget []) s) → AllKeepBounds after.states }
{}

/// A block leaves what the boxes keep within their bounds.
pub fn blocks_keep_bounds()
    ensures { (net : BlockNet) (start : ℕ) (s : Sound) → AllKeepBounds s.states → AllKeepBounds (block_of net s start).sound.states }
{}
