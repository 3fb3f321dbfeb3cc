//! Laws of the ends of blocks.
ghost use Rattle.std.specs.Prelude.{◌≡◌, ◌+◌, ◌≤◌, ℕ, List, [], Option, IfSome};
ghost use Rattle.slab.specs.Slab.{get};
ghost use Rattle.pd_atom.specs.Names.{Names};
ghost use Rattle.pd_atom.specs.declared.Atom.{Atom};
ghost use Rattle.pd_clock.specs.declared.times.Rate.{Rate};
ghost use Rattle.pd_clock.specs.Queue.{Clock};
ghost use Rattle.pd_object.specs.declared.kinds.Kind.TheVariants.{Vline};
ghost use Rattle.pd_kind.specs.declared.messages.Deed.{Deed};
ghost use Rattle.pd_kind.specs.declared.states.State.{State};
ghost use Rattle.pd_kind.specs.States.{start_of};
ghost use Rattle.pd_kind.specs.Tables.{started};
ghost use Rattle.pd_order.specs.Graph.{tally};
ghost use Rattle.pd_tree.specs.Trees.{Tree};
ghost use Rattle.pd_grove.specs.Owning.{AreOwn};
ghost use Rattle.pd_grove.specs.Standing.{GroveStands};
ghost use Rattle.pd_grove.specs.States.{NodesFresh};
ghost use Rattle.pd_patch.specs.declared.patch.Patch.{Patch};
ghost use Rattle.pd_patch.specs.Orders.{AreOrdered};
ghost use Rattle.pd_turns.specs.Turns.{World};
ghost use Rattle.pd_vline.specs.Rows.{IsOpen};
ghost use Rattle.pd_hearing.specs.Worlds.{Net, Kept};
ghost use Rattle.pd_hearing.specs.Hearing.{heard_at, resumed_at};
ghost use Rattle.pd_hearing.specs.Deeds.{done};
ghost use Rattle.pd_walk.specs.declared.walker.Start.{Start};
ghost use Rattle.pd_walk.specs.declared.walker.Budget.{Budget};
ghost use Rattle.pd_walk.specs.Outcome.{outcome, world, IsLeft};
ghost use Rattle.pd_block.specs.Nets.{Net as BlockNet, Sound, kind_at, net_of, states_of, with_clocks};
ghost use Rattle.pd_block.specs.Blocks.{Played, ran_canvas, block_of};
ghost use Rattle.pd_sized.specs.Kinds.{KeepsOfKind};
ghost use Rattle.pd_ends_law.specs.Ends.{AreOpen, kinds_in};
ghost use Rattle.pd_ends_law.specs.Once.{boxes_run, RunsOnce};

/// A `vline~` that is made has run no block, and so it is with each box of a patch whose boxes were just made.
pub fn what_is_made_has_run_no_block()
    ensures made { (rate : Rate) (now time : ℕ) → IsOpen time (started (start_of Vline rate) now) }
    ensures grown { (p : Patch) (rate : Rate) (now time : ℕ) → NodesFresh rate now (get p.grove.nodes) → AreOpen time (states_of p) }
{}

/// Where boxes keep what is of their kinds, messages leave the end of the block that a `vline~` ran last: each that a box hears, its being
/// resumed, a value that is written into a table, and so a whole delivery, whatever begins it.
pub fn messages_run_no_block()
    ensures boxes { (net : Net) (now time : ℕ) (names : Names) (states : ℕ → Option State) (node inlet selector : ℕ) (atoms : List Atom) →
        KeepsOfKind (kinds_in net) states → AreOpen time states → AreOpen time (heard_at net now states names node inlet selector atoms).states }
    ensures boxes_again { (net : Net) (time : ℕ) (names : Names) (states : ℕ → Option State) (node : ℕ) →
        KeepsOfKind (kinds_in net) states → AreOpen time states → AreOpen time (resumed_at net states names node).states }
    ensures deed { (net : Net) (now time node : ℕ) (d : Deed) (kept : Kept) → AreOpen time kept.states → AreOpen time (done net now node d kept).states }
    ensures delivery { (net : Net) (now time : ℕ) (w : World Kept) (s : Start) →
        KeepsOfKind (kinds_in net) w.kept.states → AreOpen time w.kept.states → AreOpen time (outcome net now w s).kept.states }
    ensures left { (net : Net) (now time : ℕ) (before after : Kept) (budget rest : Budget) (s : Start) (old new : Option (List ℕ)) →
        KeepsOfKind (kinds_in net) before.states → AreOpen time before.states → IsLeft after rest old new (outcome net now (world before budget []) s) →
        AreOpen time after.states }
{}

/// After a block no `vline~` has run one that ends later, where none had before; a block is 64,000,000,000 units of time.
pub fn blocks_end()
    ensures { (net : BlockNet) (start later : ℕ) (s : Sound) → KeepsOfKind (kind_at net) s.states → start + 64000000000 ≤ later →
        AreOpen later s.states → AreOpen later (block_of net s start).sound.states }
{}

/// In a patch that stands no box runs twice in a block, whatever clocks it has and however many levels its canvases may have.
pub fn boxes_run_once()
    ensures { (p : Patch) (t : Tree) (clocks : List Clock) (levels : ℕ) → GroveStands p.grove t.sheet t.boxes → AreOwn (get p.grove.nodes) (get p.grove.boards) →
        AreOrdered p.grove p.web p.orders.items → RunsOnce levels (with_clocks (net_of p) clocks) }
{}

/// Where a canvas runs, a box that doesn't run in it has run no later block than before.
pub fn other_boxes_run_no_block()
    ensures { (net : BlockNet) (start time levels canvas k : ℕ) (p : Played) → tally k (boxes_run net levels canvas) ≡ 0 →
        IfSome (p.sound.states k) (IsOpen time) → IfSome ((ran_canvas net start levels p canvas).sound.states k) (IsOpen time) }
{}
