//! Laws of the sizes of what boxes keep.
ghost use Rattle.std.specs.Prelude.{◌≡◌, ◌≤◌, ◌^◌, ℕ, ℤ, true, List, [], length, Option, Some, IfSome};
ghost use Rattle.pd_atom.specs.Names.{Names};
ghost use Rattle.pd_atom.specs.declared.Atom.{Atom};
ghost use Rattle.pd_clock.specs.declared.times.Rate.{Rate};
ghost use Rattle.pd_object.specs.declared.kinds.Kind.{Kind};
ghost use Rattle.pd_kind.specs.declared.states.Ramps.{Ramps};
ghost use Rattle.pd_kind.specs.declared.states.State.{State};
ghost use Rattle.pd_kind.specs.declared.states.State.TheVariants.{Vline};
ghost use Rattle.pd_kind.specs.declared.messages.Deed.{Deed};
ghost use Rattle.pd_object.specs.Ports.{ports_of};
ghost use Rattle.pd_kind.specs.States.{size_of, start_of};
ghost use Rattle.pd_kind.specs.Tables.{started, shared_of, with_shared};
ghost use Rattle.pd_signal.specs.Rows.{run_of};
ghost use Rattle.pd_turn.specs.Rows.{ran, silent_outs, signal_ran, vline_ran, vline_if, is_fitting};
ghost use Rattle.pd_turn.specs.Pairs.{line_at, with_values, pair_of};
ghost use Rattle.pd_grove.specs.States.{NodesFresh};
ghost use Rattle.pd_grove.specs.Telling.{kind_in};
ghost use Rattle.slab.specs.Slab.{get};
ghost use Rattle.pd_patch.specs.declared.patch.Patch.{Patch};
ghost use Rattle.pd_patch.specs.Built.{IsBuilt};
ghost use Rattle.pd_patch.specs.Grown.{IsFresh, IsTree};
ghost use Rattle.pd_growth.specs.Steps.{Step};
ghost use Rattle.pd_tree.specs.Trees.{Tree};
ghost use Rattle.pd_glue.specs.Rows.{resumed};
ghost use Rattle.pd_turns.specs.Turns.{World};
ghost use Rattle.pd_hearing.specs.Worlds.{Net, Kept};
ghost use Rattle.pd_hearing.specs.Hearing.{heard_kind, heard_at, resumed_at};
ghost use Rattle.pd_hearing.specs.Deeds.{done};
ghost use Rattle.pd_walk.specs.declared.walker.Start.{Start};
ghost use Rattle.pd_walk.specs.declared.walker.Budget.{Budget};
ghost use Rattle.pd_walk.specs.Outcome.{outcome, world, IsLeft};
ghost use Rattle.pd_block.specs.Nets.{Net as BlockNet, Sound, states_of, sound_of};
ghost use Rattle.pd_block.specs.Blocks.{block_of, owner_of};
ghost use Rattle.pd_guards.specs.Order.{IsKept};
ghost use Rattle.pd_sized.specs.Alike.{IsAlike, AreAlike};
ghost use Rattle.pd_sized.specs.Kinds.{kinds_of, KeepsOfKind};
ghost use Rattle.pd_sized.specs.Sizes.{HasSizes, HaveSizes, HasSmallBoxes, LooksAt, Finds, IsWhole, Serves};

/// What a box keeps when it is made has its sizes, where it counts at most 2^32 values. So does what all boxes keep of a patch whose boxes
/// were just made. In a patch that has just grown all boxes keep what has its sizes, and each block of an outlet has 64 values.
pub fn what_is_made_has_sizes()
    ensures made { (k : Kind) (rate : Rate) (now : ℕ) → size_of k rate ≤ 2 ^ 32 → HasSizes (started (start_of k rate) now) }
    ensures grown { (p : Patch) (rate : Rate) (now : ℕ) → NodesFresh rate now (get p.grove.nodes) → HasSmallBoxes p rate → HaveSizes (states_of p) }
    ensures patches { (p : Patch) (names : Names) (file : List ℕ) (rate : Rate) (s : Step Tree) → IsTree p names rate s → IsFresh p names file rate → IsWhole (sound_of p) }
{}

/// A box that keeps what has its sizes does in a block what its object's row says, and isn't passed over. A `vline~` in order at the start
/// of a block runs in it. Beside a box that it looks at, whose values have their size, a box takes that one's values.
pub fn turns_are_whole()
    ensures own { (k : Kind) (s : State) (ins : List (List ℤ)) → HasSizes s →
        let r = run_of k s ins (silent_outs (ports_of k).signal_outlets) in signal_ran k s ins ≡ ran r.state r.outs }
    ensures line { (names : Names) (r : Ramps) (start : ℕ) → start ≤ 2 ^ 101 → IsKept names start (Vline r) →
        vline_ran start (Vline r) ≡ vline_if true start (Vline r) }
    ensures fits { (k : Kind) (other : State) (values : List ℤ) → LooksAt k other → HasSizes other → shared_of other ≡ Some values →
        is_fitting k (length values) (line_at other) ≡ true }
    ensures pair { (k : Kind) (s other : State) (ins : List (List ℤ)) (values : List ℤ) → LooksAt k other → HasSizes other → shared_of other ≡ Some values →
        let r = with_values k s ins (line_at other) values in
        let both = pair_of k s ins other in (both.ran ≡ r.ran) × (both.other ≡ with_shared other r.values) }
{}

/// Messages leave the sizes of what boxes keep as they were: each that a box hears, its being resumed, a value that is written into a
/// table, and so a whole delivery, whatever begins it.
pub fn messages_keep_sizes()
    ensures hearing { (names : Names) (k : Kind) (s : State) (inlet selector : ℕ) (atoms : List Atom) (now : ℕ) (table : Option (List ℤ)) →
        HasSizes s → HasSizes (heard_kind names k s inlet selector atoms now table).state }
    ensures again { (k : Kind) (s : State) → HasSizes s → HasSizes (resumed k s).state }
    ensures boxes { (net : Net) (now : ℕ) (names : Names) (states : ℕ → Option State) (node inlet selector : ℕ) (atoms : List Atom) →
        HaveSizes states → HaveSizes (heard_at net now states names node inlet selector atoms).states }
    ensures boxes_again { (net : Net) (names : Names) (states : ℕ → Option State) (node : ℕ) → HaveSizes states → HaveSizes (resumed_at net states names node).states }
    ensures deed { (net : Net) (now node : ℕ) (d : Deed) (kept : Kept) → HaveSizes kept.states → HaveSizes (done net now node d kept).states }
    ensures delivery { (net : Net) (now : ℕ) (w : World Kept) (s : Start) → HaveSizes w.kept.states → HaveSizes (outcome net now w s).kept.states }
    ensures left { (net : Net) (now : ℕ) (before after : Kept) (budget rest : Budget) (s : Start) (old new : Option (List ℕ)) →
        HaveSizes before.states → IsLeft after rest old new (outcome net now (world before budget []) s) → HaveSizes after.states }
{}

/// A block leaves the sizes of what the boxes keep as they were, and 64 values in each block of an outlet, where each had so many.
pub fn blocks_keep_sizes()
    ensures { (net : BlockNet) (start : ℕ) (s : Sound) → IsWhole s → IsWhole (block_of net s start).sound }
{}

/// Messages leave what boxes keep of the same objects: each that a box hears, its being resumed, a value that is written into a table,
/// and so a whole delivery, whatever begins it.
pub fn messages_keep_objects()
    ensures hearing { (names : Names) (k : Kind) (s : State) (inlet selector : ℕ) (atoms : List Atom) (now : ℕ) (table : Option (List ℤ)) →
        IsAlike s (heard_kind names k s inlet selector atoms now table).state }
    ensures again { (k : Kind) (s : State) → IsAlike s (resumed k s).state }
    ensures boxes { (net : Net) (now : ℕ) (names : Names) (states : ℕ → Option State) (node inlet selector : ℕ) (atoms : List Atom) →
        AreAlike states (heard_at net now states names node inlet selector atoms).states }
    ensures boxes_again { (net : Net) (names : Names) (states : ℕ → Option State) (node : ℕ) → AreAlike states (resumed_at net states names node).states }
    ensures deed { (net : Net) (now node : ℕ) (d : Deed) (kept : Kept) → AreAlike kept.states (done net now node d kept).states }
    ensures delivery { (net : Net) (now : ℕ) (w : World Kept) (s : Start) → AreAlike w.kept.states (outcome net now w s).kept.states }
    ensures left { (net : Net) (now : ℕ) (before after : Kept) (budget rest : Budget) (s : Start) (old new : Option (List ℕ)) →
        IsLeft after rest old new (outcome net now (world before budget []) s) → AreAlike before.states after.states }
{}

/// A block leaves what boxes keep of the same objects, whatever they keep.
pub fn blocks_keep_objects()
    ensures { (net : BlockNet) (start : ℕ) (s : Sound) → AreAlike s.states (block_of net s start).sound.states }
{}

/// A box that was just made keeps the objects of its kind. So it does over all messages and blocks: over a whole delivery, whatever begins it,
/// and over each block, as wherever what boxes keep stays of the same objects.
pub fn boxes_keep_their_kinds()
    ensures made { (p : Patch) (rate : Rate) (now : ℕ) → NodesFresh rate now (get p.grove.nodes) → KeepsOfKind (kinds_of p) (states_of p) }
    ensures lasts { (kinds : ℕ → Option Kind) (old new : ℕ → Option State) → KeepsOfKind kinds old → AreAlike old new → KeepsOfKind kinds new }
    ensures delivery { (kinds : ℕ → Option Kind) (net : Net) (now : ℕ) (w : World Kept) (s : Start) → KeepsOfKind kinds w.kept.states →
        KeepsOfKind kinds (outcome net now w s).kept.states }
    ensures left { (kinds : ℕ → Option Kind) (net : Net) (now : ℕ) (before after : Kept) (budget rest : Budget) (s : Start) (old new : Option (List ℕ)) →
        KeepsOfKind kinds before.states → IsLeft after rest old new (outcome net now (world before budget []) s) → KeepsOfKind kinds after.states }
    ensures block { (kinds : ℕ → Option Kind) (net : BlockNet) (start : ℕ) (s : Sound) → KeepsOfKind kinds s.states →
        KeepsOfKind kinds (block_of net s start).sound.states }
{}

/// In a patch that stands the first owner of the name that a box looks for is a box that has what it looks for. It keeps it as long as
/// boxes keep what is of their kinds; so it does in a patch that has just grown, and as long as what boxes keep is of the same objects.
pub fn owners_serve()
    ensures kind { (p : Patch) (names : Names) (file : List ℕ) (rate : Rate) (k : Kind) (o : ℕ) → IsBuilt p names file rate →
        owner_of p.names k ≡ Some o → IfSome (kind_in (get p.grove.nodes o)) (Serves k) }
    ensures finds { (p : Patch) (names : Names) (file : List ℕ) (rate : Rate) (k : Kind) (o : ℕ) (states : ℕ → Option State) → IsBuilt p names file rate →
        KeepsOfKind (kinds_of p) states → owner_of p.names k ≡ Some o → Finds k (states o) }
    ensures state { (p : Patch) (names : Names) (file : List ℕ) (rate : Rate) (k : Kind) (o : ℕ) → IsFresh p names file rate →
        owner_of p.names k ≡ Some o → IfSome (states_of p o) (LooksAt k) }
    ensures lasts { (p : Patch) (names : Names) (file : List ℕ) (rate : Rate) (k : Kind) (o : ℕ) (states : ℕ → Option State) → IsFresh p names file rate →
        owner_of p.names k ≡ Some o → AreAlike (states_of p) states → Finds k (states o) }
{}
