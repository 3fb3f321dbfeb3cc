//! Laws of how what boxes keep changes.
ghost use Rattle.std.specs.Prelude.{ℕ, ℤ, List, [], Option};
ghost use Rattle.pd_atom.specs.Names.{Names};
ghost use Rattle.pd_atom.specs.declared.Atom.{Atom};
ghost use Rattle.pd_object.specs.declared.kinds.Kind.{Kind};
ghost use Rattle.pd_kind.specs.declared.messages.Deed.{Deed};
ghost use Rattle.pd_kind.specs.declared.states.State.{State};
ghost use Rattle.pd_glue.specs.Rows.{resumed};
ghost use Rattle.pd_turns.specs.Turns.{World};
ghost use Rattle.pd_hearing.specs.Worlds.{Net, Kept};
ghost use Rattle.pd_hearing.specs.Hearing.{heard_kind, heard_at, resumed_at};
ghost use Rattle.pd_hearing.specs.Deeds.{done};
ghost use Rattle.pd_walk.specs.declared.walker.Start.{Start};
ghost use Rattle.pd_walk.specs.declared.walker.Budget.{Budget};
ghost use Rattle.pd_walk.specs.Outcome.{outcome, world, IsLeft};
ghost use Rattle.pd_block.specs.Nets.{Net as BlockNet, Sound};
ghost use Rattle.pd_block.specs.Blocks.{block_of};
ghost use Rattle.pd_keeping_law.specs.Changes.{said_by, nothing, anything, Becomes, AllBecome, AllRunOn};

/// Messages change what boxes keep only so, with what each says: each that a box hears, its being resumed, a value that
/// is written into a table, and so a whole delivery, whatever begins it.
pub fn messages_change_boxes()
    ensures hearing { (names : Names) (k : Kind) (s : State) (inlet selector : ℕ) (atoms : List Atom) (now : ℕ) (table : Option (List ℤ)) →
        Becomes (said_by names selector atoms) s (heard_kind names k s inlet selector atoms now table).state }
    ensures again { (k : Kind) (s : State) → Becomes nothing s (resumed k s).state }
    ensures boxes { (net : Net) (now : ℕ) (names : Names) (states : ℕ → Option State) (node inlet selector : ℕ) (atoms : List Atom) →
        AllBecome (said_by names selector atoms) states (heard_at net now states names node inlet selector atoms).states }
    ensures boxes_again { (net : Net) (names : Names) (states : ℕ → Option State) (node : ℕ) → AllBecome nothing states (resumed_at net states names node).states }
    ensures deed { (net : Net) (now node : ℕ) (d : Deed) (kept : Kept) → AllBecome nothing kept.states (done net now node d kept).states }
    ensures delivery { (net : Net) (now : ℕ) (w : World Kept) (s : Start) → AllBecome anything w.kept.states (outcome net now w s).kept.states }
    ensures left { (net : Net) (now : ℕ) (before after : Kept) (budget rest : Budget) (s : Start) (old new : Option (List ℕ)) →
        IsLeft after rest old new (outcome net now (world before budget []) s) → AllBecome anything before.states after.states }
{}

/// A block changes what boxes keep only so, whatever they keep.
pub fn blocks_change_boxes()
    ensures { (net : BlockNet) (start : ℕ) (s : Sound) → AllRunOn s.states (block_of net s start).sound.states }
{}
