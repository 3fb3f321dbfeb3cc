//! Laws of the texts and the values that boxes keep.
ghost use Rattle.std.specs.Prelude.{◌≡◌, ◌≤◌, ℕ, ℤ, Bool, true, List, length, Option};
ghost use Rattle.slab.specs.Slab.{get};
ghost use Rattle.pd_atom.specs.Names.{Names, Extends};
ghost use Rattle.pd_atom.specs.declared.Atom.{Atom};
ghost use Rattle.pd_clock.specs.declared.times.Rate.{Rate};
ghost use Rattle.pd_object.specs.declared.kinds.Kind.{Kind};
ghost use Rattle.pd_kind.specs.declared.states.State.{State};
ghost use Rattle.pd_kind.specs.States.{start_of};
ghost use Rattle.pd_kind.specs.Tables.{started};
ghost use Rattle.pd_grove.specs.States.{NodesFresh};
ghost use Rattle.pd_grove.specs.Telling.{kind_in};
ghost use Rattle.pd_patch.specs.declared.patch.Patch.{Patch};
ghost use Rattle.pd_turns.specs.Turns.{World};
ghost use Rattle.pd_hearing.specs.Worlds.{Net, Kept, states_of};
ghost use Rattle.pd_hearing.specs.Hearing.{heard_kind};
ghost use Rattle.pd_walk.specs.declared.walker.Start.{Start};
ghost use Rattle.pd_walk.specs.Outcome.{outcome};
ghost use Rattle.pd_block.specs.Nets.{Net as BlockNet, Sound};
ghost use Rattle.pd_block.specs.Blocks.{block_of};
ghost use Rattle.pd_guards.specs.Order.{IsMessage};
ghost use Rattle.pd_guards.specs.Worlds.{IsInOrder, IsStart};
ghost use Rattle.pd_contents_law.specs.Contents.{HasContents, HaveContents, GoesOn, count_of, counts_of, IsKindSettled, AreKindsSettled};

/// What a box keeps when it is made, where the text of a message box is settled; and so what these boxes keep of a patch whose boxes were just made.
pub fn what_is_made_has_contents()
    ensures made { (names : Names) (k : Kind) (rate : Rate) (now : ℕ) → IsKindSettled names k → HasContents (count_of k) names (started (start_of k rate) now) }
    ensures grown { (names : Names) (own : ℕ → Bool) (p : Patch) (rate : Rate) (now : ℕ) → NodesFresh rate now (get p.grove.nodes) → AreKindsSettled (λ k. own k ≡ true) names (λ k. kind_in (get p.grove.nodes k)) →
        HaveContents (λ k. own k ≡ true) (counts_of (λ k. kind_in (get p.grove.nodes k))) names (states_of p) }
{}

/// Messages in order leave texts settled and lists of values as long: each that a box hears, and so a whole delivery, whatever begins it. The
/// table of names, which has its first six names, goes on.
pub fn messages_keep_contents()
    ensures hearing { (count : ℕ) (names : Names) (k : Kind) (s : State) (inlet selector : ℕ) (atoms : List Atom) (now : ℕ) (table : Option (List ℤ)) →
        6 ≤ length names → IsMessage names selector atoms → HasContents count names s → HasContents count names (heard_kind names k s inlet selector atoms now table).state }
    ensures delivery { (own : ℕ → Bool) (counts : ℕ → ℕ) (net : Net) (now : ℕ) (w : World Kept) (s : Start) → IsInOrder net now w.kept → IsStart w.kept.names s →
        6 ≤ length w.kept.names → HaveContents (λ k. own k ≡ true) counts w.kept.names w.kept.states → GoesOn (λ k. own k ≡ true) counts w.kept.names (outcome net now w s).kept }
{}

/// A block leaves the texts of message boxes, and lists of values as long.
pub fn blocks_keep_contents()
    ensures { (own : ℕ → Bool) (counts : ℕ → ℕ) (names : Names) (net : BlockNet) (start : ℕ) (s : Sound) → HaveContents (λ k. own k ≡ true) counts names s.states →
        HaveContents (λ k. own k ≡ true) counts names (block_of net s start).sound.states }
{}

/// What is settled stays so where the table of names goes on.
pub fn contents_go_on()
    ensures { (own : ℕ → Bool) (counts : ℕ → ℕ) (old new : Names) (states : ℕ → Option State) → Extends old new → HaveContents (λ k. own k ≡ true) counts old states → HaveContents (λ k. own k ≡ true) counts new states }
{}
