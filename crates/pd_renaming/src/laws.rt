//! Laws over a running patch of which a subpatch got another text.

ghost use Rattle.std.specs.Prelude.{ℕ, List};
ghost use Rattle.slab.specs.Slab.{get};
ghost use Rattle.pd_atom.specs.declared.Atom.{Atom};
ghost use Rattle.pd_atom.specs.Names.{Names};
ghost use Rattle.pd_clock.specs.declared.times.Rate.{Rate};
ghost use Rattle.pd_grove.specs.declared.nodes.Node.{Node};
ghost use Rattle.pd_grove.specs.Grafts.{AreAlike, HasBoxChanged};
ghost use Rattle.pd_grove.specs.Refits.{with_text};
ghost use Rattle.pd_web.specs.Changes.{Meet};
ghost use Rattle.pd_patch.specs.declared.patch.Patch.{Patch};
ghost use Rattle.pd_patch.specs.Built.{IsBuilt};
ghost use Rattle.pd_boxes.specs.Room.{SameButRoom};
ghost use Rattle.pd_renaming.specs.Renaming.{CanRename, IsRenamed};

/// A patch that runs, of which a subpatch got another text, goes on to be one. Its wires are those that there were, and meet.
pub fn patches_run_on_renamed()
    ensures meet { (p q : Patch) (table : Names) (key : ℕ) (n : Node) (written text : List Atom) → IsRenamed p q table key n written text → Meet p.web → Meet q.web }
    ensures built { (p q : Patch) (table : Names) (key : ℕ) (n : Node) (written text : List Atom) → CanRename p key n → IsRenamed p q table key n written text →
        (file : List ℕ) (rate : Rate) → IsBuilt p table file rate → IsBuilt q table file rate }
{}

/// Boxes and canvases lie in one another as they did, and one box has another text.
pub fn renames_change_boxes()
    ensures alike { (p q : Patch) (table : Names) (key : ℕ) (n : Node) (written text : List Atom) → CanRename p key n → IsRenamed p q table key n written text →
        AreAlike (get p.grove.nodes) (get q.grove.nodes) (get p.grove.boards) (get q.grove.boards) }
    ensures changed { (p q : Patch) (table : Names) (key : ℕ) (n : Node) (written text : List Atom) → CanRename p key n → IsRenamed p q table key n written text →
        HasBoxChanged (get p.grove.nodes) (get q.grove.nodes) (get p.grove.boards) (get q.grove.boards) n.board key n (with_text written text n) }
{}

/// Where room was set aside, subpatches can get another text as they could.
pub fn name_room_changes_nothing()
    ensures { (p q : Patch) (key : ℕ) (n : Node) → SameButRoom p q → CanRename p key n → CanRename q key n }
{}
