//! Laws of what boxes hear, and of whole deliveries.
ghost use Rattle.std.specs.Prelude.{◌≡◌, ◌+◌, ◌≤◌, ◌^◌, ℕ, ℤ, true, List, [], length, Option, Some, IfSome};
ghost use Rattle.std.specs.List.{list_all};
ghost use Rattle.pd_atom.specs.Names.{Names};
ghost use Rattle.pd_atom.specs.declared.Atom.{Atom};
ghost use Rattle.pd_object.specs.declared.kinds.Kind.{Kind};
ghost use Rattle.pd_kind.specs.declared.states.State.{State};
ghost use Rattle.pd_kind.specs.Said.{Said};
ghost use Rattle.pd_kind.specs.declared.messages.Deed.{Deed};
ghost use Rattle.pd_kind.specs.declared.messages.Target.TheVariants.{Outlet};
ghost use Rattle.pd_kind.specs.Forming.{message_send, cut_atoms};
ghost use Rattle.pd_script.specs.declared.commands.Command.TheVariants.{Send};
ghost use Rattle.pd_script.specs.Scripts.{send_of};
ghost use Rattle.pd_glue.specs.Rows.{resumed, fired};
ghost use Rattle.pd_clock.specs.declared.times.Rate.{Rate};
ghost use Rattle.pd_canvas.specs.Pages.{Page};
ghost use Rattle.pd_canvas.specs.Proper.{IsSound, IsProper};
ghost use Rattle.pd_library.specs.declared.answers.Answer.{Answer};
ghost use Rattle.pd_library.specs.Files.{answer_in};
ghost use Rattle.pd_gather.specs.Gather.{AreProper};
ghost use Rattle.pd_tree.specs.Trees.{Tree, weight};
ghost use Rattle.pd_growth.specs.Steps.{Stock, Step, beginning, gives};
ghost use Rattle.pd_growth.specs.Growth.{grown};
ghost use Rattle.pd_patch.specs.declared.patch.Patch.{Patch};
ghost use Rattle.pd_patch.specs.Built.{IsBuilt};
ghost use Rattle.pd_patch.specs.Grown.{IsFresh, IsTree};
ghost use Rattle.pd_patch.specs.Telling.{order_in};
ghost use Rattle.pd_order.specs.Listing.{Listing};
ghost use Rattle.pd_grove.specs.Standing.{GroveStands};
ghost use Rattle.pd_grove.specs.Telling.{reached};
ghost use Rattle.pd_grove.specs.TextOrder.{deep};
ghost use Rattle.pd_queue.specs.Queue.{Waiting};
ghost use Rattle.pd_turns.specs.Turns.{World};
ghost use Rattle.pd_walk.specs.declared.walker.Start.{Start};
ghost use Rattle.pd_hearing.specs.Worlds.{Net, Kept, net_of, kept_of};
ghost use Rattle.pd_hearing.specs.Guards.{is_message, is_table, is_small, is_open, is_known};
ghost use Rattle.pd_hearing.specs.Hearing.{heard_kind, heard_at, resumed_at, fired_at, loaded_at};
ghost use Rattle.pd_hearing.specs.Deeds.{done};
ghost use Rattle.pd_walk.specs.declared.walker.Budget.{Budget};
ghost use Rattle.pd_walk.specs.Outcome.{outcome, world, IsLeft};
ghost use Rattle.pd_block.specs.Nets.{Net as BlockNet, Sound};
ghost use Rattle.pd_block.specs.Blocks.{block_of};
ghost use Rattle.pd_guards.specs.Sounds.{HasValues, HaveValues, IsSounding, sound_with};
ghost use Rattle.pd_guards.specs.Order.{HasFirst, IsName, AreAtoms, IsMessage, IsTable, IsKept, IsKind, IsSaid, IsHeard, IsHearing};
ghost use Rattle.pd_guards.specs.Worlds.{AreKept, AreKinds, IsReply, IsInOrder, IsStart, IsNamed, IsSent};
ghost use Rattle.pd_guards.specs.Near.{AreNear};
ghost use Rattle.pd_guards.specs.Growing.{AreBorn, BoxesIn, LibraryIn, StockIn};
ghost use Rattle.pd_guards.specs.Freely.{heard_by as heard_freely, outcome as free_outcome};

/// A box in order that hears a message in order keeps and says what is in order again, in a table of names that goes on. Nothing is
/// passed over: it does what its object's definition says, and whatever is looked at before is so.
pub fn hearing_stays_in_order()
    ensures stays { (names : Names) (k : Kind) (s : State) (inlet selector : ℕ) (atoms : List Atom) (now : ℕ) (table : Option (List ℤ)) →
        now ≤ 2 ^ 101 → HasFirst names → IsKind names k → IsKept names now s → IsMessage names selector atoms → IfSome table IsTable →
        IsHearing names now (heard_kind names k s inlet selector atoms now table) }
    ensures freely { (names : Names) (k : Kind) (s : State) (inlet selector : ℕ) (atoms : List Atom) (now : ℕ) (table : Option (List ℤ)) →
        now ≤ 2 ^ 101 → HasFirst names → IsKind names k → IsKept names now s → IsMessage names selector atoms → IfSome table IsTable →
        heard_kind names k s inlet selector atoms now table ≡ heard_freely names k s inlet selector atoms now table }
    ensures message { (names : Names) (selector : ℕ) (atoms : List Atom) → IsMessage names selector atoms → is_message names selector atoms ≡ true }
    ensures small { (names : Names) (now : ℕ) (k : Kind) (s : State) → IsKind names k → IsKept names now s → is_small names k s ≡ true }
    ensures ramps { (names : Names) (now : ℕ) (s : State) → IsKept names now s → is_open now s ≡ true }
    ensures table { (table : Option (List ℤ)) → IfSome table IsTable → is_table table ≡ true }
    ensures notices { (names : Names) (said : Said) → IsSaid names said → list_all (is_known names) said.notices ≡ true }
    ensures again { (names : Names) (now : ℕ) (k : Kind) (s : State) → HasFirst names → IsKept names now s → IsHeard names now (resumed k s) }
    ensures clock { (names : Names) (k : Kind) (s : State) → HasFirst names → IsSaid names (fired k s) }
{}

/// The same of a box among the others of a patch: what all boxes keep after it acted, and what it says, is in order.
pub fn boxes_stay_in_order()
    ensures hearing { (net : Net) (now : ℕ) (names : Names) (states : ℕ → Option State) (node inlet selector : ℕ) (atoms : List Atom) →
        now ≤ 2 ^ 101 → HasFirst names → AreKinds net names → AreKept names now states → IsMessage names selector atoms →
        IsReply names now (heard_at net now states names node inlet selector atoms) }
    ensures again { (net : Net) (now : ℕ) (names : Names) (states : ℕ → Option State) (node : ℕ) →
        now ≤ 2 ^ 101 → HasFirst names → AreKinds net names → AreKept names now states → IsReply names now (resumed_at net states names node) }
    ensures clock { (net : Net) (now : ℕ) (names : Names) (states : ℕ → Option State) (node : ℕ) →
        now ≤ 2 ^ 101 → HasFirst names → AreKinds net names → AreKept names now states → IsSaid names (fired_at net states node) }
    ensures load { (net : Net) (now : ℕ) (names : Names) (states : ℕ → Option State) (node : ℕ) →
        now ≤ 2 ^ 101 → HasFirst names → AreKinds net names → AreKept names now states → IsSaid names (loaded_at net states node) }
{}

/// A patch that is in order at a time is so at each later one at which events come.
pub fn order_lasts()
    ensures { (net : Net) (now later : ℕ) (kept : Kept) → IsInOrder net now kept → now ≤ later → later ≤ 2 ^ 101 → IsInOrder net later kept }
{}

/// From a patch in order, in which the canvases that own names are near, and a start in order a whole delivery is the depth-first recursion
/// over the objects' own definitions, in which nothing is looked at and nothing passed over. From each patch in order it leaves the
/// patch in order, which is how a call of `deliver` leaves it.
pub fn delivery_passes_nothing_over()
    ensures freely { (net : Net) (now : ℕ) (w : World Kept) (s : Start) → AreNear net → IsInOrder net now w.kept → IsStart w.kept.names s →
        outcome net now w s ≡ free_outcome net now w s }
    ensures order { (net : Net) (now : ℕ) (w : World Kept) (s : Start) → IsInOrder net now w.kept → IsStart w.kept.names s →
        IsInOrder net now (outcome net now w s).kept }
    ensures left { (net : Net) (now : ℕ) (before after : Kept) (budget rest : Budget) (s : Start) (old new : Option (List ℕ)) →
        IsInOrder net now before → IsStart before.names s → IsLeft after rest old new (outcome net now (world before budget []) s) →
        IsInOrder net now after }
{}

/// The boxes of a tree that grows from documents in order are of kinds in order, and keep at first what is in order.
pub fn what_grows_is_in_order()
    ensures page { (names : Names) (p : Page) → IsSound names p → BoxesIn names p.boxes }
    ensures library { (names : Names) (files : List (ℕ × Answer)) → AreProper names files → LibraryIn names (answer_in files) }
    ensures stock { (names : Names) (n : ℕ) → HasFirst names → StockIn (beginning names n) }
    ensures tree { (lib : ℕ → Option Answer) (name : List ℕ) (p : Page) (w v : Stock) (t : Tree) →
        LibraryIn w.names lib → BoxesIn w.names p.boxes → StockIn w → grown lib name p w ≡ gives t v → AreBorn v.names t.boxes }
{}

/// A patch that has just grown is in order: so its deliveries begin in order. The values of signals that its boxes keep are in their
/// range, and so are those of its outlets.
pub fn grown_patches_are_in_order()
    ensures order { (files : List (ℕ × Answer)) (name : List ℕ) (root : Page) (before names : Names) (n : ℕ) (rate : Rate) (p : Patch) (now : ℕ) (queue : Waiting) →
        now ≤ 2 ^ 101 → HasFirst before → IsProper before root → AreProper before files →
        IsTree p names rate (grown (answer_in files) name root (beginning before n)) → IsFresh p names name rate →
        IsInOrder (net_of p) now (kept_of p names queue) }
    ensures values { (files : List (ℕ × Answer)) (name : List ℕ) (root : Page) (before names : Names) (n : ℕ) (rate : Rate) (p : Patch) (queue : Waiting) →
        HasFirst before → IsProper before root → AreProper before files →
        IsTree p names rate (grown (answer_in files) name root (beginning before n)) → IsFresh p names name rate →
        HaveValues (kept_of p names queue).states }
    ensures sounds { (files : List (ℕ × Answer)) (name : List ℕ) (root : Page) (before names : Names) (n : ℕ) (rate : Rate) (p : Patch) (queue : Waiting) →
        HasFirst before → IsProper before root → AreProper before files →
        IsTree p names rate (grown (answer_in files) name root (beginning before n)) → IsFresh p names name rate →
        IsSounding (sound_with (net_of p) (kept_of p names queue)) }
{}

/// In a patch that has just grown the canvases that own the names of receivers are near: the path to each has at most 255 numbers.
pub fn grown_patches_are_near()
    ensures { (p : Patch) (names : Names) (file : List ℕ) (rate : Rate) (s : Step Tree) → IsTree p names rate s → IsFresh p names file rate → AreNear (net_of p) }
{}

/// In a patch in which a tree stands, with the root at most 256 canvases deep, the canvases that own the names of receivers are near, whatever
/// its boxes keep and whatever clocks it has.
pub fn built_patches_are_near()
    ensures { (p : Patch) (names : Names) (file : List ℕ) (rate : Rate) (t : Tree) → GroveStands p.grove t.sheet t.boxes → deep t.boxes + 1 ≤ 256 → IsBuilt p names file rate →
        AreNear (net_of p) }
{}

/// In a patch that has just grown the signal order of each canvas to which a path leads has at most 16,384 boxes, those that are stuck too.
pub fn orders_are_short()
    ensures { (lib : ℕ → Option Answer) (name : List ℕ) (root : Page) (before names : Names) (n : ℕ) (rate : Rate) (p : Patch) →
        IsTree p names rate (grown lib name root (beginning before n)) → IsFresh p names name rate →
        (path : List ℕ) (c : ℕ) (o : Listing) → reached p.grove (Some p.grove.root) path ≡ Some c → order_in p.orders.items c ≡ Some o →
        length o.chain + length o.stuck ≤ 16384 }
{}

/// In a patch in which a tree stands the signal order of each canvas to which a path leads has no more boxes than the tree, those that are
/// stuck too.
pub fn built_orders_are_short()
    ensures { (p : Patch) (names : Names) (file : List ℕ) (rate : Rate) (t : Tree) → GroveStands p.grove t.sheet t.boxes → IsBuilt p names file rate →
        (path : List ℕ) (c : ℕ) (o : Listing) → reached p.grove (Some p.grove.root) path ≡ Some c → order_in p.orders.items c ≡ Some o →
        length o.chain + length o.stuck ≤ weight t.boxes }
{}

/// A command that is read and sends a message begins its event in order: its name and its atoms are of the table after reading, and the
/// message that they make, cut at 1,024 atoms, is in order.
pub fn commands_begin_in_order()
    ensures read { (names after : Names) (tokens : List (List ℕ)) (name : ℕ) (atoms : List Atom) →
        send_of names tokens ≡ Some (Send name atoms, after) → IsSent names after name atoms }
    ensures message { (names : Names) (name : ℕ) (atoms : List Atom) → HasFirst names → IsName names name → AreAtoms names atoms →
        let m = message_send (Outlet 0) atoms in IsNamed names name m.selector (cut_atoms m.atoms) }
{}

/// A block leaves in order what the boxes keep, at its end and at each later time, and the values of signals that they keep and that
/// their outlets give in their range, where all that was so before it.
pub fn blocks_stay_in_order()
    ensures kept { (net : BlockNet) (names : Names) (now later start : ℕ) (s : Sound) → now ≤ later → start + 64000000000 ≤ later →
        AreKept names now s.states → IsSounding s → AreKept names later (block_of net s start).sound.states }
    ensures sounds { (net : BlockNet) (names : Names) (now start : ℕ) (s : Sound) → AreKept names now s.states → IsSounding s →
        IsSounding (block_of net s start).sound }
{}

/// A box leaves in their range the values of signals that it keeps, where they were so, when it hears a message in order, is resumed, or
/// has a value of its table written. So do all boxes over a whole delivery that begins in order; and the blocks of the outlets stay.
pub fn messages_keep_values()
    ensures hearing { (names : Names) (k : Kind) (s : State) (inlet selector : ℕ) (atoms : List Atom) (now : ℕ) (table : Option (List ℤ)) →
        HasFirst names → IsMessage names selector atoms → HasValues s → HasValues (heard_kind names k s inlet selector atoms now table).state }
    ensures again { (k : Kind) (s : State) → HasValues s → HasValues (resumed k s).state }
    ensures boxes { (net : Net) (now : ℕ) (names : Names) (states : ℕ → Option State) (node inlet selector : ℕ) (atoms : List Atom) →
        HasFirst names → IsMessage names selector atoms → HaveValues states → HaveValues (heard_at net now states names node inlet selector atoms).states }
    ensures boxes_again { (net : Net) (names : Names) (states : ℕ → Option State) (node : ℕ) → HaveValues states → HaveValues (resumed_at net states names node).states }
    ensures deed { (net : Net) (now node : ℕ) (d : Deed) (kept : Kept) → HaveValues kept.states → HaveValues (done net now node d kept).states }
    ensures delivery { (net : Net) (now : ℕ) (w : World Kept) (s : Start) → IsInOrder net now w.kept → IsStart w.kept.names s →
        HaveValues w.kept.states → HaveValues (outcome net now w s).kept.states }
    ensures left { (net : Net) (now : ℕ) (before after : Kept) (budget rest : Budget) (s : Start) (old new : Option (List ℕ)) → IsInOrder net now before →
        IsStart before.names s → IsSounding (sound_with net before) → IsLeft after rest old new (outcome net now (world before budget []) s) →
        IsSounding (sound_with net after) }
{}
