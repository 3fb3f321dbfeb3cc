//! Laws of blocks in which nothing is passed over.
ghost use Rattle.std.specs.Prelude.{◌≡◌, ◌+◌, ◌<◌, ◌≤◌, ◌^◌, ℕ, List, Option, Some, None, option_map};
ghost use Rattle.slab.specs.Slab.{get};
ghost use Rattle.pd_atom.specs.Names.{Names};
ghost use Rattle.pd_clock.specs.declared.times.Rate.{Rate};
ghost use Rattle.pd_clock.specs.Queue.{Clock};
ghost use Rattle.pd_object.specs.declared.kinds.Kind.{Kind};
ghost use Rattle.pd_object.specs.Ports.{ports_of};
ghost use Rattle.pd_kind.specs.Tables.{block_begun};
ghost use Rattle.pd_turn.specs.Rows.{manner_of};
ghost use Rattle.pd_turn.specs.Sizes.{few, few_of};
ghost use Rattle.pd_tree.specs.Trees.{Tree};
ghost use Rattle.pd_grove.specs.Standing.{GroveStands};
ghost use Rattle.pd_grove.specs.TextOrder.{deep};
ghost use Rattle.pd_web.specs.declared.web.Web.{Web};
ghost use Rattle.pd_web.specs.Hops.{feed_hops};
ghost use Rattle.pd_patch.specs.declared.patch.Patch.{Patch};
ghost use Rattle.pd_patch.specs.Built.{IsBuilt};
ghost use Rattle.pd_patch.specs.Fed.{AreFed};
ghost use Rattle.pd_patch.specs.Grown.{IsFresh, IsTree};
ghost use Rattle.pd_canvas.specs.Pages.{Page};
ghost use Rattle.pd_canvas.specs.Proper.{IsProper};
ghost use Rattle.pd_library.specs.declared.answers.Answer.{Answer};
ghost use Rattle.pd_library.specs.Files.{answer_in};
ghost use Rattle.pd_gather.specs.Gather.{AreProper};
ghost use Rattle.pd_growth.specs.Steps.{beginning};
ghost use Rattle.pd_growth.specs.Growth.{grown};
ghost use Rattle.pd_channels_law.specs.Channels.{NodesHaveFew};
ghost use Rattle.pd_block.specs.Inlets.{wires_to};
ghost use Rattle.pd_block.specs.Nets.{Net, Sound, net_of, sound_of, with_clocks};
ghost use Rattle.pd_block.specs.Blocks.{begun, block_within, block_of};
ghost use Rattle.pd_sized.specs.Alike.{AreAlike};
ghost use Rattle.pd_sized.specs.Kinds.{kinds_of, KeepsOfKind};
ghost use Rattle.pd_sized.specs.Sizes.{IsWhole};
ghost use Rattle.pd_ends_law.specs.Ends.{AreOpen};
ghost use Rattle.pd_ends_law.specs.Once.{RunsOnce};
ghost use Rattle.pd_sound_law.specs.Freely.{free_block};
ghost use Rattle.pd_sound_law.specs.Ready.{HasBlocks, IsReady, HasFewFeeds, HasRow};

/// A box that runs of its own, beside another box or beside a table has at most two signal inlets and one signal outlet, so that none is
/// silent for the number of its ports.
pub fn rows_have_few_ports()
    ensures { (k : Kind) → HasRow (manner_of k) → few_of k ≡ few (ports_of k).signal_inlets (ports_of k).signal_outlets }
{}

/// Where no inlet has more than 65,536 wires, all of them are summed. So it is in a patch that has just grown.
pub fn all_wires_are_summed()
    ensures few { (web : Web) → HasFewFeeds web → (node inlet : ℕ) → wires_to web node inlet ≡ feed_hops web node inlet }
    ensures grown { (p : Patch) (names : Names) (file : List ℕ) (rate : Rate) → IsFresh p names file rate → HasFewFeeds p.web }
{}

/// In a patch that has grown from proper documents a `dac~` has at most 1,024 channels, so that none is passed over for their number.
pub fn grown_patches_have_few_channels()
    ensures { (files : List (ℕ × Answer)) (name : List ℕ) (root : Page) (before names : Names) (n : ℕ) (rate : Rate) (p : Patch) → IsProper before root →
        AreProper before files → IsTree p names rate (grown (answer_in files) name root (beginning before n)) → NodesHaveFew (get p.grove.nodes) }
{}

/// Where no box has a key of 2^32 or more, no delay line has been written in a block that begins.
pub fn delay_lines_begin()
    ensures { (s : Sound) → ((k : ℕ) → 2 ^ 32 ≤ k → s.states k ≡ None) → (k : ℕ) → (begun s).states k ≡ option_map block_begun (s.states k) }
{}

/// Where all is ready for it, no `vline~` has run a block that ends after its start, no box runs twice in it, and events come at its start, a
/// block is the one in which nothing is looked at.
pub fn blocks_are_free()
    ensures { (net : Net) (s : Sound) (start levels : ℕ) → IsReady net s → AreOpen start s.states → RunsOnce levels net → start ≤ 2 ^ 101 →
        block_within levels net s start ≡ free_block levels net s start }
{}

/// In a patch that stands all is ready for a block, where a `dac~` has at most 1,024 channels, no inlet has more than 65,536 wires, boxes keep
/// what is of their kinds, with its sizes, and each outlet that carries signals has a block; so it is in one that has just grown. It stays so
/// where what they keep is of the same objects and has its sizes, and over each block.
pub fn patches_stay_ready()
    ensures stands { (p : Patch) (names : Names) (file : List ℕ) (rate : Rate) (clocks : List Clock) (s : Sound) → IsBuilt p names file rate →
        NodesHaveFew (get p.grove.nodes) → AreFed p.web → KeepsOfKind (kinds_of p) s.states → IsWhole s → HasBlocks p.web s.blocks →
        IsReady (with_clocks (net_of p) clocks) s }
    ensures grown { (p : Patch) (names : Names) (file : List ℕ) (rate : Rate) → IsFresh p names file rate → NodesHaveFew (get p.grove.nodes) →
        IsWhole (sound_of p) → IsReady (net_of p) (sound_of p) }
    ensures lasts { (net : Net) (s t : Sound) → IsReady net s → AreAlike s.states t.states → IsWhole t → HasBlocks net.web t.blocks → IsReady net t }
    ensures block { (net : Net) (start : ℕ) (s : Sound) → IsReady net s → IsReady net (block_of net s start).sound }
{}

/// In a patch that stands, with the root at most 256 canvases deep, a block is the one in which each box runs its own row, whatever clocks it has, where a `dac~` has at most
/// 1,024 channels, no inlet has more than 65,536 wires, boxes keep what is of their kinds, with its sizes, each outlet that carries signals has a block, no `vline~` has run a
/// block that ends after the start, and events come then. Any number of levels that is greater than that of its canvases gives the same block.
pub fn patches_play_freely()
    ensures { (p : Patch) (names : Names) (file : List ℕ) (rate : Rate) (t : Tree) (clocks : List Clock) (s : Sound) (start levels : ℕ) →
        GroveStands p.grove t.sheet t.boxes → deep t.boxes + 1 ≤ 256 → IsBuilt p names file rate → NodesHaveFew (get p.grove.nodes) → AreFed p.web →
        deep t.boxes < levels → KeepsOfKind (kinds_of p) s.states → IsWhole s → HasBlocks p.web s.blocks → AreOpen start s.states → start ≤ 2 ^ 101 →
        block_of (with_clocks (net_of p) clocks) s start ≡ free_block levels (with_clocks (net_of p) clocks) s start }
{}
