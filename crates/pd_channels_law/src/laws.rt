//! Laws of the channels of boxes that grow.
ghost use Rattle.std.specs.Prelude.{◌≡◌, ℕ, List, Option};
ghost use Rattle.pd_atom.specs.Names.{Names};
ghost use Rattle.pd_canvas.specs.Pages.{Page};
ghost use Rattle.pd_canvas.specs.Proper.{IsProper};
ghost use Rattle.pd_library.specs.declared.answers.Answer.{Answer};
ghost use Rattle.pd_library.specs.Files.{answer_in};
ghost use Rattle.pd_gather.specs.Gather.{AreProper};
ghost use Rattle.pd_tree.specs.Trees.{Tree, Trees};
ghost use Rattle.pd_growth.specs.Steps.{Stock, gives};
ghost use Rattle.pd_growth.specs.Growth.{grown};
ghost use Rattle.pd_grove.specs.declared.nodes.Node.{Node};
ghost use Rattle.pd_grove.specs.Standing.{NodesOf};
ghost use Rattle.pd_channels_law.specs.Channels.{HasShortTexts, AreShort, HaveFewChannels, NodesHaveFew};

/// Each text of a proper document has at most 1,024 atoms, and so has each of a library of proper documents.
pub fn texts_are_short()
    ensures page { (names : Names) (p : Page) → IsProper names p → HasShortTexts p.boxes }
    ensures library { (names : Names) (files : List (ℕ × Answer)) → AreProper names files → AreShort (answer_in files) }
{}

/// A `dac~` that grows from documents with short texts has at most 1,024 channels, and so has one of a patch whose boxes are those of the tree.
pub fn channels_are_few()
    ensures grown { (lib : ℕ → Option Answer) (name : List ℕ) (p : Page) (w v : Stock) (t : Tree) → AreShort lib → HasShortTexts p.boxes →
        grown lib name p w ≡ gives t v → HaveFewChannels t.boxes }
    ensures nodes { (t : Trees) (nodes : ℕ → Option Node) → HaveFewChannels t → NodesOf t nodes → NodesHaveFew nodes }
{}
