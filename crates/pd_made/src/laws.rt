//! Laws over the text of a made patch and over the sums of samples.

ghost use Rattle.std.specs.Prelude.{◌≡◌, ◌≤◌, ℕ, List, ◌++◌};
ghost use Rattle.pd_atom.specs.Names.{Names};
ghost use Rattle.pd_doc.specs.Writing.{text_of};
ghost use Rattle.pd_made.specs.Voices.{AreWords, words_in};
ghost use Rattle.pd_made.specs.Documents.{made_document};
ghost use Rattle.pd_made.specs.Texts.{made_text};
ghost use Rattle.pd_made.specs.declared.tally.Tally.{Tally};
ghost use Rattle.pd_made.specs.Tallies.{bounded, magnitudes, nothing, tallied};

/// Bytes that come in two pieces count as one, and what comes first counts as the sum of its magnitudes.
pub fn pieces_join()
    ensures joined { (t : Tally) (xs ys : List ℕ) → tallied (tallied t xs) ys ≡ tallied t (xs ++ ys) }
    ensures whole { (bytes : List ℕ) → (tallied nothing bytes).sum ≡ bounded (magnitudes bytes) }
{}

/// The text of a made patch is what one writes by hand, in each table that has its words.
pub fn made_texts()
    ensures { (names : Names) (n : ℕ) → AreWords names (words_in names) → n ≤ 1000 → text_of names (made_document names n) ≡ made_text n }
{}
