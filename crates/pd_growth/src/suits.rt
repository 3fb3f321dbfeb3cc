//! Laws of documents that can grow.

ghost use Rattle.std.specs.Prelude.{◌≡◌, ℕ, List, [], ◌∷◌, ◌++◌, take, Option};
ghost use Rattle.pd_atom.specs.Names.{Names, Extends};
ghost use Rattle.pd_canvas.specs.Pages.{Page};
ghost use Rattle.pd_canvas.specs.Proper.{IsProper};
ghost use Rattle.pd_library.specs.declared.answers.Answer.{Answer};
ghost use Rattle.pd_library.specs.Files.{answer_in, with_answer};
ghost use Rattle.pd_growth.specs.Suits.{PageSuits, RootSuits, AnswerSuits, FilesSuit};
ghost use Rattle.std.specs.Prelude.{Some};

/// A proper document can grow, as a patch's own and as a file's.
pub fn proper_suits()
    ensures page { (names : Names) (p : Page) → IsProper names p → PageSuits names p }
    ensures root { (names : Names) (p : Page) → IsProper names p → RootSuits names p }
{}

/// What can grow can grow under a table that goes on.
pub fn suits_extended()
    ensures page { (old new : Names) (p : Page) → Extends old new → PageSuits old p → PageSuits new p }
    ensures root { (old new : Names) (p : Page) → Extends old new → RootSuits old p → RootSuits new p }
    ensures files { (old new : Names) (lib : ℕ → Option Answer) → Extends old new → FilesSuit old lib → FilesSuit new lib }
{}

/// The files still suit where one is learned that suits, where one is put in the place of another, and where some are forgotten.
pub fn files_suit()
    ensures none { (names : Names) → FilesSuit names (answer_in []) }
    ensures learned { (names : Names) (es : List (ℕ × Answer)) (name : ℕ) (answer : Answer) → FilesSuit names (answer_in es) → AnswerSuits names (Some answer) →
        FilesSuit names (answer_in (es ++ (name, answer) ∷ [])) }
    ensures published { (names : Names) (es : List (ℕ × Answer)) (name : ℕ) (answer : Answer) → FilesSuit names (answer_in es) → AnswerSuits names (Some answer) →
        FilesSuit names (answer_in (with_answer name answer es)) }
    ensures cut { (names : Names) (es : List (ℕ × Answer)) (n : ℕ) → FilesSuit names (answer_in es) → FilesSuit names (answer_in (take n es)) }
{}
