//! What the definitions say together.
ghost use Rattle.std.specs.Prelude.{◌≡◌, ℕ, ◌+◌, List, ◌++◌, length, drop, IsTrue};
ghost use Rattle.pd_lex.specs.Reading.{semicolon};
ghost use Rattle.pd_feed.specs.Script.{fed_of, is_shown, is_white, record_text, script_at, script_of, with_first};

/// How a script is read from the left.
///
/// `white`: white space that wasn't kept counts as if it still stood before the bytes. `shown`: a record and what is too
/// long are the answer whatever follows the bytes. `steps`: a script is its first record and the script after it, or it
/// has no record.
pub fn script_laws()
    ensures white { (passed blank : ℕ) (white bytes : List ℕ) → IsTrue (is_white white) →
        fed_of passed blank (white ++ bytes) ≡ fed_of passed (blank + length white) bytes }
    ensures shown { (passed blank : ℕ) (bytes more : List ℕ) → IsTrue (is_shown (fed_of passed blank bytes)) →
        fed_of passed blank (bytes ++ more) ≡ fed_of passed blank bytes }
    ensures steps { (passed blank : ℕ) (bytes : List ℕ) →
        script_of passed blank bytes ≡ script_at (fed_of passed blank bytes) (semicolon bytes)
        (λ place. with_first (record_text place bytes) (script_of (passed + (blank + place + 1)) 0 (drop (place + 1) bytes))) }
{}
