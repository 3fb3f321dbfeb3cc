//! The player, as the program calls it.

ghost use Rattle.std.specs.Prelude.{◌≡◌, ◌≤◌, true, false, IfSome, is_some, map};
ghost use Rattle.std.specs.String.{string_bytes};
ghost use Rattle.pd_words.specs.Grammar.{words_of};
ghost use Rattle.pd_again_law.specs.Runs.{sinks};
ghost use Rattle.pd_play.specs.Causes.{HasCauses};
ghost use Rattle.pd_play.specs.Telling.{IsUnplayed};
ghost use Rattle.pd_faithful.specs.Whole.{PlaysAskedFreely};
ghost use Rattle.pd_faithful.specs.Complete.{Completes};

use crate::laws::play_passes_nothing_over;
use pd_io::{Shelf, Sink, Source};
use pd_play::Status;
use std::alloc::Global;

/// Plays a patch by a script: `words` are the words after the program's name, `shelf` is the folder of patches, printed lines go to
/// `lines` and the samples to `pcm`, 16 bits little-endian, left then right.
///
/// `plays` says what is printed, written and put into the folder, in one order of lines, samples and files: the lines of opening, the run of the
/// script in which each box does with each message what its object's definition says, and then the line of the status. Where a sink fails, it is a
/// first part of that. Edits of wires and edits that put a box with all that lies in it, a port of the box around or an abstraction too, which the
/// script or a message asks for, edits of the script that delete a box with all that lies in it, or a port of the box around with the wires at it,
/// make a box without a canvas inside another such one, without the wires that don't fit that, give a subpatch another text with which it keeps what
/// it holds, or move a box, a port of the box around too, and saves of the patch's own document are made; other edits and saves are refused so far,
/// those too that retype a port of a box around, and there is nothing to undo. The load boxes that lie in what came fire behind the edit that put it.
/// The text of a save opens again, under the `$0` numbers of the patch, as the patch that was saved; and as a file that is opened does, until a box
/// that goes takes one of these away or one that comes brings one (`again`). With `--make` a made patch is played by its own script, nothing of
/// `script` is read, and the last line tells what the run came to.
///
/// `completes` says when the run is sure to come to its end.
pub fn play<H: Shelf, S: Source, L: Sink, P: Sink>(
    alloc: Global,
    words: &[String],
    shelf: &mut H,
    script: &mut S,
    lines: &mut L,
    pcm: &mut P,
) -> Status
    ensures folder_counted { H.faults shelf.old ≤ H.faults shelf.new }
    ensures causes { HasCauses (H.faults shelf.old) (H.faults shelf.new) (S.faults script.old) (S.faults script.new) (L.faults lines.old) (L.faults lines.new) (P.faults pcm.old) (P.faults pcm.new) result }
    ensures short { result ≡ Status.NoMemory → (H.holds shelf.new ≡ H.holds shelf.old) × (script.new ≡ script.old) × (pcm.new ≡ pcm.old) }
    ensures usage { result ≡ Status.Usage → is_some (words_of (map (λ w. string_bytes w) words.now)) ≡ false }
    ensures unplayed { is_some (words_of (map (λ w. string_bytes w) words.now)) ≡ false →
        IsUnplayed result (L.taken lines.old) (L.taken lines.new) (L.faults lines.old) (L.faults lines.new) }
    ensures untouched { is_some (words_of (map (λ w. string_bytes w) words.now)) ≡ false →
        (shelf.new ≡ shelf.old) × (script.new ≡ script.old) × (pcm.new ≡ pcm.old) }
    ensures unread { IfSome (words_of (map (λ w. string_bytes w) words.now)) (λ a. is_some a.make ≡ true → script.new ≡ script.old) }
    ensures plays { PlaysAskedFreely (words_of (map (λ w. string_bytes w) words.now)) result (S.left script.old) (S.left script.new) (S.faults script.old) (S.faults script.new) (L.faults lines.old) (L.faults lines.new) (sinks (L.taken lines.old) (P.taken pcm.old) 0 (H.holds shelf.old) (H.faults shelf.old)) (sinks (L.taken lines.new) (P.taken pcm.new) 0 (H.holds shelf.new) (H.faults shelf.new)) }
    ensures completes { Completes (words_of (map (λ w. string_bytes w) words.now)) (H.holds shelf.old) (S.left script.old) result (H.faults shelf.old) (H.faults shelf.new) (S.faults script.old) (S.faults script.new) (L.faults lines.old) (L.faults lines.new) (P.faults pcm.old) (P.faults pcm.new) }
{
    play_passes_nothing_over();
    pd_made_law::made_scripts_are_commands();
    pd_made_growth_law::made_patches_grow();
    pd_play::play(alloc, words, shelf, script, lines, pcm)
}
