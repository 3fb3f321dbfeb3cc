//! The numbers of the boxes of canvases that have come.

ghost use Rattle.std.specs.Prelude.{◌≡◌, ◌<◌, ◌^◌, ℕ, Some, None, length, IsSome, IsTrue};
ghost use Rattle.slab.specs.Slab.{get};
ghost use Rattle.pd_grove.specs.Owning.{AreOwn};
ghost use Rattle.pd_grove.specs.Telling.{inner_in};
ghost use Rattle.pd_grove.specs.TextOrder.{keys_of_spots};
ghost use Rattle.pd_owning.specs.Bound.{is_among};
ghost use Rattle.pd_web.specs.Canvases.{keys_at};
ghost use Rattle.pd_boxes.specs.Rows.{NumbersFrom};
ghost use Rattle.pd_instances.specs.Layers.{NumbersAll};

use pd_boxes::{Place, number_boxes};
use pd_grove::{Grove, Spot};

/// Gives the boxes of the canvases that boxes hold their numbers. No memory is taken.
pub(crate) fn number_all(numbers: &mut Vec<u32>, grove: &Grove, spots: &[Spot])
    requires own { AreOwn (get grove.now.nodes) (get grove.now.boards) }
    requires few { (k c : ℕ) → IsTrue (is_among (keys_of_spots spots.now) k) → inner_in (get grove.now.nodes k) ≡ Some c → length (keys_at grove.now c) < 2 ^ 32 }
    requires reach { (k : ℕ) → IsSome (get grove.now.nodes k) → k < length numbers.old.items }
    ensures numbers { NumbersAll grove.now numbers.old.items numbers.new.items (keys_of_spots spots.now) }
    ensures reach { (k : ℕ) → k < length numbers.old.items → k < length numbers.new.items }
{
    for spot in spots {
        number_inside(numbers, grove, spot.node);
    }
}

/// Gives the boxes of the canvas that a box holds their numbers.
fn number_inside(numbers: &mut Vec<u32>, grove: &Grove, key: u32)
    requires own { AreOwn (get grove.now.nodes) (get grove.now.boards) }
    requires few { (c : ℕ) → inner_in (get grove.now.nodes key) ≡ Some c → length (keys_at grove.now c) < 2 ^ 32 }
    requires reach { (k : ℕ) → IsSome (get grove.now.nodes k) → k < length numbers.old.items }
    ensures some { (c : ℕ) → inner_in (get grove.now.nodes key) ≡ Some c → NumbersFrom numbers.old.items numbers.new.items (keys_at grove.now c) 0 }
    ensures none { inner_in (get grove.now.nodes key) ≡ None → numbers.new.items ≡ numbers.old.items }
    ensures reach { (k : ℕ) → k < length numbers.old.items → k < length numbers.new.items }
{
    if let Some(canvas) = grove.canvas_in(key) {
        number_boxes(numbers, grove, Place { canvas, number: 0 });
    }
}
