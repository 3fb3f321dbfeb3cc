//! Laws over webs in which a box gets other ports.

ghost use Rattle.std.specs.Prelude.{◌≡◌, ℕ, Bool, true, false, List, [], Some, None, IsSome};
ghost use Rattle.slab.specs.Slab.{get};
ghost use Rattle.pd_grove.specs.declared.grove.Grove.{Grove};
ghost use Rattle.pd_grove.specs.declared.ports.Side.{Side};
ghost use Rattle.pd_grove.specs.Owning.{AreOwn};
ghost use Rattle.pd_grove.specs.Telling.{inner_in, keys_in};
ghost use Rattle.pd_web.specs.declared.jacks.Jack.{Jack};
ghost use Rattle.pd_web.specs.declared.web.Web.{Web};
ghost use Rattle.pd_web.specs.Changes.{Meet};
ghost use Rattle.pd_web.specs.Homes.{IsPortOf};
ghost use Rattle.pd_web.specs.Hops.{ports_told, port_told};
ghost use Rattle.pd_web.specs.Jacks.{jacks_at};
ghost use Rattle.pd_ports.specs.Boxes.{HasPorts, KnowsPorts, but_of};
ghost use Rattle.pd_ports.specs.Moves.{FollowsPorts, KnowsSide};
ghost use Rattle.pd_ports.specs.Known.{AreFreeFor, HoldAlone, KnowsHomes};
ghost use Rattle.pd_ports.specs.Orders.{KeepOrder, KeepPlaces, x_in};

/// Where one box gets ports or loses them, each wire stands at both of its ports as before.
pub fn wires_still_meet()
    ensures { (w w' : Web) (key : ℕ) (jacks : Side → List Jack) (is_made : Bool) → HasPorts w w' key jacks is_made → Meet w → Meet w' }
{}

/// A web that has the ports of a grove knows its port boxes just where each of them is known to be a port of a box that it is.
pub fn port_boxes_are_known()
    ensures known { (g : Grove) (w : Web) → AreOwn (get g.nodes) (get g.boards) → HoldAlone g → ((side : Side) (k : ℕ) → ports_told w side k ≡ jacks_at side g k) →
        ((j k i : ℕ) → port_told w j ≡ Some (k, i) → IsPortOf g j k i) → ((j k i : ℕ) → IsPortOf g j k i → IsSome (port_told w j)) → KnowsHomes w }
    ensures homes { (g : Grove) (w : Web) → ((side : Side) (k : ℕ) → ports_told w side k ≡ jacks_at side g k) → KnowsHomes w →
        (j k i : ℕ) → port_told w j ≡ Some (k, i) → IsPortOf g j k i }
    ensures homes_found { (g : Grove) (w : Web) → ((side : Side) (k : ℕ) → ports_told w side k ≡ jacks_at side g k) → KnowsHomes w →
        (j k i : ℕ) → IsPortOf g j k i → IsSome (port_told w j) }
{}

/// Where a box gets its first ports, loses its ports, or has others on a side, it is still known of each port box which port it is.
pub fn port_boxes_stay_known()
    ensures opened { (g : Grove) (w w' : Web) (key : ℕ) (is_made : Bool) → AreOwn (get g.nodes) (get g.boards) → HasPorts w w' key (λ side. jacks_at side g key) is_made →
        KnowsPorts g w w' key → ((side : Side) → ports_told w side key ≡ []) → ((j i : ℕ) → IsPortOf g j key i → port_told w j ≡ None) → KnowsHomes w → KnowsHomes w' }
    ensures closed { (w w' : Web) (key : ℕ) → HasPorts w w' key (λ _. []) false → ((j : ℕ) → port_told w' j ≡ but_of key (port_told w j)) → KnowsHomes w → KnowsHomes w' }
    ensures followed { (w w' : Web) (key : ℕ) (side : Side) (jacks : List Jack) → FollowsPorts w w' key side jacks → KnowsSide w w' key side jacks →
        AreFreeFor w key side jacks → KnowsHomes w → KnowsHomes w' }
{}

/// Of the boxes of a canvas those that stand as far to the right as before, and one behind the other as before, are ports in the same order
/// as before, where they are ports before and after.
pub fn ports_keep_their_order()
    ensures { (g g' : Grove) (side : Side) (key c c' : ℕ) (stays : ℕ → Bool) → AreOwn (get g.nodes) (get g.boards) → inner_in (get g.nodes key) ≡ Some c → inner_in (get g'.nodes key) ≡ Some c' →
        ((k : ℕ) → stays k ≡ true → x_in (get g'.nodes k) ≡ x_in (get g.nodes k)) → KeepPlaces stays (keys_in (get g.boards c)) (keys_in (get g'.boards c')) → KeepOrder stays (jacks_at side g key) (jacks_at side g' key) }
{}
