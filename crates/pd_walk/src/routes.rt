//! Routes: where the only wire of a box's first outlet leads.

ghost use Rattle.std.specs.Prelude.{◌≡◌, ◌≤◌, ◌^◌, ◌∷◌, [], true, slice_get, Some};
ghost use Rattle.pd_web.specs.declared.web.Web.{Web};
ghost use Rattle.pd_web.specs.Hops.{fan_hops};
ghost use Rattle.pd_walk.specs.Relays.{IsRoute, AreRoutes, IsAtHand};

use pd_patch::Patch;
use pd_stack::end_at;
use pd_web::Hop;

/// How many routes are kept at hand.
const MOST_ROUTES: usize = 256;

/// Above the keys of all boxes.
const NO_BOX: u64 = 1 << 32;

/// Where the only wire of a box's first outlet leads, by the key of the box. With a key that no box has none is known.
#[derive(Clone, Copy, Drop)]
pub(crate) struct Route {
    pub(crate) node: u64,
    pub(crate) to: u32,
    pub(crate) inlet: u32,
}

/// The routes that were found of late, each at a place that its box's key gives.
pub(crate) type Routes = [Route; 256];

/// None is known yet.
pub(crate) fn no_routes() -> Routes
    ensures { (web : Web) → AreRoutes web result }
{
    [no_route(); 256]
}

/// No route is known.
#[inline(always)]
fn no_route() -> Route
    ensures { 2 ^ 32 ≤ result.node }
{
    Route {
        node: NO_BOX,
        to: 0,
        inlet: 0,
    }
}

/// Whether the route of a box's first outlet is at hand.
#[inline(always)]
pub(crate) fn is_at_hand(routes: &Routes, node: u32) -> bool
    ensures { (web : Web) → AreRoutes web routes.now → result ≡ true → IsAtHand web routes.now node }
{
    routes[node as usize % MOST_ROUTES].node == u64::from(node)
}

/// Whether the route of a box's first outlet is at hand then: it is where the outlet has just one wire.
#[inline(always)]
pub(crate) fn has_route(patch: &Patch, routes: &mut Routes, node: u32) -> bool
    requires { AreRoutes patch.now.web routes.old }
    ensures routes { AreRoutes patch.now.web routes.new }
    ensures route { result ≡ true → IsAtHand patch.now.web routes.new node }
{
    if is_at_hand(routes, node) {
        return true;
    }
    find_route(patch, routes, node)
}

/// The route of a box that is at hand.
#[inline(always)]
pub(crate) fn route_of(routes: &Routes, node: u32) -> Route
    ensures { (web : Web) → IsAtHand web routes.now node → IsRoute web node result }
{
    routes[node as usize % MOST_ROUTES]
}

/// Has the route of a box's first outlet at hand, found by its wires. Whether the outlet has just one wire.
#[inline(never)]
fn find_route(patch: &Patch, routes: &mut Routes, node: u32) -> bool
    requires { AreRoutes patch.now.web routes.old }
    ensures routes { AreRoutes patch.now.web routes.new }
    ensures route { result ≡ true → IsAtHand patch.now.web routes.new node }
{
    match patch.fan_first(node, 0) {
        Some(hop) => find_along(patch, routes, node, hop),
        None => false,
    }
}

/// The same by the first wire.
fn find_along(patch: &Patch, routes: &mut Routes, node: u32, hop: Hop) -> bool
    requires routes { AreRoutes patch.now.web routes.old }
    requires first { Some hop ≡ slice_get (fan_hops patch.now.web node 0) 0 }
    ensures routes { AreRoutes patch.now.web routes.new }
    ensures route { result ≡ true → IsAtHand patch.now.web routes.new node }
{
    match patch.fan_next(hop) {
        Some(_) => false,
        None => {
            keep_route(patch, routes, node, hop);
            true
        }
    }
}

/// Keeps at hand where the only wire of a box's first outlet leads.
fn keep_route(patch: &Patch, routes: &mut Routes, node: u32, hop: Hop)
    requires routes { AreRoutes patch.now.web routes.old }
    requires only { fan_hops patch.now.web node 0 ≡ hop ∷ [] }
    ensures routes { AreRoutes patch.now.web routes.new }
    ensures route { IsAtHand patch.now.web routes.new node }
{
    let (to, inlet) = end_at(patch, hop);
    routes[node as usize % MOST_ROUTES] = Route {
        node: u64::from(node),
        to,
        inlet,
    };
}
