//! What a patch tells of its tree.

ghost use Rattle.std.specs.Prelude.{◌≡◌, ◌≤◌, ◌<◌, ◌+◌, ◌∷◌, ◌++◌, ℕ, Some, length, slice_get, IfOk};
ghost use Rattle.std.specs.Option.{option_copied};
ghost use Rattle.slab.specs.Slab.{get, ContainsKey};
ghost use Rattle.pd_tree.specs.declared.rows.Sheet.{Sheet};
ghost use Rattle.pd_tree.specs.Trees.{Trees, zeros_in};
ghost use Rattle.pd_grove.specs.Standing.{GroveStands};
ghost use Rattle.pd_grove.specs.Telling.{kind_in, keys_in, reached, inner_in};
ghost use Rattle.pd_grove.specs.TextOrder.{deep};
ghost use Rattle.pd_grove.specs.declared.ports.Side.TheVariants.{Inlets, Outlets};
ghost use Rattle.pd_name.specs.Rows.{owners_of};
ghost use Rattle.pd_bind.specs.Owning.{owner_in};
ghost use Rattle.pd_web.specs.Hops.{ports_told, jack_told, signal_in, side_named, fan_hops, port_told};
ghost use Rattle.pd_web.specs.Homes.{inner_in as inner_port};
ghost use Rattle.pd_patch.specs.Paths.{path_told, number_of, out_of, around as around_of};
ghost use Rattle.pd_patch.specs.Telling.{order_in, is_looped, fault_in, line_atom, number_in};
ghost use Rattle.pd_patch.specs.Wires.{wire_in};

use crate::patch::Patch;
use arrayvec::ArrayVec;
use pd_atom::{Atom, Sym};
use pd_bind::{Owner, owner_at};
use pd_canvas::{Form, Numbers};
use pd_grove::Node;
use pd_kind::Kind;
use pd_name::Class;
use pd_order::Order;
use pd_tree::Fault;
use pd_web::Hop;
use pd_wire::WireKey;
use std::alloc::{AllocError, Global};

/// So many canvases may lie in one another.
const MOST_LEVELS: u32 = 256;

impl Patch {
    /// The key of the root canvas.
    pub fn root(&self) -> u32
        ensures { result ≡ self.now.grove.root }
    {
        self.grove.root()
    }

    /// A box; `None` exactly where none lives under the key.
    pub fn node(&self, key: u32) -> Option<&Node>
        ensures { option_copied result ≡ get self.now.grove.nodes key }
    {
        self.grove.node(key)
    }

    /// The kind of a live box.
    pub fn kind_at(&self, node: u32) -> &Kind
        requires { ContainsKey self.now.grove.nodes node }
        ensures { kind_in (get self.now.grove.nodes node) ≡ Some result.now }
    {
        self.grove.kind_at(node)
    }

    /// The key of the canvas that a box holds; `None` exactly where it holds none.
    pub fn canvas_in(&self, node: u32) -> Option<u32>
        ensures { result ≡ inner_in (get self.now.grove.nodes node) }
    {
        self.grove.canvas_in(node)
    }

    /// The key of the box of a number of a canvas; `None` exactly from the canvas's number of boxes on.
    pub fn box_key(&self, canvas: u32, number: u32) -> Option<u32>
        ensures { result ≡ slice_get (keys_in (get self.now.grove.boards canvas)) number }
    {
        self.grove.box_key(canvas, number)
    }

    /// The key of the wire at a place, counted from 0, in the fan-out of an outlet of a box of a canvas; `None` exactly where the box, the
    /// outlet or the place isn't there.
    pub fn wire_key(&self, canvas: u32, source: u32, outlet: u32, place: u32) -> Option<WireKey>
        ensures { result ≡ wire_in self.now canvas source outlet place }
    {
        let node = self.box_key(canvas, source)?;
        self.web.wire_key(node, outlet, place)
    }

    /// The key of the canvas to which a path of box numbers leads from the root; `None` exactly where it leads to none.
    pub fn place_key(&self, path: &[u32]) -> Option<u32>
        ensures { result ≡ reached self.now.grove (Some self.now.grove.root) path.now }
    {
        self.grove.place_key(path)
    }

    /// The `$0` numbers: the root's, and those of abstractions in text order.
    ///
    /// # Errors
    ///
    /// `AllocError` where memory ran out.
    pub fn zeros(&self, alloc: Global) -> Result<Numbers, AllocError>
        ensures { (s : Sheet) (t : Trees) → GroveStands self.now.grove s t → deep t ≤ 256 →
            IfOk result (λ zeros. zeros ≡ s.zero ∷ zeros_in t) }
    {
        self.grove.zeros(alloc)
    }

    /// The signal order of a canvas; `None` where none lives under the key.
    pub fn order_at(&self, canvas: u32) -> Option<&Order>
        ensures { option_copied result ≡ order_in self.now.orders.items canvas }
    {
        self.orders.get(canvas as usize)?.as_ref()
    }

    /// Whether boxes of a canvas feed one another in a loop.
    pub fn has_loop(&self, canvas: u32) -> bool
        ensures { result ≡ is_looped (order_in self.now.orders.items canvas) }
    {
        match self.order_at(canvas) {
            Some(order) => !order.stuck().is_empty(),
            None => false,
        }
    }

    /// The boxes and canvases that own a name, in text order.
    pub fn owners(&self, class: Class, name: Sym) -> &[u32]
        ensures { result.now ≡ owners_of self.now.names class name }
    {
        self.names.owners(class, name)
    }

    /// What one of the owners is.
    pub fn owner_at(&self, owner: u32) -> Owner
        ensures { result ≡ owner_in self.now.grove owner }
    {
        owner_at(&self.grove, owner)
    }

    /// Why a box could not be made, and the atom that its line names; `None` where it is made or its text is empty.
    pub fn fault_at(&self, node: u32) -> Option<(Fault, Atom)>
        ensures { result ≡ fault_in (get self.now.grove.nodes node) }
    {
        let node = self.grove.node(node)?;
        let fault = node.fault?;
        Some((fault, first_atom(node)?))
    }

    /// How many inlets a box has.
    pub fn inlets_at(&self, node: u32) -> u32
        ensures { result ≡ length (ports_told self.now.web Inlets node) }
    {
        self.web.inlets_at(node)
    }

    /// How many outlets a box has.
    pub fn outlets_at(&self, node: u32) -> u32
        ensures { result ≡ length (ports_told self.now.web Outlets node) }
    {
        self.web.outlets_at(node)
    }

    /// Whether an inlet carries signals.
    pub fn inlet_signal_at(&self, node: u32, i: u32) -> bool
        ensures { result ≡ signal_in (jack_told self.now.web Inlets node i) }
    {
        self.web.inlet_signal_at(node, i)
    }

    /// Whether an outlet carries signals.
    pub fn outlet_signal_at(&self, node: u32, i: u32) -> bool
        ensures { result ≡ signal_in (jack_told self.now.web Outlets node i) }
    {
        self.web.outlet_signal_at(node, i)
    }

    /// The first wire of an outlet: the box that it feeds, and its inlet. `None` exactly where there is none.
    pub fn fan_first(&self, node: u32, outlet: u32) -> Option<Hop>
        ensures { result ≡ slice_get (fan_hops self.now.web node outlet) 0 }
    {
        self.web.fan_first(node, outlet)
    }

    /// The next wire of the outlet. `None` exactly at the end.
    pub fn fan_next(&self, hop: Hop) -> Option<Hop>
        ensures { (node outlet i : ℕ) → slice_get (fan_hops self.now.web node outlet) i ≡ Some hop →
            result ≡ slice_get (fan_hops self.now.web node outlet) (i + 1) }
    {
        self.web.fan_next(hop)
    }

    /// The box of a port of a box that holds a canvas.
    pub fn port_box(&self, node: u32, port: u32, outlet: bool) -> Option<u32>
        ensures { result ≡ inner_port (jack_told self.now.web (side_named outlet) node port) }
    {
        self.web.port_box(node, port, outlet)
    }

    /// The box and the port for which an inlet's or outlet's box stands; `None` for other boxes and in the root canvas.
    pub fn port_of(&self, node: u32) -> Option<(u32, u32)>
        ensures { result ≡ port_told self.now.web node }
    {
        self.web.port_of(node)
    }

    /// The path of box numbers that leads from the root to a canvas.
    #[tactic(auto, unfolding(crate::specs::Paths::path_told))]
    pub fn path_of(&self, canvas: u32) -> ArrayVec<u32, 256>
        ensures { result.items ≡ path_told (get self.now.grove.nodes) self.now.grove.boards self.now.numbers.items canvas }
    {
        let mut path = ArrayVec::new();
        let mut here = self.around(canvas);
        for _level in 0..MOST_LEVELS {
            here = self.step_out(here, &mut path);
        }
        path.as_mut_slice().reverse();
        path
    }

    /// Notes the number of a box and gives what is around its canvas.
    fn step_out(
        &self,
        here: Option<(u32, u32)>,
        path: &mut ArrayVec<u32, 256>,
    ) -> Option<(u32, u32)>
        requires { length path.old.items < 256 }
        ensures path { path.new.items ≡ path.old.items ++ number_of here }
        ensures out { result ≡ out_of (get self.now.grove.nodes) self.now.grove.boards self.now.numbers.items here }
    {
        let (outer, number) = here?;
        let _kept = path.try_push(number);
        self.around(outer)
    }

    /// The canvas in which a canvas lies, and the number of the box that holds it.
    fn around(&self, canvas: u32) -> Option<(u32, u32)>
        ensures { result ≡ around_of (get self.now.grove.nodes) self.now.grove.boards self.now.numbers.items canvas }
    {
        let holder = self.grove.board(canvas)?.holder?;
        let outer = self.grove.node(holder)?.board;
        Some((outer, self.number_at(holder)))
    }

    /// The number of a box in its canvas.
    pub fn number_at(&self, node: u32) -> u32
        ensures { result ≡ number_in self.now.numbers.items node }
    {
        self.numbers.get(node as usize).copied().unwrap_or(0)
    }
}

/// The atom that the line of a box names: the first of its text, or the word of its record where that has one.
fn first_atom(node: &Node) -> Option<Atom>
    ensures { result ≡ line_atom node.now }
{
    match &node.element.form {
        Form::Other(word) => Some(Atom::Symbol(*word)),
        _ => node.text.as_slice().first().copied(),
    }
}
