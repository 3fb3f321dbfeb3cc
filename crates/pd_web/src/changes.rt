//! One wire more or less, at its places in two lists.

ghost use Rattle.std.specs.Prelude.{◌≡◌, ◌<◌, ◌+◌, ℕ, Some, None, IsSome, length, slice_get};
ghost use Rattle.pd_wire.specs.Book.{StandsAt};
ghost use Rattle.pd_web.specs.Sockets.{IsThere, Gives, Writes, end_at as end_told};
ghost use Rattle.pd_web.specs.declared.web.Hop.{Hop};
ghost use Rattle.pd_web.specs.Lines.{IsRoute};
ghost use Rattle.pd_web.specs.Hops.{fan_keys, feed_keys, fan_hops, feed_hops};
ghost use Rattle.pd_web.specs.Changes.{line_told, wires_told, line_by, hop_at, HasRoom, IsSame, Joins, CutsWire};

use crate::ends::{end_at, put_end};
use crate::lines::Line;
use crate::sockets::{Sockets, Spot};
use crate::web::Web;
use pd_wire::{End, WireKey};

/// Writes which port an end is.
fn set_spot(spots: &mut Vec<Spot>, number: usize, spot: Spot)
    requires { number < length spots.old.items }
    ensures { Writes spots.old.items spots.new.items number spot }
{
    spots[number] = spot;
}

/// Writes which end a port has.
fn give_end(sockets: &mut Vec<Sockets>, spot: Spot, end: u32)
    requires { IsThere sockets.old.items spot }
    ensures gives { Gives sockets.old.items sockets.new.items spot end }
    ensures len { length sockets.new.items ≡ length sockets.old.items }
{
    put_end(sockets.as_mut_slice(), spot, end);
}

impl Web {
    /// From where the wire of a key comes and where it leads; `None` where it isn't a wire.
    pub fn line_at(&self, key: WireKey) -> Option<Line>
        ensures { result ≡ line_told self.now key }
    {
        if !self.book.has_wire(key) {
            return None;
        }
        let from = self.hop_from(key);
        let to = self.hop_to(key);
        Some(Line {
            source: from.node,
            outlet: from.port,
            sink: to.node,
            inlet: to.port,
        })
    }

    /// How many wires there are. It goes over all that the book of wires holds, so it is for a patch that opens.
    pub fn wire_count(&self) -> usize
        ensures { result ≡ wires_told self.now }
    {
        self.book.wire_count()
    }

    /// What is true of each web. It does nothing.
    pub fn laws(&self)
        ensures fans { (node outlet i : ℕ) (h : Hop) → slice_get (fan_hops self.now node outlet) i ≡ Some h →
            line_told self.now h.key ≡ Some (line_by (hop_at h.key node outlet) h) }
        ensures feeds { (node inlet i : ℕ) (h : Hop) → slice_get (feed_hops self.now node inlet) i ≡ Some h →
            line_told self.now h.key ≡ Some (line_by h (hop_at h.key node inlet)) }
        ensures once { (node outlet i j k : ℕ) → slice_get (fan_keys self.now node outlet) i ≡ Some k →
            slice_get (fan_keys self.now node outlet) j ≡ Some k → i ≡ j }
        ensures once_fed { (node inlet i j k : ℕ) → slice_get (feed_keys self.now node inlet) i ≡ Some k →
            slice_get (feed_keys self.now node inlet) j ≡ Some k → i ≡ j }
    {
        self.book.laws();
    }

    /// A wire more, last in the fan-out of its outlet, and among the feeds of its inlet before the wire `next`, or last
    /// without one. It walks no list and takes no memory.
    pub fn join(&mut self, line: Line, next: Option<WireKey>) -> WireKey
        requires route { IsRoute self.old.sockets.items line }
        requires room { HasRoom self.old 0 2 1 }
        requires next { (place : ℕ) × StandsAt (feed_keys self.old line.sink line.inlet) place next }
        ensures { (place : ℕ) → StandsAt (feed_keys self.old line.sink line.inlet) place next →
            Joins self.old self.new result line (length (fan_keys self.old line.source line.outlet)) place }
    {
        self.rejoin(line, None, next)
    }

    /// A wire more, in the fan-out of its outlet before the wire `fan_next`, and among the feeds of its inlet before the
    /// wire `feed_next`, or last where there is none. It walks no list and takes no memory.
    pub fn rejoin(
        &mut self,
        line: Line,
        fan_next: Option<WireKey>,
        feed_next: Option<WireKey>,
    ) -> WireKey
        requires route { IsRoute self.old.sockets.items line }
        requires room { HasRoom self.old 0 2 1 }
        requires fan_next { (place : ℕ) × StandsAt (fan_keys self.old line.source line.outlet) place fan_next }
        requires feed_next { (place : ℕ) × StandsAt (feed_keys self.old line.sink line.inlet) place feed_next }
        ensures { (fan_place feed_place : ℕ) → StandsAt (fan_keys self.old line.source line.outlet) fan_place fan_next →
            StandsAt (feed_keys self.old line.sink line.inlet) feed_place feed_next →
            Joins self.old self.new result line fan_place feed_place }
    {
        let source = self.end_for_wire(line.from());
        let sink = self.end_for_wire(line.to());
        self.book.laws();
        self.book.insert_before(source, fan_next, sink, feed_next)
    }

    /// Cuts a wire, in a number of steps that no list's length raises.
    pub fn cut(&mut self, key: WireKey)
        requires { IsSome (line_told self.old key) }
        ensures { CutsWire self.old self.new key }
    {
        self.book.laws();
        self.book.cut(key);
    }

    /// The end of a port, one of those set aside where it had none.
    fn end_for_wire(&mut self, spot: Spot) -> End
        requires there { IsThere self.old.sockets.items spot }
        requires room { 0 < length self.old.spare.items }
        ensures is { end_told self.new.sockets.items spot ≡ Some result }
        ensures same { IsSame self.old self.new }
        ensures book { self.new.book ≡ self.old.book }
        ensures ends { (s : Spot) (e : ℕ) → end_told self.old.sockets.items s ≡ Some e → end_told self.new.sockets.items s ≡ Some e }
        ensures room { (k p n : ℕ) → HasRoom self.old k (p + 1) n → HasRoom self.new k p n }
    {
        match end_at(self.sockets.as_slice(), spot) {
            Some(end) => end,
            None => self.take_end(spot),
        }
    }

    /// An end of those set aside for a port that has none.
    fn take_end(&mut self, spot: Spot) -> End
        requires there { IsThere self.old.sockets.items spot }
        requires none { end_told self.old.sockets.items spot ≡ None }
        requires room { 0 < length self.old.spare.items }
        ensures is { end_told self.new.sockets.items spot ≡ Some result }
        ensures same { IsSame self.old self.new }
        ensures book { self.new.book ≡ self.old.book }
        ensures ends { (s : Spot) (e : ℕ) → end_told self.old.sockets.items s ≡ Some e → end_told self.new.sockets.items s ≡ Some e }
        ensures room { (k p n : ℕ) → HasRoom self.old k (p + 1) n → HasRoom self.new k p n }
    {
        let Some(number) = self.spare.pop() else {
            unreachable!()
        };
        self.book.laws();
        set_spot(&mut self.spots, number as usize, spot);
        give_end(&mut self.sockets, spot, number);
        End::of_number(number as usize)
    }
}
