//! Room set aside in a web, so that the calls that use it up can't fail.

ghost use Rattle.std.specs.Prelude.{◌≡◌, ◌<◌, ◌≤◌, ◌+◌, ◌++◌, ◌∷◌, [], length, OnOk, OnErr};
ghost use Rattle.pd_wire.specs.Book.{IsEnd, fan_of, feeds_of, DropsEnd, with_room};
ghost use Rattle.pd_web.specs.Spares.{IsLonger, SameSockets, SameHomes};
ghost use Rattle.pd_web.specs.Changes.{HasRoom, KeepsRoom, IsSame};

use crate::sockets::{Sockets, Spot};
use crate::web::Web;
use pd_grove::Side;
use pd_wire::{End, WireBook};
use std::alloc::{AllocError, Global};

/// What stands for the port of an end that no port has.
const NO_SPOT: Spot = Spot {
    node: 0,
    side: Side::Inlets,
    port: 0,
};

impl Web {
    /// Sets room aside for boxes with keys below `keys`, for at least so many ports that get their first wire, and for at
    /// least so many wires. What was set aside before counts for it.
    pub fn reserve(
        &mut self,
        alloc: Global,
        keys: usize,
        ports: usize,
        wires: usize,
    ) -> Result<(), AllocError>
        ensures same { IsSame self.old self.new }
        ensures kept { KeepsRoom self.old self.new }
        ensures room { OnOk result (HasRoom self.new keys ports wires) }
    {
        self.reach_ports(alloc, keys)?;
        self.reach_homes(keys)?;
        self.reserve_book(0, wires)?;
        self.reserve_ends(ports)
    }

    /// Room for the ports of boxes with keys below a number.
    fn reach_ports(&mut self, alloc: Global, keys: usize) -> Result<(), AllocError>
        ensures same { IsSame self.old self.new }
        ensures kept { KeepsRoom self.old self.new }
        ensures far { OnOk result (keys ≤ length self.new.sockets.items) }
    {
        reach_sockets(alloc, &mut self.sockets, keys)
    }

    /// Room for what is known of boxes with keys below a number.
    fn reach_homes(&mut self, keys: usize) -> Result<(), AllocError>
        ensures same { IsSame self.old self.new }
        ensures kept { KeepsRoom self.old self.new }
        ensures ports { length self.new.sockets.items ≡ length self.old.sockets.items }
        ensures far { OnOk result (keys ≤ length self.new.homes.items) }
    {
        lengthen_homes(&mut self.homes, keys)
    }

    /// Room for ends and wires in the book.
    fn reserve_book(&mut self, ends: usize, wires: usize) -> Result<(), AllocError>
        ensures same { IsSame self.old self.new }
        ensures kept { KeepsRoom self.old self.new }
        ensures spare { self.new.spare.items ≡ self.old.spare.items }
        ensures room { OnOk result (self.new.book ≡ with_room self.old.book ends wires) }
    {
        self.book.laws();
        self.book.reserve(ends, wires)
    }

    /// Room for ports that get their first wire.
    fn reserve_ends(&mut self, ports: usize) -> Result<(), AllocError>
        ensures same { IsSame self.old self.new }
        ensures kept { KeepsRoom self.old self.new }
        ensures room { OnOk result (HasRoom self.new 0 ports 0) }
    {
        for _ in self.spare.len()..ports {
            self.set_end_aside()?;
        }
        Ok(())
    }

    /// One end more is set aside.
    fn set_end_aside(&mut self) -> Result<(), AllocError>
        ensures same { IsSame self.old self.new }
        ensures kept { KeepsRoom self.old self.new }
        ensures more { OnOk result (length self.new.spare.items ≡ length self.old.spare.items + 1) }
    {
        self.reserve_book(1, 0)?;
        self.make_spare()
    }

    /// One end more is made and set aside.
    fn make_spare(&mut self) -> Result<(), AllocError>
        requires { 0 < self.old.book.spare_ends }
        ensures same { IsSame self.old self.new }
        ensures kept { KeepsRoom self.old self.new }
        ensures more { OnOk result (length self.new.spare.items ≡ length self.old.spare.items + 1) }
    {
        self.book.laws();
        let end = self.book.make_end();
        let kept = keep_end(&mut self.spots, &mut self.spare, end);
        drop_lost(&mut self.book, end, kept)
    }
}

/// Drops a new end that could not be kept.
fn drop_lost(book: &mut WireBook, end: End, kept: Result<(), AllocError>) -> Result<(), AllocError>
    requires end { IsEnd book.old end }
    requires no_fan { fan_of book.old end ≡ [] }
    requires no_feeds { feeds_of book.old end ≡ [] }
    ensures same { result ≡ kept }
    ensures ok { OnOk kept (book.new ≡ book.old) }
    ensures err { OnErr kept (DropsEnd book.old book.new end) }
{
    match kept {
        Ok(()) => Ok(()),
        Err(error) => {
            book.drop_end(end);
            Err(error)
        }
    }
}

/// Keeps a new end among those set aside.
fn keep_end(spots: &mut Vec<Spot>, spare: &mut Vec<u32>, end: End) -> Result<(), AllocError>
    ensures longer { IsLonger spots.old.items spots.new.items }
    ensures far { OnOk result (end < length spots.new.items) }
    ensures kept { OnErr result (spare.new.items ≡ spare.old.items) }
    ensures more { OnOk result (spare.new.items ≡ spare.old.items ++ end ∷ []) }
{
    let Ok(number) = u32::try_from(end.number()) else {
        return Err(AllocError);
    };
    reach_spot(spots, end.number())?;
    spare.push(number)?;
    Ok(())
}

/// Makes the list reach beyond a number.
fn reach_spot(spots: &mut Vec<Spot>, number: usize) -> Result<(), AllocError>
    ensures longer { IsLonger spots.old.items spots.new.items }
    ensures far { OnOk result (number < length spots.new.items) }
{
    while spots.len() <= number {
        spots.push(NO_SPOT)?;
    }
    Ok(())
}

/// Makes the list reach up to a key, by boxes without ports.
fn reach_sockets(alloc: Global, sockets: &mut Vec<Sockets>, keys: usize) -> Result<(), AllocError>
    ensures same { SameSockets sockets.old.items sockets.new.items }
    ensures far { OnOk result (keys ≤ length sockets.new.items) }
{
    while sockets.len() < keys {
        sockets.push(Sockets {
            inlets: Vec::new(alloc),
            outlets: Vec::new(alloc),
            is_made: false,
        })?;
    }
    Ok(())
}

/// Makes the list reach up to a key, by boxes that are no port.
fn lengthen_homes(homes: &mut Vec<Option<Spot>>, keys: usize) -> Result<(), AllocError>
    ensures same { SameHomes homes.old.items homes.new.items }
    ensures far { OnOk result (keys ≤ length homes.new.items) }
{
    while homes.len() < keys {
        homes.push(None)?;
    }
    Ok(())
}
