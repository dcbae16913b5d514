// The power of a drive, which lasts for the given number of events of all its ports together.
ghost use Rattle.std.specs.Prelude.{◌≡◌, ◌<◌, ◌≤◌, ◌+◌, ◌^◌, ℕ, [], ◌∷◌, length, vec_capacity, true, false, IfOk, OnOk, OnErr, All, Some, None, Contains};
ghost use Rattle.std.specs.Option.{ForSome};
ghost use Rattle.mq_drive.specs.Fuse.{above, below, earlier, fresh};
ghost use Rattle.mq_blocks.specs.Totals.{total};

use crate::Off;
use crate::tickets::{Apart, Law, Rating, Ticket, Tickets, Together};
use atomic_table::{Seat, Shared, Table};
use mq_blocks::OutOfMemory;
use std::alloc::Global;

type Counter = Shared<(), Tickets, Rating, Law>;

type Place = Seat<(), Tickets>;

/// Switches the power of a drive off after a number of events, if one is given. Ports in different
/// threads share one by `&`. Its one word is a counter from which each event draws a ticket: the
/// event happens where the ticket is below the limit.
#[derive(Drop)]
pub struct Fuse {
    table: Table<(), Tickets, Rating, Law, Global>,
    limit: Option<u64>,
    ghost one_word: { table.shared.table_id.words ≡ 1 },
    ghost no_slot: { table.shared.table_id.slots ≡ 0 },
    ghost some: { 0 < table.shared.key.seats },
    ghost rated: { ForSome limit (λ l. table.shared.key.limit ≡ l) },
}

/// A seat of a fuse: what one port needs to draw tickets. Its tickets are for the proofs alone; what
/// it keeps is whether one was at or above the limit.
#[derive(Drop)]
pub struct FuseSeat {
    place: Place,
    limit: Option<u64>,
    off: bool,
    ghost bare: { place.me.1 ≡ [] },
    ghost one: { place.me.0.seats ≡ 1 },
    ghost rated: { ForSome limit (λ l. l ≤ 2 ^ 63) },
    ghost apart: { (m : ℕ) → below m place.me.0.drawn ≤ m },
    ghost last: { ForSome limit (λ l. above l (earlier place.me.0.drawn) ≡ 0) },
    ghost spent: { off ≡ true → ForSome limit (λ l. 0 < above l place.me.0.drawn) },
    ghost fresh: { off ≡ false → ForSome limit (λ l. above l place.me.0.drawn ≡ 0) },
    ghost limited: { off ≡ true → limit ≡ None → ⊥ },
}

impl Fuse {
    ghost use Rattle.mq_drive.specs.Seats.{name_of, ports_of, fuse_of, tickets_of};

    /// A fuse that lets `limit` events happen, or all of them if there is no limit, and its seats.
    pub fn new(
        alloc: Global,
        limit: Option<u64>,
        ports: u32,
    ) -> Result<(Fuse, Vec<FuseSeat>), OutOfMemory>
        requires ports { 1 ≤ ports }
        requires limit { ForSome limit (λ l. l ≤ 2 ^ 63) }
        ensures limit { IfOk result (λ r. (name_of r.0).limit ≡ limit) }
        ensures ports { IfOk result (λ r. (ports_of r.0 ≡ ports) × (length r.1.items ≡ ports)) }
        ensures seats { IfOk result (λ r. All (λ s. (fuse_of s ≡ name_of r.0)
            × (tickets_of s ≡ [])) r.1.items) }
    {
        let mut seats = Vec::with_capacity(alloc, ports as usize)?;
        let rating = Rating {
            limit: limit.unwrap_or(0),
            seats: u64::from(ports),
        };
        let (table, place) = Table::of_words(alloc, &[0], &rating)?;
        seat_all(&table.shared, place, limit, ports, &mut seats);
        Ok((Fuse { table, limit }, seats))
    }

    /// Closes the fuse, for which it needs all seats. Returns the number of events that happened if
    /// there is a limit, else 0.
    pub fn close(self, seats: Vec<FuseSeat>) -> u64
        requires fuse { All (λ s. fuse_of s ≡ name_of self) seats.items }
        requires all { length seats.items ≡ ports_of self }
        ensures happened { (l : ℕ)
            → (name_of self).limit ≡ Some l
            → result ≡ total (λ s. below l (tickets_of s)) seats.items }
        ensures most { (l : ℕ) → (name_of self).limit ≡ Some l → result ≤ l }
        ensures off { (l : ℕ) (s : _)
            → (name_of self).limit ≡ Some l
            → Contains seats.items s
            → 0 < above l (tickets_of s)
            → result ≡ l }
        ensures unlimited { (name_of self).limit ≡ None → result ≡ 0 }
    {
        let mut seats = seats;
        let Some(seat) = seats.pop() else {
            unreachable!()
        };
        let FuseSeat { mut place, .. } = seat;
        join_all(&self.table.shared, &mut place, seats);
        let Fuse { table, limit } = self;
        let closed = table.close_with(place);
        let drawn = closed.word(0);
        closed.free();
        match limit {
            Some(limit) => drawn.min(limit),
            None => 0,
        }
    }
}

// Puts the given number of seats into a list with room for them.
fn seat_all(
    shared: &Counter,
    place: Place,
    limit: Option<u64>,
    ports: u32,
    seats: &mut Vec<FuseSeat>,
)
    requires table { (place.table_id ≡ shared.now.table_id) × (0 < shared.now.table_id.words) }
    requires room { (seats.old.items ≡ []) × (ports ≤ vec_capacity seats.old) }
    requires fresh { (place.me ≡ (fresh ports, [])) × (0 < ports) }
    requires limit { ForSome limit (λ l. l ≤ 2 ^ 63) }
    ensures count { length seats.new.items ≡ ports }
    ensures seats { All (λ s. (s.place.table_id ≡ shared.now.table_id)
        × (s.limit ≡ limit)
        × (s.place.me.0.drawn ≡ [])) seats.new.items }
{
    let mut place = place;
    for _ in 1..ports {
        seats.push_reserved(FuseSeat {
            place: shared.split_seat::<Apart>(&mut place),
            limit,
            off: false,
        });
    }
    seats.push_reserved(FuseSeat {
        place,
        limit,
        off: false,
    });
}

// Joins all seats into one.
fn join_all(shared: &Counter, place: &mut Place, seats: Vec<FuseSeat>)
    requires table { (place.old.table_id ≡ shared.now.table_id)
        × (0 < shared.now.table_id.words)
        × (place.old.me.1 ≡ []) }
    requires theirs { All (λ s. s.place.table_id ≡ shared.now.table_id) seats.items }
    ensures table { (place.new.table_id ≡ place.old.table_id)
        × (place.new.id ≡ place.old.id)
        × (place.new.me.1 ≡ []) }
    ensures seats { place.new.me.0.seats ≡ place.old.me.0.seats + length seats.items }
    ensures below { (l : ℕ)
        → below l place.new.me.0.drawn ≡ below l place.old.me.0.drawn + total
        (λ s. below l s.place.me.0.drawn) seats.items }
    ensures above { (l : ℕ)
        → above l place.new.me.0.drawn ≡ above l place.old.me.0.drawn + total
        (λ s. above l s.place.me.0.drawn) seats.items }
{
    let mut seats = seats;
    while let Some(FuseSeat { place: other, .. }) = seats.pop() {
        shared.join_seat::<Together>(place, other);
    }
    seats.destroy_empty();
}

impl FuseSeat {
    ghost use Rattle.mq_drive.specs.Seats.{name_of, fuse_of, tickets_of, Happens, IsRefused};

    /// One event of this seat. Where there is a limit, it draws a ticket, unless one of the seat was
    /// at or above the limit.
    pub fn event(&mut self, fuse: &Fuse) -> Result<(), Off>
        requires { fuse_of self.old ≡ name_of fuse.now }
        ensures fuse { fuse_of self.new ≡ fuse_of self.old }
        ensures happens { OnOk result (Happens (fuse_of self.old).limit (tickets_of self.old)
            (tickets_of self.new)) }
        ensures refused { OnErr result (IsRefused (fuse_of self.old).limit (tickets_of self.old)
            (tickets_of self.new)) }
    {
        let Some(limit) = self.limit else {
            return Ok(());
        };
        if self.off {
            return Err(Off);
        }
        let ticket = draw(&fuse.table.shared, &mut self.place);
        if limit <= ticket {
            self.off = true;
            return Err(Off);
        }
        Ok(())
    }
}

// Draws a ticket, where none of the seat's was at or above the limit.
fn draw(shared: &Counter, place: &mut Place) -> u64
    requires table { (place.old.table_id ≡ shared.now.table_id) × (0 < shared.now.table_id.words) }
    requires one { place.old.me.0.seats ≡ 1 }
    requires few { above shared.now.key.limit place.old.me.0.drawn ≡ 0 }
    ensures seat { (place.new.table_id ≡ place.old.table_id) × (place.new.id ≡ place.old.id) }
    ensures drew { place.new.me ≡ (record { seats = 1; drawn = result ∷ place.old.me.0.drawn }, place.old.me.1) }
    ensures apart { (m : ℕ) → below m (result ∷ place.old.me.0.drawn) ≤ m }
{
    shared.fetch_add::<Ticket>(place, 0, 1)
}
