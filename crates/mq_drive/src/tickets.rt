// What the seats of a fuse know, the rule, and what each kind of step does.
ghost use Rattle.std.specs.Prelude.{◌-◌};
ghost use Rattle.mq_drive.specs.Fuse.{Lawful, drew, fresh, joined};

use atomic_table::{Join, Play, Split, TableRule};
use std::collections::LinkedList;

/// What a seat knows. No value of it is made.
pub struct Tickets {
    /// The number of seats that it stands for.
    pub seats: u64,
    /// The tickets that it drew, the last first.
    pub drawn: LinkedList<u64>,
}

/// What the rule of the table knows when the fuse is made.
#[derive(Drop)]
pub struct Rating {
    pub limit: u64,
    pub seats: u64,
}

/// The tickets of all seats are the numbers below the counter, each once.
pub struct Law;

impl TableRule<(), Tickets, Rating> for Law {
    ghost holds = { λ key. Lawful key.limit key.seats };

    ghost first = { λ key. fresh key.seats };
}

/// A ticket is drawn.
pub struct Ticket;

impl Play<(), Tickets> for Ticket {
    ghost then = { drew };
}

/// A seat is cut from the others, before any ticket is drawn.
pub struct Apart;

impl Split<Tickets> for Apart {
    ghost left = { λ v. record { seats = v.seats - 1; drawn = v.drawn } };

    ghost right = { λ v. fresh 1 };
}

/// Two seats become one.
pub struct Together;

impl Join<Tickets> for Together {
    ghost both = { joined };

    ghost spent = { fresh 0 };
}
