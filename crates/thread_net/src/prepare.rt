//! Makes a world into runners whose rings are its links. All memory that a run takes is taken here,
//! except for two tables of what comes back, and what the start of a thread takes.
ghost use Rattle.std.specs.Prelude.{◌≡◌, ◌≤◌, ℕ, [], IfOk, IfErr, OnOk, All, length, vec_len};
ghost use Rattle.std.specs.Prelude.{vec_capacity};
ghost use Rattle.judge.specs.run_model.World.{World};
ghost use Rattle.judge.specs.Parts.{AreOneWorlds};
ghost use Rattle.judge.specs.configuration.ConfigurationView.{world_of};
ghost use Rattle.thread_net.specs.Cables.{AreWithin, AreFurnished, IsOver, row, rows_of};
ghost use Rattle.thread_net.specs.Cables.{seats_of};
ghost use Rattle.thread_net.specs.Seats.{nodes_of, IsNew, HasRoom, AreShort, total_room};
ghost use Rattle.thread_net.specs.Tables.{AreEmptySeats};
ghost use Rattle.thread_net.specs.Prepared.{IsPrepared};

use crate::cables::cable_all;
use crate::seats::{RunnerSeats, new_seats, reserve_journals, seat_all, unseat_all};
use judge::{Event, Links, Parts, Stretch};
use node_runner::Runner;
use std::alloc::{AllocError, Allocator};

/// Everything that a run needs, made before its first turn.
#[derive(Drop)]
pub struct Prepared<A: Allocator + Copy> {
    pub(crate) runners: Vec<Runner<A>, A>,
    /// The links of the world, which are as they were: what was under way is in the rings too.
    pub(crate) links: Links<A>,
    pub(crate) room: Stretch<A>,
    /// Where the runners' parts go when they are done.
    pub(crate) seats: RunnerSeats<A>,
    /// Where their events go.
    pub(crate) events: Vec<Event, A>,
}

/// Makes the journals, the rings and the list of events for runners that are new.
#[tactic(auto, using(crate::proofs::Starting::nodes_from))]
fn furnish<A: Allocator + Copy>(
    alloc: A,
    turns: u32,
    links: &Links<A>,
    runners: &mut Vec<Runner<A>, A>,
) -> Result<Vec<Event, A>, AllocError>
    requires all { length runners.old.items ≡ links.now.net.nodes }
    requires few { length runners.old.items ≤ 64 }
    requires within { AreWithin links.now }
    requires short { AreShort (nodes_of runners.old.items) }
    requires new { All IsNew (seats_of runners.old.items) }
    requires empty { (x : ℕ) → row (rows_of runners.old.items) x ≡ [] }
    ensures nodes { nodes_of runners.new.items ≡ nodes_of runners.old.items }
    ensures furnished { OnOk result ((w : World) → IsOver w links.now
        → AreFurnished w (rows_of runners.new.items)) }
    ensures new { OnOk result (All IsNew (seats_of runners.new.items)) }
    ensures room { OnOk result (All (HasRoom turns) (seats_of runners.new.items)) }
    ensures events { IfOk result (λ events. (events.items ≡ [])
        × (total_room turns (nodes_of runners.new.items) ≤ vec_capacity events)) }
{
    let total = reserve_journals(alloc, turns, runners)?;
    cable_all(alloc, links, runners)?;
    let events = Vec::with_capacity(alloc, total)?;
    Ok(events)
}

/// Empty tables for this many runners, and for their parts.
fn tables<A: Allocator + Copy>(
    alloc: A,
    count: usize,
) -> Result<(Vec<Runner<A>, A>, RunnerSeats<A>), AllocError>
    ensures runners { IfOk result (λ r. (r.0.items ≡ []) × (count ≤ vec_capacity r.0)) }
    ensures seats { IfOk result (λ r. AreEmptySeats count r.1) }
{
    let runners = Vec::with_capacity(alloc, count)?;
    let seats = new_seats(alloc, count)?;
    Ok((runners, seats))
}

/// Makes everything that a run of a world needs. If memory is refused for any of it, the world's
/// parts come back as they were.
pub fn prepare<A: Allocator + Copy>(
    alloc: A,
    parts: Parts<A>,
    turns: u32,
) -> Result<Prepared<A>, Parts<A>>
    requires parts { AreOneWorlds parts.nodes.items parts.links parts.room }
    requires within { AreWithin parts.links }
    ensures ready { IfOk result (IsPrepared
        (world_of (record { nodes = parts.nodes.items; links = parts.links })) turns) }
    ensures unchanged { IfErr result (λ back. (back.nodes.items ≡ parts.nodes.items)
        × (back.links ≡ parts.links) × (back.room ≡ parts.room)) }
{
    let Parts { nodes, links, room } = parts;
    let count = usize::from(links.net().nodes());
    let Ok((mut runners, mut seats)) = tables(alloc, count) else {
        return Err(Parts { nodes, links, room });
    };
    seat_all(alloc, nodes, &mut runners);
    match furnish(alloc, turns, &links, &mut runners) {
        Ok(events) => Ok(Prepared {
            runners,
            links,
            room,
            seats,
            events,
        }),
        Err(_) => {
            unseat_all(runners, &mut seats);
            let RunnerSeats { nodes, .. } = seats;
            Err(Parts { nodes, links, room })
        }
    }
}
