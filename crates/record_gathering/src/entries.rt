//! What an entry of a node's record becomes in a world.
ghost use Rattle.std.specs.Prelude.{◌≡◌, ◌<◌, ◌++◌, ◌∷◌, [], ◌&&◌, OnOk, IsTrue, map, slice_get};
ghost use Rattle.topology.specs.Network.{are_joined};
ghost use Rattle.configuration.specs.ConfigurationView.{world_of};
ghost use Rattle.configuration.specs.run_model.Step.{has_room};
ghost use Rattle.configuration.specs.run_model.declared.event.Event.TheVariants.{Ask, Leave};
ghost use Rattle.flight_records.specs.declared.entry.Deed.TheVariants.{Takes, Sends};
ghost use Rattle.record_gathering.specs.Differences.{harms_in, desk_events, port_harms};
ghost use Rattle.record_gathering.specs.Entries.{losses, is_of_link, forged_events, item_events, taken_events};
ghost use Rattle.record_gathering.specs.Entries.{room_events, sent_events, deed_events};
ghost use Rattle.record_gathering.specs.Entries.{part_events, noted_events, entry_events};
ghost use Rattle.record_gathering.specs.Entries.{is_deed_ready, is_ready};
ghost use Rattle.record_gathering.specs.Parts.{state_noted, part_noted};

use crate::differences::{frame_harms, loan_harm, own_harm, port_harms};
use crate::frames::{Passage, place_of};
use crate::parts::{LoanNoted, PartNoted, PortNoted, part_noted};
use configuration::{Configuration, Event, Harm, Item};
use flight_records::{Deed, Noted, StatePart};
use std::alloc::{AllocError, Allocator};

/// Whether two nodes are neighbours.
pub fn is_link<A: Allocator + Copy>(world: &Configuration<A>, from: u16, to: u16) -> bool
    ensures joined { result ≡ are_joined (world_of world.now).net.edges from to }
    ensures from_in { IsTrue result → from < (world_of world.now).net.nodes }
    ensures to_in { IsTrue result → to < (world_of world.now).net.nodes }
{
    topology::laws::joined();
    let net = world.net();
    let _known_network = net.nodes();
    net.are_joined(from, to)
}

/// Whether a frame is one that may be on its link.
pub fn is_of_link<A: Allocator + Copy>(world: &Configuration<A>, passage: &Passage) -> bool
    ensures of_link { result ≡ is_of_link (world_of world.now) passage.now.from passage.now.to
        passage.now.frame }
    ensures from_in { IsTrue result → passage.now.from < (world_of world.now).net.nodes }
    ensures to_in { IsTrue result → passage.now.to < (world_of world.now).net.nodes }
{
    is_link(world, passage.from, passage.to) && world.net().fits(&passage.frame)
}

/// Whether a link has room for one more item.
fn has_room<A: Allocator + Copy>(world: &Configuration<A>, from: u16, to: u16) -> bool
    requires from_in { from < (world_of world.now).net.nodes }
    requires to_in { to < (world_of world.now).net.nodes }
    ensures { result ≡ has_room (world_of world.now) from to }
{
    world.under_way(from, to) < usize::from(world.net().capacity())
}

/// Adds an event.
fn add<B: Allocator>(events: &mut Vec<Event, B>, event: Event) -> Result<(), AllocError>
    ensures { OnOk result (events.new.items ≡ events.old.items ++ event ∷ []) }
{
    events.push(event)?;
    Ok(())
}

/// Adds the harms among these, as events.
fn add_harms<B: Allocator>(
    events: &mut Vec<Event, B>,
    harms: &[Option<Harm>],
) -> Result<(), AllocError>
    ensures { OnOk result (events.new.items ≡ events.old.items ++ harms_in harms.now) }
{
    for harm in harms {
        add_harm(events, harm)?;
    }
    Ok(())
}

/// Adds a harm, if there is one, as an event.
fn add_harm<B: Allocator>(events: &mut Vec<Event, B>, harm: &Option<Harm>) -> Result<(), AllocError>
    ensures { OnOk result (events.new.items ≡ events.old.items ++ harms_in (harm.now ∷ [])) }
{
    if let Some(harm) = harm {
        add(events, Event::Damage(*harm))?;
    }
    Ok(())
}

/// Adds the losses of the `count` oldest items of a link.
fn add_losses<B: Allocator>(
    events: &mut Vec<Event, B>,
    from: u16,
    to: u16,
    count: usize,
) -> Result<(), AllocError>
    ensures { OnOk result (events.new.items ≡ events.old.items ++ losses from to count) }
{
    for lost in 0..count {
        add(events, Event::Lose { from, to, item: 0 })?;
    }
    Ok(())
}

/// Adds what becomes of a frame that was taken. All that was in front of it is lost. A frame that
/// nobody sent stands alone on the link until it is taken; then what was under way is put there
/// again.
fn add_taken<A: Allocator + Copy, B: Allocator>(
    world: &Configuration<A>,
    passage: &Passage,
    events: &mut Vec<Event, B>,
) -> Result<(), AllocError>
    ensures { OnOk result (events.new.items ≡ events.old.items
        ++ deed_events (world_of world.now) passage.now.to
        (Takes passage.now.from passage.now.frame)) }
{
    if !is_of_link(world, passage) {
        return Ok(());
    }
    let Passage { from, to, frame } = *passage;
    let place = place_of(world, passage);
    add_losses(events, from, to, place.in_front)?;
    if place.is_there {
        return add(events, Event::Take { from, to });
    }
    let item = Item::Frame(frame);
    add(events, Event::Damage(Harm::Item { from, to, item }))?;
    add(events, Event::Take { from, to })?;
    add_items(world, from, to, events)
}

/// Adds the harms that put on a link what is under way on it.
fn add_items<A: Allocator + Copy, B: Allocator>(
    world: &Configuration<A>,
    from: u16,
    to: u16,
    events: &mut Vec<Event, B>,
) -> Result<(), AllocError>
    requires from_in { from < (world_of world.now).net.nodes }
    requires to_in { to < (world_of world.now).net.nodes }
    ensures { OnOk result (events.new.items
        ≡ events.old.items ++ item_events from to ((world_of world.now).link from to)) }
{
    for index in 0..world.under_way(from, to) {
        let item = world.item(from, to, index);
        add(events, Event::Damage(Harm::Item { from, to, item }))?;
    }
    Ok(())
}

/// Adds what becomes of a frame that a link accepted: its sender's port sends it. A link that is
/// full loses its oldest item.
fn add_sent<A: Allocator + Copy, B: Allocator>(
    world: &Configuration<A>,
    passage: &Passage,
    events: &mut Vec<Event, B>,
) -> Result<(), AllocError>
    ensures { OnOk result (events.new.items ≡ events.old.items
        ++ deed_events (world_of world.now) passage.now.from
        (Sends passage.now.to passage.now.frame)) }
{
    if !is_of_link(world, passage) {
        return Ok(());
    }
    let Passage { from, to, frame } = *passage;
    add_harms(events, &frame_harms(from, world.node(from), to, &frame))?;
    if !has_room(world, from, to) {
        add_losses(events, from, to, 1)?;
    }
    add(events, Event::Send { from, to })
}

/// Adds what becomes of a deed of a node.
fn add_deed<A: Allocator + Copy, B: Allocator>(
    world: &Configuration<A>,
    node: u16,
    deed: &Deed,
    events: &mut Vec<Event, B>,
) -> Result<(), AllocError>
    ensures { OnOk result (events.new.items
        ≡ events.old.items ++ deed_events (world_of world.now) node deed.now) }
{
    match *deed {
        Deed::Ticks => add(events, Event::Tick { node }),
        Deed::Takes { from, frame } => add_taken(world, &Passage::new(from, node, frame), events),
        Deed::Sends { to, frame } => add_sent(world, &Passage::new(node, to, frame), events),
        Deed::Asks { ticket } => add(events, Event::Ask { node, ticket }),
        Deed::Leaves { ticket } => add(events, Event::Leave { node, ticket }),
        Deed::Joins { neighbour } => add(events, Event::Damage(Harm::Join { node, neighbour })),
        Deed::Parts { neighbour } => add(events, Event::Damage(Harm::Part { node, neighbour })),
        Deed::TakesAgain { .. }
        | Deed::SendsAgain { .. }
        | Deed::Connects { .. }
        | Deed::Disconnects { .. } => Ok(()),
    }
}

/// Adds the events by which these tickets leave.
fn add_leaves<B: Allocator>(
    node: u16,
    tickets: &[u16],
    events: &mut Vec<Event, B>,
) -> Result<(), AllocError>
    ensures { OnOk result (events.new.items ≡ events.old.items ++ map (Leave node) tickets.now) }
{
    for ticket in tickets {
        add(
            events,
            Event::Leave {
                node,
                ticket: *ticket,
            },
        )?;
    }
    Ok(())
}

/// Adds the events by which these tickets ask.
fn add_asks<B: Allocator>(
    node: u16,
    tickets: &[u16],
    events: &mut Vec<Event, B>,
) -> Result<(), AllocError>
    ensures { OnOk result (events.new.items ≡ events.old.items ++ map (Ask node) tickets.now) }
{
    for ticket in tickets {
        add(
            events,
            Event::Ask {
                node,
                ticket: *ticket,
            },
        )?;
    }
    Ok(())
}

/// No loan, as a harm leaves the desk.
const NO_LOAN: LoanNoted = LoanNoted {
    lent: None,
    left: 0,
    served: false,
};

/// Adds the events that bring a desk into this state, with these tickets waiting.
fn add_desk<A: Allocator + Copy, B: Allocator>(
    world: &Configuration<A>,
    node: u16,
    queue: &[u16],
    loan: &LoanNoted,
    events: &mut Vec<Event, B>,
) -> Result<(), AllocError>
    requires { node < (world_of world.now).net.nodes }
    ensures { OnOk result (events.new.items
        ≡ events.old.items ++ desk_events node ((world_of world.now).node node).desk queue.now
        loan.now.lent loan.now.left loan.now.served) }
{
    let now = world.node(node);
    if now.tickets() == queue {
        let stands = LoanNoted {
            lent: now.lent(),
            left: now.left(),
            served: now.served(),
        };
        return add_harm(events, &loan_harm(node, &stands, loan));
    }
    let ends = Harm::Desk {
        node,
        lent: None,
        left: 0,
        served: false,
    };
    add(events, Event::Damage(ends))?;
    add_leaves(node, now.tickets(), events)?;
    add_asks(node, queue, events)?;
    add_harm(events, &loan_harm(node, &NO_LOAN, loan))
}

/// Adds the harms that bring a port into this state.
fn add_port<A: Allocator + Copy, B: Allocator>(
    world: &Configuration<A>,
    node: u16,
    port: &PortNoted,
    events: &mut Vec<Event, B>,
) -> Result<(), AllocError>
    requires node_in { node < (world_of world.now).net.nodes }
    requires neighbour_in { port.now.neighbour < (world_of world.now).net.nodes }
    ensures { OnOk result (events.new.items
        ≡ events.old.items ++ harms_in (port_harms node port.now.neighbour
        ((world_of world.now).node node) (state_noted port.now) port.now.value)) }
{
    add_harms(events, &port_harms(node, world.node(node), port))
}

/// Adds what becomes of a noted part of a node's state.
fn add_part<A: Allocator + Copy, B: Allocator>(
    world: &Configuration<A>,
    queue: &[u16],
    node: u16,
    part: &StatePart,
    events: &mut Vec<Event, B>,
) -> Result<(), AllocError>
    requires { node < (world_of world.now).net.nodes }
    ensures { OnOk result (events.new.items
        ≡ events.old.items ++ part_events (world_of world.now) queue.now node part.now) }
{
    match part_noted(world, node, part) {
        PartNoted::Own { distance, parent } => {
            add_harm(events, &own_harm(node, world.node(node), distance, parent))
        }
        PartNoted::Port(port) => add_port(world, node, &port, events),
        PartNoted::Loan(loan) => add_desk(world, node, queue, &loan, events),
        PartNoted::Nothing => Ok(()),
    }
}

/// Adds what an entry of a node's record becomes to the events that are there.
pub fn add_entry<A: Allocator + Copy, B: Allocator>(
    world: &Configuration<A>,
    queue: &[u16],
    node: u16,
    noted: &Noted,
    events: &mut Vec<Event, B>,
) -> Result<(), AllocError>
    ensures { OnOk result (events.new.items
        ≡ events.old.items ++ entry_events (world_of world.now) queue.now node noted.now) }
{
    if node >= world.net().nodes() {
        return Ok(());
    }
    match noted {
        Noted::State(part) => add_part(world, queue, node, part, events),
        Noted::Deed(deed) => add_deed(world, node, deed, events),
    }
}

/// Whether an entry may come next.
pub fn is_ready<A: Allocator + Copy>(world: &Configuration<A>, node: u16, noted: &Noted) -> bool
    ensures { result ≡ is_ready (world_of world.now) node noted.now }
{
    match noted {
        Noted::Deed(deed) => is_deed_ready(world, node, deed),
        Noted::State(_) => true,
    }
}

/// Whether a frame that was taken may come next: whether an equal one is under way. A frame that
/// cannot be on its link may always come next.
pub fn is_taken_ready<A: Allocator + Copy>(world: &Configuration<A>, passage: &Passage) -> bool
    ensures { result ≡ is_deed_ready (world_of world.now) passage.now.to
        (Takes passage.now.from passage.now.frame) }
{
    !is_of_link(world, passage) || place_of(world, passage).is_there
}

/// Whether a frame that was sent may come next: whether there is room for it. A frame that cannot
/// be on its link may always come next.
fn is_sent_ready<A: Allocator + Copy>(world: &Configuration<A>, passage: &Passage) -> bool
    ensures { result ≡ is_deed_ready (world_of world.now) passage.now.from
        (Sends passage.now.to passage.now.frame) }
{
    !is_of_link(world, passage) || has_room(world, passage.from, passage.to)
}

/// Whether a deed may come next.
fn is_deed_ready<A: Allocator + Copy>(world: &Configuration<A>, node: u16, deed: &Deed) -> bool
    ensures { result ≡ is_deed_ready (world_of world.now) node deed.now }
{
    match *deed {
        Deed::Takes { from, frame } => is_taken_ready(world, &Passage::new(from, node, frame)),
        Deed::Sends { to, frame } => is_sent_ready(world, &Passage::new(node, to, frame)),
        _ => true,
    }
}
