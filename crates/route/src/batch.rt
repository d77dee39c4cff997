// `route_pending` of the Rust: the batch's messages go to actors of their groups. An actor is picked: an idle one,
// else a spawn under the ceiling, else the least loaded. A message that nobody can get is over.
// Kept: the tables that are only read, and the count of groups, stay parameters beside `Tables`, which holds what
// routing changes. `route` and `route_reply` are called with tables that are lent each by itself, and with any count.
ghost use Rattle.std.specs.Prelude.{◌≡◌};
ghost use Rattle.points.specs.Words.{at_of};
ghost use Rattle.route.specs.Batch.{
  wake_at,
  undeliverable,
  deliver_to,
  deliver,
  deliver_key,
  route_spawned,
  route_least,
  route_new,
  pick_of,
  route_one,
  route_of,
  route_reply,
  routed_of,
  held_tables,
  routed_in,
  RouteKept,
  programs,
};
ghost use Rattle.group.specs.Roster.{turn_tables};

use actor::message::MessageRow;
use actor::question::Reply;
use actor::state::ActorRow;
use actor::{message, question, state};
use group::settings::GroupRow;
use group::{roster, settings};
use lists::LinkRow;
use lists::keys::KeyRow;
use points::words;
use points::words::Where;
use steps::step;

// The next point, and the new queued.
#[derive(Drop)]
pub struct Routed {
    pub at: Where,
    pub queued: u64,
}

// What routing changes: lists of messages, keys, actors, and how many messages are in mailboxes.
#[derive(Drop)]
struct Tables<'a> {
    links: &'a mut [LinkRow],
    keys: &'a mut [KeyRow],
    actors: &'a mut [ActorRow],
    queued: u64,
}

// The batch's first message is over.
#[tactic(auto, unfolding(crate::specs::Batch::undeliverable))]
fn undeliverable_first(links: &mut [LinkRow], rows: &[MessageRow], left: u64) -> Where
    ensures { record { links = links.new; at = at_of result }
        ≡ undeliverable links.old rows.now left }
{
    step::over_first(links, rows, lists::BATCH);
    words::route(left.saturating_sub(1))
}

// A message came to an actor's mailbox: it is idle no more, and queued to run.
#[tactic(auto, unfolding(crate::specs::Batch::wake_at))]
fn wake_at(keys: &mut [KeyRow], actors: &mut [ActorRow], g: usize, key: u8)
    ensures { record { keys = keys.new; actors = actors.new }
        ≡ wake_at keys.old actors.old g key }
{
    state::delivered_at(actors, roster::slot_at(g, key));
    roster::schedule(keys, actors, g, key);
}

// The batch's first message goes to the end of a mailbox; queued changes as the mailbox does.
#[tactic(auto, unfolding(crate::specs::Batch::deliver_to))]
fn deliver_to(links: &mut [LinkRow], slot: usize, queued: u64) -> u64
    ensures { record { links = links.new; queued = result } ≡ deliver_to links.old slot queued }
{
    let mailbox = lists::mailbox(slot);
    let before = lists::length_of(links, mailbox);
    lists::move_first(links, lists::BATCH, mailbox);
    let more = queued.saturating_add(lists::length_of(links, mailbox));
    more.saturating_sub(before)
}

// The batch's first message is delivered to an actor.
#[tactic(auto, unfolding(crate::specs::Batch::deliver))]
fn deliver_first(t: &mut Tables, g: usize, key: u8, left: u64) -> Where
    ensures kept { RouteKept t.old t.new }
    ensures routed { routed_in t.new result ≡ deliver (held_tables t.old) g key left }
{
    t.queued = deliver_to(t.links, roster::slot_at(g, key), t.queued);
    wake_at(t.keys, t.actors, g, key);
    words::route(left.saturating_sub(1))
}

// The batch's first message is delivered to an actor, or, where there is none, over.
#[tactic(auto, unfolding(crate::specs::Batch::deliver_key))]
fn deliver_key(t: &mut Tables, rows: &[MessageRow], g: usize, key: Option<u8>, left: u64) -> Where
    ensures kept { RouteKept t.old t.new }
    ensures routed { routed_in t.new result ≡ deliver_key rows.now (held_tables t.old) g key left }
{
    match key {
        Some(k) => deliver_first(t, g, k, left),
        None => undeliverable_first(t.links, rows, left),
    }
}

// The batch's first message to the least loaded actor.
#[tactic(auto, unfolding(crate::specs::Batch::route_least))]
fn route_least(t: &mut Tables, rows: &[MessageRow], g: usize, left: u64) -> Where
    ensures kept { RouteKept t.old t.new }
    ensures routed { routed_in t.new result ≡ route_least rows.now (held_tables t.old) g left }
{
    let keys = &mut *t.keys;
    let links = &mut *t.links;
    let key = roster::least_loaded(keys, links, g);
    deliver_key(t, rows, g, key, left)
}

// A spawn, and the batch's first message to it; where no actor could be spawned, to the least loaded.
#[tactic(auto, unfolding(crate::specs::Batch::route_spawned))]
fn route_spawned(t: &mut Tables, rows: &[MessageRow], g: usize, eval: bool, left: u64) -> Where
    ensures kept { RouteKept t.old t.new }
    ensures routed { routed_in t.new result ≡ route_spawned rows.now (held_tables t.old) g eval left }
{
    match roster::spawn(t.keys, t.actors, g, eval) {
        Some(k) => deliver_first(t, g, k, left),
        None => route_least(t, rows, g, left),
    }
}

// No actor is idle: a spawn under the ceiling, else the least loaded.
#[tactic(auto, unfolding(crate::specs::Batch::route_new))]
fn route_new(t: &mut Tables, groups: &[GroupRow], rows: &[MessageRow], g: usize, left: u64) -> Where
    ensures kept { RouteKept t.old t.new }
    ensures routed { routed_in t.new result ≡ route_new groups.now rows.now (held_tables t.old) g left }
{
    let group = settings::group_at(groups, g);
    let keys = &mut *t.keys;
    if group.ceiling <= roster::live_len(keys, g) as u64 {
        return route_least(t, rows, g, left);
    }
    if group.eval {
        return route_spawned(t, rows, g, true, left);
    }
    words::route_boot(g, left)
}

// The batch's first message, for this group.
#[tactic(auto, unfolding(crate::specs::Batch::pick_of))]
fn pick(t: &mut Tables, groups: &[GroupRow], rows: &[MessageRow], g: usize, left: u64) -> Where
    ensures kept { RouteKept t.old t.new }
    ensures routed { routed_in t.new result ≡ pick_of groups.now rows.now (held_tables t.old) g left }
{
    let keys = &mut *t.keys;
    let actors = &mut *t.actors;
    match roster::pop_idle(keys, actors, g) {
        Some(k) => deliver_first(t, g, k, left),
        None => route_new(t, groups, rows, g, left),
    }
}

// The batch's first message, of this entry; with no such group it is over.
#[tactic(auto, unfolding(crate::specs::Batch::route_one))]
fn route_one(
    t: &mut Tables,
    groups: &[GroupRow],
    count: usize,
    store: &[u8],
    rows: &[MessageRow],
    entry: usize,
    left: u64,
) -> Where
    ensures kept { RouteKept t.old t.new }
    ensures routed { routed_in t.new result
        ≡ route_one (programs groups.now count store.now) rows.now (held_tables t.old) entry left }
{
    let long = message::name_len_at(rows, entry);
    match settings::by_name(groups, count, store, entry, long) {
        Some(g) => pick(t, groups, rows, g, left),
        None => undeliverable_first(t.links, rows, left),
    }
}

// The batch's first message, or the tick where none is left.
#[tactic(auto, unfolding(crate::specs::Batch::route_of))]
fn route_first(
    t: &mut Tables,
    groups: &[GroupRow],
    count: usize,
    store: &[u8],
    rows: &[MessageRow],
    left: u64,
) -> Where
    ensures kept { RouteKept t.old t.new }
    ensures routed { routed_in t.new result
        ≡ route_of (programs groups.now count store.now) rows.now (held_tables t.old) left }
{
    let links = &mut *t.links;
    match lists::first(links, lists::BATCH) {
        Some(e) if left != 0 => route_one(t, groups, count, store, rows, e, left),
        _ => words::tick_clock(),
    }
}

// The same of tables that are lent each by itself.
pub fn route(
    groups: &[GroupRow],
    count: usize,
    store: &[u8],
    links: &mut [LinkRow],
    rows: &[MessageRow],
    keys: &mut [KeyRow],
    actors: &mut [ActorRow],
    queued: u64,
    left: u64,
) -> Routed
    ensures { record {
      links = links.new;
      keys = keys.new;
      actors = actors.new;
      routed = routed_of result;
    }
        ≡ route_of (programs groups.now count store.now) rows.now
        (turn_tables links.old keys.old actors.old queued) left }
{
    let mut t = Tables {
        links,
        keys,
        actors,
        queued,
    };
    let at = route_first(&mut t, groups, count, store, rows, left);
    Routed {
        at,
        queued: t.queued,
    }
}

// The reply to Boot: yes spawns the actor that gets the message; no leaves the least loaded; one that does not fit
// changes nothing.
#[tactic(auto, unfolding(crate::specs::Batch::route_reply, crate::specs::Batch::route_booted))]
pub fn route_reply(
    links: &mut [LinkRow],
    rows: &[MessageRow],
    keys: &mut [KeyRow],
    actors: &mut [ActorRow],
    g: usize,
    queued: u64,
    left: u64,
    reply: Reply,
) -> Routed
    ensures { record {
      links = links.new;
      keys = keys.new;
      actors = actors.new;
      routed = routed_of result;
    }
        ≡ route_reply rows.now
        (turn_tables links.old keys.old actors.old queued) g left reply }
{
    let mut t = Tables {
        links,
        keys,
        actors,
        queued,
    };
    let at = match question::yes_in(reply) {
        Some(true) => route_spawned(&mut t, rows, g, false, left),
        Some(false) => route_least(&mut t, rows, g, left),
        None => words::route_boot(g, left),
    };
    Routed {
        at,
        queued: t.queued,
    }
}
