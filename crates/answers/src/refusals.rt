// Whether a call is refused, and why: the lines of the table of refusals (specs/Refusals), in the order of precedence.
// Kept: each check takes the tables that it reads as parameters: no two public ones take the same, and a struct of all
// of them would ask callers for tables that a check does not read.
ghost use Rattle.std.specs.Prelude.{◌≡◌, true, List, ℕ};
ghost use Rattle.lists.specs.Links.{Table};
ghost use Rattle.points.specs.Words.{at_of};
ghost use Rattle.turn.specs.Asks.{asked_in};
ghost use Rattle.turn.specs.Words.{disk_of, pool_of};
ghost use Rattle.answers.specs.Refusals.{judged, in_turn, too_long, fits_in, is_message, tables_sized};
ghost use Rattle.answers.specs.Refusals.{open_refusals_first, admit_refusals_first, turn_refusals, reply_refusals};
ghost use Rattle.answers.specs.Refusals.{sync_refusals, sent_refusals};

use crate::answer::Refusal;
use actor::message::MessageRow;
use actor::question;
use actor::question::Reply;
use actor::state::ActorRow;
use group::settings::GroupRow;
use group::{roster, settings as group_settings};
use lists::LinkRow;
use lists::keys::KeyRow;
use message_log::{BODY, NAME};
use points::words::{Place, Where};
use settings::ranges as limits;
use settings::ranges::Settings;
use turn::state::{DiskKind, DiskWords, PoolCells};
use turn::{asks, state};

// Whether the lent tables have their sizes.
#[tactic(auto, unfolding(crate::specs::Refusals::tables_sized))]
fn tables_sized(groups: usize, links: usize, rows: usize, keys: usize, actors: usize) -> bool
    ensures { result ≡ tables_sized groups links rows keys actors }
{
    groups == lists::GROUPS
        && links == lists::LISTS
        && rows == lists::ENTRIES
        && keys == roster::ROWS
        && actors == lists::SLOTS
}

// Opening, as far as it needs nothing of the file: 1, then 2.
#[tactic(auto, unfolding(crate::specs::Refusals::judged, crate::specs::Refusals::open_refusals_first))]
pub fn open_check(
    settings: Settings,
    given: &[GroupRow],
    groups: &[GroupRow],
    links: &[LinkRow],
    rows: &[MessageRow],
    keys: &[KeyRow],
    actors: &[ActorRow],
) -> Result<(), Refusal>
    ensures { (bytes : List ℕ) (size : ℕ) (store : List ℕ) (records : Table) →
        result ≡ judged (open_refusals_first (record {
          settings = settings;
          groups_given = given.now;
          bytes = bytes;
          size = size;
          store = store;
          records = records;
          groups = groups.now;
          links = links.now;
          rows = rows.now;
          keys = keys.now;
          actors = actors.now;
        })) }
{
    if !limits::settings_fit(settings, given) {
        return Err(Refusal::Setting);
    }
    if !tables_sized(
        groups.len(),
        links.len(),
        rows.len(),
        keys.len(),
        actors.len(),
    ) {
        return Err(Refusal::Sizes);
    }
    Ok(())
}

// Whether a turn is under way.
#[tactic(auto, unfolding(points::specs::Words::at_of))]
pub fn in_turn(at: Where) -> bool
    ensures { result ≡ in_turn (at_of at) }
{
    Place::from(at.place) != Place::Rest
}

// A name over 32 bytes or a body over 128.
fn too_long(name: &[u8], body: &[u8]) -> bool
    ensures { result ≡ too_long name.now body.now }
{
    NAME < name.len() || BODY < body.len()
}

// Sync and close: 14, then 11.
#[tactic(auto, unfolding(crate::specs::Refusals::judged, crate::specs::Refusals::sync_refusals, turn::specs::Words::disk_of))]
pub fn sync_check(pool: &PoolCells) -> Result<(), Refusal>
    ensures { result ≡ judged (sync_refusals (pool_of pool.now)) }
{
    match DiskKind::from(state::disk_in(pool).disk) {
        DiskKind::Free => Ok(()),
        DiskKind::Failed => Err(Refusal::StoreFailed),
        _ => Err(Refusal::OrderWaits),
    }
}

// Turn: 14, 11, then 13.
#[tactic(auto, using(crate::proofs::RefusalLaws::disk_clear), unfolding(crate::specs::Refusals::judged, crate::specs::Refusals::turn_refusals))]
pub fn turn_check(pool: &PoolCells) -> Result<(), Refusal>
    ensures { result ≡ judged (turn_refusals (pool_of pool.now)) }
{
    sync_check(pool)?;
    if in_turn(state::where_in(pool)) {
        return Err(Refusal::InTurn);
    }
    Ok(())
}

// Admit, as far as it needs nothing of the log: 14, 11, 5, 17, 6, 7, then 8.
#[tactic(auto, using(crate::proofs::RefusalLaws::disk_clear), unfolding(crate::specs::Refusals::judged, crate::specs::Refusals::admit_refusals_first))]
pub fn admit_check(
    pool: &PoolCells,
    groups: &[GroupRow],
    links: &[LinkRow],
    name: &[u8],
    body: &[u8],
) -> Result<(), Refusal>
    ensures { (bytes : List ℕ) (records : Table) (store : List ℕ) (rows keys actors : Table) →
        result ≡ judged (admit_refusals_first
        (record {
          pool = pool_of pool.now;
          bytes = bytes;
          records = records;
          store = store;
          groups = groups.now;
          links = links.now;
          rows = rows;
          keys = keys;
          actors = actors;
        })
        name.now body.now) }
{
    sync_check(pool)?;
    if too_long(name, body) {
        return Err(Refusal::TooLong);
    }
    if !group_settings::loaded(groups, state::groups(pool), name) {
        return Err(Refusal::NotLoaded);
    }
    if state::inbox(pool) <= lists::length_of(links, lists::INBOX) {
        return Err(Refusal::InboxFull);
    }
    if state::closed(pool) {
        return Err(Refusal::Closed);
    }
    if lists::length_of(links, lists::FREE) == 0 {
        return Err(Refusal::TooMany);
    }
    Ok(())
}

// Whether a reply answers what is open: it is of the kind that is wanted.
#[tactic(auto, using(crate::proofs::RefusalLaws::fits_wanted))]
fn fits_in(disk: DiskWords, at: Where, links: &[LinkRow], rows: &[MessageRow], reply: Reply) -> bool
    ensures { result ≡ fits_in (asked_in (disk_of disk) (at_of at) links.now rows.now) reply }
{
    asks::wanted_in(disk, at, links, rows) == question::kind_of(reply)
}

// Whether a reply is a message that was sent.
// Kept: it names its own variant, as `is_told` of the crate actor does.
pub fn is_message(reply: Reply) -> bool
    ensures { result ≡ is_message reply }
{
    matches!(reply, Reply::Message)
}

// A message that was sent: 5, then 8.
#[tactic(auto, unfolding(crate::specs::Refusals::judged))]
fn sent_check(links: &[LinkRow], name: &[u8], body: &[u8]) -> Result<(), Refusal>
    ensures { result ≡ judged (sent_refusals true links.now name.now body.now) }
{
    if too_long(name, body) {
        return Err(Refusal::TooLong);
    }
    if lists::length_of(links, lists::FREE) == 0 {
        return Err(Refusal::TooMany);
    }
    Ok(())
}

// Reply: 14, 12, then, of a message that was sent, 5 and 8.
#[tactic(auto, unfolding(crate::specs::Refusals::judged, crate::specs::Refusals::reply_refusals, turn::specs::Words::disk_of))]
pub fn reply_check(
    pool: &PoolCells,
    links: &[LinkRow],
    rows: &[MessageRow],
    reply: Reply,
    name: &[u8],
    body: &[u8],
) -> Result<(), Refusal>
    ensures { (bytes : List ℕ) (records : Table) (store : List ℕ) (groups keys actors : Table) →
        result ≡ judged (reply_refusals
        (record {
          pool = pool_of pool.now;
          bytes = bytes;
          records = records;
          store = store;
          groups = groups;
          links = links.now;
          rows = rows.now;
          keys = keys;
          actors = actors;
        })
        reply name.now body.now) }
{
    let disk = state::disk_in(pool);
    if DiskKind::from(disk.disk) == DiskKind::Failed {
        return Err(Refusal::StoreFailed);
    }
    if !fits_in(disk, state::where_in(pool), links, rows, reply) {
        return Err(Refusal::NoFit);
    }
    if is_message(reply) {
        sent_check(links, name, body)
    } else {
        Ok(())
    }
}
