// The header, the groups and the calls of a script, read where they stand.
ghost use Rattle.std.specs.Prelude.{◌≡◌, ◌+◌, ◌≤◌, ◌<◌};
ghost use Rattle.wire.specs.Number.{numbers_at};
ghost use Rattle.wire.specs.Script.{file_at, fields_of, header_of, HasFile, groups_into, caller_in, replied_by};
ghost use Rattle.wire.specs.Script.{status_in, reply_in, kind_in, call_at, InScript};

use crate::number::number_at;
use actor::message::CallerId;
use actor::question::{Reply, Status};
use group::settings::GroupRow;
use settings::ranges::Settings;

#[derive(Drop)]
pub struct Header {
    // what an entry shows: 0 the answer and the counters, 1 the log too, 2 the tables too, 3 the store too
    // Kept: this is a level, and each part of an entry compares it with its own by `<`; an enum of four levels would be
    // made from the number, and be compared as the number is.
    pub show: u64,
    // the lengths of the lent log and store, and of the file
    pub long: usize,
    pub stored: usize,
    pub n: usize,
    // where the file begins
    pub file: usize,
    pub settings: Settings,
    pub groups: usize,
}

// Which call.
#[derive(Drop)]
pub enum Kind {
    Admit(Option<CallerId>),
    Turn,
    Reply(Reply),
    Sync,
    Close,
}

// A call: its name begins at `name`, its body at `body`, and ends at `end`.
#[derive(Drop)]
pub struct CallAt {
    pub kind: Kind,
    pub name: usize,
    pub body: usize,
    pub end: usize,
}

// Where the file begins.
#[tactic(auto, unfolding(crate::specs::Script::file_at))]
fn file_at(groups: usize) -> usize
    requires { groups ≤ 16 }
    ensures { result ≡ file_at groups }
{
    88 + 296 * groups
}

fn fields_of(s: &[u8], groups: usize) -> Header
    requires { groups ≤ 16 }
    ensures { result ≡ fields_of s.now groups }
{
    let settings = Settings {
        max_actors: number_at(s, 40),
        inbox: number_at(s, 48),
        backlog: number_at(s, 56),
        compact_at: number_at(s, 64),
        tick: number_at(s, 72),
    };
    Header {
        show: number_at(s, 8),
        long: number_at(s, 16) as usize,
        stored: number_at(s, 24) as usize,
        n: number_at(s, 32) as usize,
        file: file_at(groups),
        settings,
        groups,
    }
}

#[tactic(auto, unfolding(crate::specs::Script::header_of))]
pub fn read_header(s: &[u8]) -> Option<Header>
    ensures says { result ≡ header_of s.now }
    ensures inside { HasFile s.now result }
{
    if s.len() < 88 || number_at(s, 0) != 1 || 3 < number_at(s, 8) {
        return None;
    }
    let groups = number_at(s, 80) as usize;
    if 16 < groups {
        return None;
    }
    let from = file_at(groups);
    if s.len() < from || s.len() - from < number_at(s, 32) as usize {
        return None;
    }
    Some(fields_of(s, groups))
}

// The row of a group.
fn group_at(s: &[u8], from: usize) -> GroupRow
    requires { from + 296 < 18446744073709551616 }
    ensures { result ≡ numbers_at 37 s.now from }
{
    let mut row = [0u64; 37];
    for i in 0..37 {
        row[i] = number_at(s, from + 8 * i);
    }
    row
}

// The rows of the groups; past the end of the table nothing.
pub fn read_groups(s: &[u8], groups: usize, given: &mut [GroupRow])
    ensures { given.new ≡ groups_into groups s.now 88 given.old }
{
    for g in 0..groups.min(given.len()) {
        given[g] = group_at(s, 88 + 296 * g);
    }
}

// Kept, here and below: a switch on a number of the script (docs/PROTOCOL.md).
#[tactic(auto, unfolding(crate::specs::Script::caller_in))]
fn caller_in(kind: u64, value: u64) -> Option<Kind>
    ensures { result ≡ caller_in kind value }
{
    match kind {
        0 => Some(Kind::Admit(None)),
        1 => Some(Kind::Admit(Some(CallerId(value)))),
        _ => None,
    }
}

fn replied(r: Reply) -> Option<Kind>
    ensures { result ≡ replied_by r }
{
    Some(Kind::Reply(r))
}

#[tactic(auto, unfolding(crate::specs::Script::status_in))]
fn status_in(value: u64) -> Option<Kind>
    ensures { result ≡ status_in value }
{
    match value {
        0 => replied(Reply::Ran(Status::Done)),
        1 => replied(Reply::Ran(Status::Exit)),
        2 => replied(Reply::Ran(Status::Preempted)),
        3 => replied(Reply::Ran(Status::Event)),
        4 => replied(Reply::Ran(Status::HostCall)),
        5 => replied(Reply::Ran(Status::Error)),
        6 => replied(Reply::Ran(Status::Broke)),
        _ => None,
    }
}

#[tactic(auto, unfolding(crate::specs::Script::reply_in))]
fn reply_in(kind: u64, value: u64) -> Option<Kind>
    ensures { result ≡ reply_in kind value }
{
    match kind {
        0 => replied(Reply::No),
        1 => replied(Reply::Yes),
        2 => replied(Reply::Clock(value)),
        3 => replied(Reply::Count(value)),
        4 => status_in(value),
        5 => replied(Reply::Message),
        6 => replied(Reply::End),
        7 => replied(Reply::Told),
        8 => replied(Reply::Stored),
        9 => replied(Reply::Failed),
        _ => None,
    }
}

#[tactic(auto, unfolding(crate::specs::Script::kind_in))]
fn kind_in(tag: u64, kind: u64, value: u64) -> Option<Kind>
    ensures { result ≡ kind_in tag kind value }
{
    match tag {
        1 => caller_in(kind, value),
        2 => Some(Kind::Turn),
        3 => reply_in(kind, value),
        4 => Some(Kind::Sync),
        5 => Some(Kind::Close),
        _ => None,
    }
}

// The call that begins at p.
#[tactic(auto, unfolding(crate::specs::Script::call_at))]
pub fn read_call(s: &[u8], p: usize) -> Option<CallAt>
    ensures says { result ≡ call_at s.now p }
    ensures inside { InScript s.now p result }
{
    if s.len() < p || s.len() - p < 40 {
        return None;
    }
    let name = p + 40;
    let a = number_at(s, p + 24) as usize;
    if s.len() - name < a {
        return None;
    }
    let body = name + a;
    let b = number_at(s, p + 32) as usize;
    if s.len() - body < b {
        return None;
    }
    let kind = kind_in(number_at(s, p), number_at(s, p + 8), number_at(s, p + 16))?;
    Some(CallAt {
        kind,
        name,
        body,
        end: body + b,
    })
}
