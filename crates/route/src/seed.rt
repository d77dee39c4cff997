// The first turn spawns one actor for each group whose ceiling is above 0. Spawn of a fixed actor asks Boot; eval
// does not.
// Kept: the tables and the count stay parameters: one function takes all of them, and says what it does on any count.
ghost use Rattle.std.specs.Prelude.{◌≡◌};
ghost use Rattle.points.specs.Words.{at_of};
ghost use Rattle.route.specs.Seed.{seed_of, seed_reply};

use actor::question;
use actor::question::Reply;
use actor::state::ActorRow;
use group::settings::GroupRow;
use group::{roster, settings};
use lists::keys::KeyRow;
use points::words::Where;
use points::{at, words};

// The spawn of a group, or the intake where there is no group left.
#[tactic(auto, unfolding(crate::specs::Seed::seed_of))]
pub fn seed(
    groups: &[GroupRow],
    count: usize,
    keys: &mut [KeyRow],
    actors: &mut [ActorRow],
    g: usize,
) -> Where
    ensures { record { keys = keys.new; actors = actors.new; at = at_of result }
        ≡ seed_of groups.now count keys.old actors.old g }
{
    if count <= g || lists::GROUPS <= g {
        return words::intake(lists::MESSAGES);
    }
    let group = settings::group_at(groups, g);
    if group.ceiling == 0 {
        return words::seed(at::next_group(g));
    }
    if group.eval {
        roster::spawn(keys, actors, g, true);
        return words::seed(at::next_group(g));
    }
    words::seed_boot(g)
}

// The reply to Boot: yes spawns the actor; one that does not fit changes nothing.
#[tactic(auto, unfolding(crate::specs::Seed::seed_reply, crate::specs::Seed::seed_booted))]
pub fn seed_reply(keys: &mut [KeyRow], actors: &mut [ActorRow], g: usize, reply: Reply) -> Where
    ensures { record { keys = keys.new; actors = actors.new; at = at_of result }
        ≡ seed_reply keys.old actors.old g reply }
{
    let Some(booted) = question::yes_in(reply) else {
        return words::seed_boot(g);
    };
    if booted {
        roster::spawn(keys, actors, g, false);
    }
    words::seed(at::next_group(g))
}
