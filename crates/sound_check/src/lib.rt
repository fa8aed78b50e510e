// Whether a gate is sound, in every clause of the definition. A gate of any contents has an answer.
#![tactic(auto)]

ghost use Rattle.std.specs.Prelude.{◌<◌, ◌≡◌, length};
ghost use Rattle.rules.specs.Limits.{max_clients};
ghost use Rattle.parts.specs.Shows.{Homes};
ghost use Rattle.soundness.specs.Clauses.{sound_of};
ghost use Rattle.sound_check.specs.Answers.{charge_fits, charges_fit, deadline_fits, deadlines_fit};

use gate::{Gate, Setup};

// CHARGES

fn charge_sound(real: u64, owner: usize, n: u32) -> bool
    ensures { result ≡ charge_fits real owner n }
{
    n <= Gate::MAX_CHARGE && (n == 0 || sets::member(real, owner))
}

fn charges_sound(q: &[u32; 64], real: u64) -> bool
    requires { length q.now ≡ max_clients }
    ensures { result ≡ charges_fit real q.now }
{
    for (c, n) in q.iter().enumerate() {
        if !charge_sound(real, c, *n) {
            return false;
        }
    }
    true
}

// DEADLINES

// A deadline is 0; or the setup goes by deadlines and its owner waits: is seen in a line, or is in its waiting room.
fn deadline_sound(setup: &Setup, rooms: [u64; 8], seen: u64, owner: usize, d: u32) -> bool
    requires { (owner < max_clients) × Homes setup.now.homes }
    ensures { result ≡ deadline_fits setup.now.homes rooms setup.now.timed seen owner d }
{
    if d == 0 {
        return true;
    }
    if !setup.timed {
        return false;
    }
    if sets::member(seen, owner) {
        return true;
    }
    let k = usize::from(setup.homes[owner]);
    sets::member(rooms[k], owner)
}

fn deadlines_sound(q: &[u32; 64], setup: &Setup, rooms: [u64; 8], seen: u64) -> bool
    requires { (length q.now ≡ max_clients) × Homes setup.now.homes }
    ensures { result ≡ deadlines_fit setup.now.homes rooms setup.now.timed seen q.now }
{
    for (c, d) in q.iter().enumerate() {
        if !deadline_sound(setup, rooms, seen, c, *d) {
            return false;
        }
    }
    true
}

// ALL OF THEM

// Whether a gate is sound.
pub fn sound(g: Gate) -> bool
    ensures { result ≡ sound_of g }
{
    let s = g.setup;
    if !setup_check::setup_sound(s) {
        return false;
    }
    let clients = setup_check::clients_below(&s.kinds, &s.homes, usize::from(s.clients));
    let own = clients.own;
    let lines = g.lines;
    let Some(seen) = standing::lines_seen(&s.sizes, own, lines) else {
        return false;
    };
    let Some(stand) = seen::queue_seen(&g.background, clients.effort, seen) else {
        return false;
    };
    let rooms = g.rooms;
    if !standing::rooms_sound(&s.sizes, own, stand, lines, rooms) {
        return false;
    }
    let first = fronts::firsts(lines);
    let server = g.server;
    let queue = fronts::queued(&s.homes, own, server, first);
    if !fronts::global_sound(&g.global, queue) {
        return false;
    }
    if !fronts::server_sound(clients, &s.homes, rooms, first, stand, server, g.units) {
        return false;
    }
    let cap = u32::from(serving::cap_of(&s, server));
    if g.units > cap {
        return false;
    }
    if !charges_sound(&g.charges, clients.real) {
        return false;
    }
    deadlines_sound(&g.deadlines, &s, rooms, seen)
}
