// The lines and the waiting rooms: whether they are sound, and who stands there.
#![tactic(auto)]

ghost use Rattle.std.specs.Prelude.{◌≡◌, ◌&&◌, ltb};
ghost use Rattle.sets.specs.Sets.{member};
ghost use Rattle.places.specs.Places.{unpad};
ghost use Rattle.seen.specs.Seen.{seen_of};
ghost use Rattle.standing.specs.Answers.{lines_seen, room_fits, rooms_fit};

use gate::{Gate, Line};

// LINES

// Client c may stand at a place of a line of m, whose cluster's clients are given.
fn may_stand(m: usize, own: u64, at: usize, c: usize) -> bool
    ensures { result ≡ (ltb at m && member own c) }
{
    at < m && sets::member(own, c)
}

// Everyone in a line; none if something there is not sound. The loops are left from inside at the first client seen
// twice, or out of place, and a line at its first unused place.
pub fn lines_seen(sizes: &[u8; 8], own: [u64; 8], lines: [Line; 8]) -> Option<u64>
    ensures { seen_of result ≡ lines_seen sizes.now own lines }
{
    let mut seen = 0;
    'lines: for k in 0..Gate::MAX_CLUSTERS {
        let m = usize::from(sizes[k]);
        let known = own[k];
        let line = lines[k];
        let q = line.places;
        for (j, x) in q.iter().enumerate() {
            if *x == places::UNUSED {
                if places::holds_only_from(&q, j, places::UNUSED) {
                    continue 'lines;
                }
                return None;
            }
            let c = usize::from(*x);
            if !may_stand(m, known, j, c) || sets::member(seen, c) {
                return None;
            }
            seen = sets::with(seen, c);
        }
    }
    Some(seen)
}

// WAITING ROOMS

// Everyone in the room is of its cluster and stands nowhere; the line is full, if somebody is there.
fn room_sound(m: usize, own: u64, stand: u64, line: Line, room: u64) -> bool
    ensures { result ≡ room_fits m own stand (unpad line.places) room }
{
    if room == 0 {
        return true;
    }
    if sets::less(room, sets::less(own, stand)) != 0 {
        return false;
    }
    m <= rows::used(line)
}

pub fn rooms_sound(
    sizes: &[u8; 8],
    own: [u64; 8],
    stand: u64,
    lines: [Line; 8],
    rooms: [u64; 8],
) -> bool
    ensures { result ≡ rooms_fit sizes.now own stand lines rooms }
{
    for k in 0..Gate::MAX_CLUSTERS {
        if !room_sound(usize::from(sizes[k]), own[k], stand, lines[k], rooms[k]) {
            return false;
        }
    }
    true
}
