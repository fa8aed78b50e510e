// Who stands in a queue of places, each once: a line's clients, or the servers on a stack.
#![tactic(auto)]

ghost use Rattle.std.specs.Prelude.{◌≡◌};
ghost use Rattle.sets.specs.Sets.{member};
ghost use Rattle.seen.specs.Seen.{seen_of, queue_seen};

// Everyone in a queue of those who may stand there, added to a set of others; none if one of them is seen twice, or
// something there is not sound.
pub fn queue_seen(q: &[u8], known: u64, others: u64) -> Option<u64>
    ensures { seen_of result ≡ queue_seen (member known) q.now others }
{
    let mut everyone = others;
    for (i, x) in q.iter().enumerate() {
        if *x == places::UNUSED {
            return places::holds_only_from(q, i, places::UNUSED).then_some(everyone);
        }
        let c = usize::from(*x);
        if !sets::member(known, c) || sets::member(everyone, c) {
            return None;
        }
        everyone = sets::with(everyone, c);
    }
    Some(everyone)
}
