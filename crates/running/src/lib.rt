// Run on a gate's parts: its answers, and the charges of an accepted one.
#![tactic(auto)]

ghost use Rattle.std.specs.Prelude.{◌≡◌, ◌+◌, ◌≤◌, ltb};
ghost use Rattle.rules.specs.Limits.{max_clusters, max_cap};
ghost use Rattle.rules.specs.State.{cap_of};
ghost use Rattle.rules.specs.Events as rules;
ghost use Rattle.gate.specs.Shown.{setup_of, server_of};
ghost use Rattle.answers.specs.Answers.{Answering};
ghost use Rattle.running.specs.Runs.{Charging, Running};

use answers::{Answer, Outcome};
use gate::Setup;
use parts::{Queues, Service};

// Whether n units more would carry the units so far past the cap.
fn passes_cap(cap: u16, units: u32, n: u16) -> bool
    ensures { result ≡ ltb cap (units + n) }
{
    if cap < n {
        return true;
    }
    u32::from(cap - n) < units
}

// What a run comes to: the service after it, and the answer.
#[derive(Clone, Copy)]
struct Ran {
    service: Service,
    answer: Answer,
}

// The last of a run: 19 for the charge, or the run.
fn charged(q: &Queues, setup: &Setup, keys: &[u32; 64], charges: &mut [u32; 64], n: u16) -> Ran
    requires { (setup.now.clusters ≤ max_clusters) × (q.now.service.units + n ≤ max_cap) }
    ensures { Charging (λ v. (setup.now.sizes ≡ v.sizes) × (setup.now.clusters ≡ v.clusters)) n q.now.lines
        q.now.rooms q.now.service charges.old keys.now result charges.new }
{
    let service = q.service;
    let set = charging::charged(q, setup, keys);
    if charging::overcharges(charges, set, n) {
        return Ran {
            service,
            answer: Answer::Unsound,
        };
    }
    charging::charge(charges, set, n);
    let after = Service {
        units: service.units + u32::from(n),
        ..service
    };
    Ran {
        service: after,
        answer: Answer::Accepted,
    }
}

// A run of n: 13, 12, 14 by the cap of the one in service or of the tidying, then 19 for the charge.
fn answered(q: &Queues, setup: &Setup, keys: &[u32; 64], charges: &mut [u32; 64], n: u16) -> Ran
    requires { setup.now.clusters ≤ max_clusters }
    ensures { Running (λ v. (setup.now.sizes ≡ v.sizes) × (setup.now.clusters ≡ v.clusters)
        × (cap_of (setup_of setup.now) (server_of q.now.service.server)
        ≡ cap_of (setup_of v) (server_of q.now.service.server))) n q.now.lines q.now.rooms q.now.service
        charges.old keys.now result charges.new }
{
    let service = q.service;
    if n == 0 {
        return Ran {
            service,
            answer: Answer::RunOfNone,
        };
    }
    if serving::is_idle(service.server) {
        return Ran {
            service,
            answer: Answer::ServerIdle,
        };
    }
    if passes_cap(serving::cap_of(setup, service.server), service.units, n) {
        return Ran {
            service,
            answer: Answer::RunPastCap,
        };
    }
    charged(q, setup, keys, charges, n)
}

// Run n. It changes the service of the queues, and nothing else of them.
pub fn run(q: Queues, setup: &Setup, keys: &[u32; 64], charges: &mut [u32; 64], n: u16) -> Outcome
    requires { setup.now.clusters ≤ max_clusters }
    ensures { Answering (λ v. (setup.now.sizes ≡ v.sizes) × (setup.now.clusters ≡ v.clusters)
        × (setup.now.cap ≡ v.cap) × (setup.now.tidy ≡ v.tidy)) (rules.run n) q charges.old keys.now result
        charges.new keys.now }
{
    let Ran { service, answer } = answered(&q, setup, keys, charges, n);
    Outcome {
        queues: Queues { service, ..q },
        answer,
    }
}
