//! What a peer answers.
ghost use Rattle.std.specs.Prelude.{◌≡◌, [], false};
ghost use Rattle.cm_peer.specs.Answers.{is_row_of, row_of, busy_cause, answer_of};

use crate::{Answer, Cached, Cause, PeerState, Want};
use cm_base::List;
use std::alloc::Global;

const MOST_LOAD: u8 = 80;

const MOST_QUEUE: u16 = 10;

/// Whether the row is that of the wanted package and version.
fn is_row_of(want: &Want, row: &Cached) -> bool
    ensures { result ≡ is_row_of want.now row.now }
{
    row.package == want.package && row.version == want.version
}

/// The first row of the wanted package and version.
fn row_of(want: &Want, rows: &[Cached]) -> Option<Cached>
    ensures { result ≡ row_of want.now rows.now }
{
    rows.iter().copied().find(|row| is_row_of(want, row))
}

impl PeerState {
    /// How a peer stands of which nothing was told: on mains, idle, with nothing cached.
    pub fn new(alloc: Global) -> PeerState
        ensures { result ≡ record { low_battery = false; load = 0; queue = 0; used = 0; cached = [] } }
    {
        PeerState {
            low_battery: false,
            load: 0,
            queue: 0,
            used: 0,
            cached: List::of(Vec::new(alloc)),
        }
    }

    /// Why the peer serves nothing now.
    fn busy_cause(&self, connections: u16) -> Option<Cause>
        ensures { result ≡ busy_cause self.now connections }
    {
        if self.low_battery {
            return Some(Cause::LowBattery);
        }
        if self.load > MOST_LOAD {
            return Some(Cause::Processor { load: self.load });
        }
        if self.queue > MOST_QUEUE {
            return Some(Cause::DiskQueue { length: self.queue });
        }
        if self.used >= connections {
            return Some(Cause::NoConnection { limit: connections });
        }
        None
    }

    /// What a peer that stands so answers, where it serves at most so many connections at once. It refuses by the first
    /// cause that applies, and else serves the first row of the package and version that it has cached.
    pub fn answer(&self, connections: u16, want: &Want) -> Answer
        ensures { result ≡ answer_of self.now connections want.now }
    {
        if let Some(cause) = self.busy_cause(connections) {
            return Answer::Refused(cause);
        }
        match row_of(want, self.cached.items()) {
            Some(row) => Answer::Serve { hash: row.hash },
            None => Answer::Refused(Cause::NotCached),
        }
    }
}
