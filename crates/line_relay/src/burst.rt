//! What a sample set brings.
ghost use Rattle.std.specs.Prelude.{◌≡◌, [], None};

use arrayvec::ArrayVec;
use event_record::Event;
use goose_publish::Send;

/// Events in the order in which they are told, and the GOOSE frame that is sent behind them.
#[derive(Drop)]
pub struct Burst {
    pub events: ArrayVec<Event, 96>,
    pub send: Option<Send>,
}

impl Burst {
    /// An empty one, to be filled.
    pub fn new() -> Burst
        ensures events { result.events.items ≡ [] }
        ensures send { result.send ≡ None }
    {
        Burst {
            events: ArrayVec::new(),
            send: None,
        }
    }

    /// Empties it.
    pub fn clear(&mut self)
        ensures events { self.new.events.items ≡ [] }
        ensures send { self.new.send ≡ None }
    {
        self.events.clear();
        self.send = None;
    }
}
