// An own record of a watch, as a measure meets it.
ghost use Rattle.std.specs.Prelude.{◌≡◌, IfSome};
ghost use Rattle.controller_log.specs.Events.{code_of, event};

use controller_log::event::Event;

#[derive(Clone, Copy, PartialEq, Eq, Debug)]
pub struct OwnRecord {
    // Any byte, as in a log: an Event would ask more of whoever makes a record.
    pub code: u8,
    pub parameter: u8,
    // The moment plus the watch's shift, where the record is a detector's.
    pub adjusted: u32,
}

impl OwnRecord {
    // The event, if the code is of one that the engine knows.
    pub fn event(&self) -> Option<Event>
        ensures value { result ≡ event self.now.code }
        ensures code { IfSome result (λ e. self.now.code ≡ code_of e) }
    {
        Event::try_from(self.code).ok()
    }
}
