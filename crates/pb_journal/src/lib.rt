// The events of a run as lines of JSON, each of which reads back as that event.
//
//     let line = line_of(alloc, &Event::Start(3), notes)?; // {"event":"start","host":3}
//     let event = event_on(alloc, line.as_bytes())?; // Some(Event::Start(3))
#![tactic(auto)]

mod event;
mod laws;
mod written;

pub use event::{event_on, line_of};
pub use laws::{first_events_happen, looks_at_what_is_said};
pub use written::{WriteFault, write_value};
