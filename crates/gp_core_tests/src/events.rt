//! Events, as cases give them: `Claim 1 0` is the claim of goroutine 0 by actor 1.
use gp_cases::{Unanswered, halves, number_32, word};
use gp_core::CoreEvent;

// An event of an actor, or a worker, and a goroutine.
fn event_by(name: &str, by: u32, g: u32) -> Result<CoreEvent, Unanswered> {
    match name {
        "Claim" => Ok(CoreEvent::Claim { a: by, g }),
        "Copy" => Ok(CoreEvent::Copy { a: by, g }),
        "Satisfy" => Ok(CoreEvent::Satisfy { a: by, g }),
        "Take" => Ok(CoreEvent::Take { w: by, g }),
        "Begin" => Ok(CoreEvent::Begin { w: by, g }),
        "Commit" => Ok(CoreEvent::Commit { a: by, g }),
        "Give" => Ok(CoreEvent::Give { w: by, g }),
        "Bear" => Ok(CoreEvent::Bear { w: by, g }),
        "Bury" => Ok(CoreEvent::Bury { w: by, g }),
        _ => Err(Unanswered::Form),
    }
}

/// The event of a text.
pub fn event_of(text: &str) -> Result<CoreEvent, Unanswered> {
    match text {
        "OpenAll" => return Ok(CoreEvent::OpenAll),
        "CloseAll" => return Ok(CoreEvent::CloseAll),
        _ => {}
    }
    let (name, numbers) = word(text);
    let (by, g) = halves(numbers, ' ')?;
    event_by(name, number_32(by)?, number_32(g)?)
}
