// A run's own numbers, and those that are shown behind an image.
ghost use Rattle.std.specs.Prelude.{◌≡◌, ◌⊎◌, ◌≤◌, ◌+◌, MatchOption};
ghost use Rattle.arj_journal.specs.ScriptForm.{EventInForm};
ghost use Rattle.arj_model.specs.Shown as model;
ghost use Rattle.arj_resuming.specs.Numbers.{frame_in};
ghost use Rattle.arj_start.specs.Start.{Start};

use arj_journal::{Body, Event, FrameNo, Line};

// A frame by the run's own number. One that was sent before it began has none: 0.
fn own_frame(frames: u32, frame: FrameNo) -> FrameNo
    ensures { (st : Start) → st.frames ≡ frames → result ≡ model.own_frame st frame }
{
    match frame {
        FrameNo::Number(k) => FrameNo::Number(k.saturating_sub(frames)),
        FrameNo::Last => FrameNo::Last,
    }
}

/// An event, with a frame that it names by the run's own number, where so many frames were sent before.
pub fn own_event(frames: u32, event: Event) -> Event
    ensures own { (st : Start) → st.frames ≡ frames → result ≡ model.own_event st event }
    ensures form { EventInForm event → EventInForm result }
{
    match event {
        Event::Deliver { frame } => Event::Deliver {
            frame: own_frame(frames, frame),
        },
        Event::Lose { frame } => Event::Lose {
            frame: own_frame(frames, frame),
        },
        event => event,
    }
}

// What a line says, with the number of a frame raised by so many, where it has 32 bits then.
fn raised(frames: u32, body: Body) -> Option<Body>
    ensures { MatchOption result (4294967296 ≤ frames + frame_in body) (λ b. b ≡ model.raised frames body) }
{
    match body {
        Body::Sent {
            frame,
            from,
            to,
            kind,
        } => Some(Body::Sent {
            frame: frames.checked_add(frame)?,
            from,
            to,
            kind,
        }),
        Body::Got { frame } => Some(Body::Got {
            frame: frames.checked_add(frame)?,
        }),
        Body::Void { frame } => Some(Body::Void {
            frame: frames.checked_add(frame)?,
        }),
        Body::Dropped { frame } => Some(Body::Dropped {
            frame: frames.checked_add(frame)?,
        }),
        body => Some(body),
    }
}

/// A line as it is shown behind so many events and frames, where its numbers have 32 bits then.
pub fn shown(events: u32, frames: u32, line: Line) -> Option<Line>
    ensures { MatchOption result ((4294967296 ≤ events + line.event) ⊎ (4294967296 ≤ frames + frame_in line.body))
        (λ l. (st : Start) → st.events ≡ events → st.frames ≡ frames → l ≡ model.shown st line) }
{
    let event = events.checked_add(line.event)?;
    let body = raised(frames, line.body)?;
    Some(Line { event, body })
}
