//! The words by which the JSON of an explanation tells how things are, such as `stuck` or `signal`.

use explain_run::{Reason, ThreadState};
use replay::Act;
use semantics::state::{Status, Stop};
use semantics::view::Kind;

/// The word for how a schedule ends.
pub fn kind_word(kind: Kind) -> &'static str {
    match kind {
        Kind::Done => "done",
        Kind::Failed => "failed",
        Kind::Stuck => "stuck",
    }
}

/// The word for why a thread stopped.
pub fn stop_reason_word(stop: Stop) -> &'static str {
    match stop {
        Stop::Assert => "assert",
        Stop::NotHeld => "not-held",
        Stop::SemFull => "sem-full",
    }
}

/// The word for how a thread is: ended, stopped, blocked (it waits for something) or enabled.
pub fn thread_status_word(state: &ThreadState) -> &'static str {
    match state.status {
        Status::Ended => "ended",
        Status::Stopped(_) => "stopped",
        _ if state.reason.is_some() => "blocked",
        _ => "enabled",
    }
}

/// The word for what a blocked thread waits to do; of one that waits for a condition, `signal`.
pub fn wait_reason_word(reason: Reason) -> &'static str {
    match reason {
        Reason::Lock(_) => "lock",
        Reason::Retake(_) => "retake",
        Reason::Acquire(_) => "acquire",
        Reason::Signal(_) => "signal",
    }
}

/// The word for what a step did.
pub fn act_word(act: Act) -> &'static str {
    match act {
        Act::Load { .. } => "load",
        Act::Store { .. } => "store",
        Act::Add { .. } => "add",
        Act::Cas { .. } => "cas",
        Act::Lock(_) => "lock",
        Act::Unlock(_) => "unlock",
        Act::Wait { .. } => "wait",
        Act::Retake(_) => "retake",
        Act::Signal(_) => "signal",
        Act::Broadcast(_) => "broadcast",
        Act::Acquire(_) => "acquire",
        Act::Release(_) => "release",
    }
}
