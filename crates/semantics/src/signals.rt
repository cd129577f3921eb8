//! Whom a signal or a broadcast wakes.

ghost use Rattle.std.specs.Prelude.{◌≡◌, ◌<◌, length, All};
ghost use Rattle.semantics.specs.Undoing.{waiting_again};
ghost use Rattle.semantics.specs.Machine.{threads_to_wake, queue_after, woken, wake};

use crate::queue::Queue;
use crate::state::{ConditionAction, Status, Thread};

// Wakes a thread if it waits for this condition; else leaves it as it is.
fn wake_if_waiting(condition: u8, thread: &mut Thread)
    ensures { thread.new ≡ woken condition thread.old }
{
    if thread.status == Status::Waiting(condition) {
        thread.status = Status::Woken;
    }
}

// Wakes each thread whose number is in `threads_to_wake`, if it waits for this condition.
fn wake_each(threads: &mut [Thread], condition: u8, threads_to_wake: &[u8])
    requires { All (λ u. u < length threads.old) threads_to_wake.now }
    ensures { threads.new ≡ wake condition threads_to_wake.now threads.old }
{
    for u in threads_to_wake {
        wake_if_waiting(condition, &mut threads[*u as usize]);
    }
}

/// For a signal takes the first thread out of a condition's queue, for a broadcast all threads, and
/// wakes those of them that wait for the condition. An empty queue stays empty.
pub fn signal_or_broadcast(
    queue: &mut Queue,
    threads: &mut [Thread],
    condition: u8,
    action: ConditionAction,
)
    requires { All (λ u. u < length threads.old) queue.old }
    ensures queue { queue.new ≡ queue_after action queue.old }
    ensures threads { threads.new ≡ wake condition (threads_to_wake action queue.old) threads.old }
{
    match action {
        ConditionAction::Broadcast => {
            wake_each(threads, condition, queue.threads());
            queue.clear();
        }
        ConditionAction::Signal => {
            if let Some(u) = queue.pop() {
                wake_if_waiting(condition, &mut threads[u as usize]);
            }
        }
    }
}

/// Makes the threads of these numbers wait for this condition again, as before they were woken. The
/// condition's queue isn't changed.
pub fn wait_again(threads: &mut [Thread], condition: u8, waiting: &[u8])
    requires { All (λ u. u < length threads.old) waiting.now }
    ensures { threads.new ≡ waiting_again condition waiting.now threads.old }
{
    for u in waiting {
        threads[*u as usize].status = Status::Waiting(condition);
    }
}
