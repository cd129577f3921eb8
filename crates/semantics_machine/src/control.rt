//! A state but for its values and queues, and what the parts of a step change in it.

ghost use Rattle.std.specs.Prelude.{◌≡◌, ◌≢◌, ◌^◌, ◌<◌, ◌≤◌, ◌∷◌, [], ◌+◌, ◌-◌, ℕ, ◌++◌, drop, nat_lt, false, length, slice_get, slice_index_or, slice_set, Some, None};
ghost use Rattle.guest_code.specs.Program.{Program, IsValid, IsValidCode, IsWellFormed, code_of};
ghost use Rattle.semantics.specs.Machine.{Snapshot, queue_of, count_of, thread_at, start, action_of, action_at, retake_of, with_status};
ghost use Rattle.semantics.specs.Mask.{has, HasEnabled};
ghost use Rattle.semantics.specs.declared.state.Action.TheVariants.{OnMutex, OnSemaphore};
ghost use Rattle.semantics.specs.declared.state.MutexAction.{MutexAction};
ghost use Rattle.semantics.specs.declared.state.SemaphoreAction.TheVariants.{Acquire as Acquires};
ghost use Rattle.semantics.specs.declared.state.Status.TheVariants.{Waiting, Woken};
ghost use Rattle.semantics.specs.declared.state.Thread.{Thread};
ghost use Rattle.semantics_machine.specs.Refinement.{queued, IsControl, HasObjects};
ghost use Rattle.semantics_machine.specs.inner.{LocalRuns.IsLandingOf, Opening.IsOpenedTo};
ghost use Rattle.semantics_machine.specs.inner.Parts.{IsLeaving, IsFreeIn, IsIdle, IsApart, IsControlBut, IsMarked, Stands, Lands, IsTaking};

mod steps;

use guest_code::limits::{COUNT, OBJECTS, THREADS};
use guest_code::program::{Instruction, Program};
use semantics::Landing;
use semantics::mask::Mask;
use semantics::state::Status;

/// A state but for its values and queues. It is small and copied as it is, so that a copy takes no
/// call.
#[derive(Clone, Copy)]
pub struct Control {
    /// The threads that can take a step.
    pub(crate) enabled: Mask,
    /// The threads that haven't ended.
    pub(crate) unended: Mask,
    /// The threads that stopped.
    pub(crate) stopped: Mask,
    /// The threads that a signal or a broadcast woke, and that have to take their mutexes again.
    pub(crate) woken: Mask,
    /// The number of the instruction where each thread is.
    pub(crate) places: [u16; THREADS],
    /// The thread that owns each mutex, or `FREE`.
    pub(crate) owners: [u8; OBJECTS],
    /// The count of each semaphore.
    pub(crate) counts: [u16; OBJECTS],
    /// The threads whose next step takes each mutex, whether it is free or not.
    pub(crate) mutexes: [Mask; OBJECTS],
    /// The threads whose next step acquires each semaphore, also at count 0.
    pub(crate) semaphores: [Mask; OBJECTS],
    /// How many threads are in each queue.
    pub(crate) lengths: [u8; OBJECTS],
}

/// What stands for the owner of a mutex that is free.
pub(crate) const FREE: u8 = 255;

/// The set of the threads with numbers below this one.
pub(crate) fn threads_below(number: u8) -> Mask
    requires { number ≤ THREADS }
    ensures { (t : ℕ) → has result t ≡ nat_lt t number }
{
    let mut all = Mask::empty();
    for t in 0..number {
        all = all.with(t, true);
    }
    all
}

// The set of a program's threads.
fn threads_of(program: &Program) -> Mask
    ensures { (t : ℕ) → has result t ≡ nat_lt t (length program.now.threads) }
{
    program.keeps_limits();
    threads_below(program.threads())
}

// The counts of a program's semaphores before the first step; 0 for a number that no semaphore has.
fn initial_counts(program: &Program) -> [u16; OBJECTS]
    ensures { (k : ℕ) → slice_index_or result k 0 ≡ count_of (start program.now) k }
{
    let mut counts = [0; OBJECTS];
    for k in 0..program.semaphores() {
        counts[k as usize] = program.initial_count(k as usize);
    }
    counts
}

// A queue of `_length` threads with `thread` added at its end. A queue is a word of four bits for
// each of its threads, those of the last one lowest.
fn queue_with(queue: i64, thread: u8, _length: u8) -> i64
    requires thread { thread < THREADS }
    requires room { _length < THREADS }
    ensures { queued (_length + 1) result ≡ queued _length queue ++ thread ∷ [] }
{
    ((queue.cast_unsigned() << 4) | (thread as u64)).cast_signed()
}

// The first thread of a queue of `length` threads. A queue is a word of four bits for each of its
// threads, those of the last one lowest.
fn queue_front(queue: i64, length: u8) -> u8
    requires some { 0 < length }
    requires few { length ≤ THREADS }
    ensures few { result < THREADS }
    ensures first { queued length queue ≡ result ∷ queued (length - 1) queue }
{
    ((queue.cast_unsigned() >> (4 * (length - 1))) & 15) as u8
}

impl Control {
    /// The control of a program's initial state before [`Control::place_thread`] has been called
    /// for any thread: none has ended or is enabled yet.
    pub(crate) fn without_threads(program: &Program) -> Control
        ensures { IsOpenedTo program.now (start program.now) 0 result }
    {
        Control {
            enabled: Mask::empty(),
            unended: threads_of(program),
            stopped: Mask::empty(),
            woken: Mask::empty(),
            places: [0; THREADS],
            owners: [FREE; OBJECTS],
            counts: initial_counts(program),
            mutexes: [Mask::empty(); OBJECTS],
            semaphores: [Mask::empty(); OBJECTS],
            lengths: [0; OBJECTS],
        }
    }

    /// The set of the enabled threads.
    pub fn enabled(&self) -> Mask
        ensures { (p : Program) → (s : Snapshot) → IsControl p self.now s
            → HasEnabled result p s }
    {
        self.enabled
    }

    // Lets a thread take the free mutex `m`: it isn't woken then, nor among the threads whose next
    // steps take `m`. The others among these are enabled no more.
    fn take_mutex(&mut self, thread: u8, m: usize)
        requires thread { thread < THREADS }
        requires m { m < OBJECTS }
        ensures lengths { self.new.lengths ≡ self.old.lengths }
        ensures takes { (p : Program) → (s : Snapshot) → (d : MutexAction)
            → IsLeaving p self.old s thread (Some (OnMutex m d)) → m < length s.owners → IsTaking d
            → IsControlBut p self.new
            (record s { owners = slice_set s.owners m (Some thread) }) thread }
    {
        let near = self.mutexes[m].with(thread, false);
        self.mutexes[m] = near;
        self.owners[m] = thread;
        self.woken = self.woken.with(thread, false);
        self.enabled = self.enabled.difference(near);
    }

    // Makes the mutex `m` free: all threads whose next steps take it are enabled then.
    fn free_mutex(&mut self, m: usize)
        requires m { m < OBJECTS }
        ensures lengths { self.new.lengths ≡ self.old.lengths }
        ensures frees { (p : Program) → (s : Snapshot) → (t : ℕ) → IsControlBut p self.old s t
            → m < length s.owners
            → IsControlBut p self.new (record s { owners = slice_set s.owners m None }) t }
    {
        self.owners[m] = FREE;
        self.enabled = self.enabled.union(self.mutexes[m]);
    }

    // Lets a thread acquire the semaphore `k`: it isn't among the threads whose next steps acquire
    // `k` then. Where that leaves the count 0, the others among these are enabled no more.
    fn acquire(&mut self, thread: u8, k: usize)
        requires thread { thread < THREADS }
        requires k { k < OBJECTS }
        requires count { 0 < slice_index_or self.old.counts k 0 }
        ensures lengths { self.new.lengths ≡ self.old.lengths }
        ensures acquires { (p : Program) → (s : Snapshot)
            → IsLeaving p self.old s thread (Some (OnSemaphore k Acquires))
            → has self.old.woken thread ≡ false → k < length s.counts
            → IsControlBut p self.new
            (record s { counts = slice_set s.counts k (count_of s k - 1) }) thread }
    {
        let near = self.semaphores[k].with(thread, false);
        self.semaphores[k] = near;
        let count = self.counts[k] - 1;
        self.counts[k] = count;
        if count == 0 {
            self.enabled = self.enabled.difference(near);
        }
    }

    // Raises the count of the semaphore `k` by 1, for which there is room: all threads whose next
    // steps acquire `k` are enabled then.
    fn release(&mut self, k: usize)
        requires k { k < OBJECTS }
        requires count { slice_index_or self.old.counts k 0 < COUNT }
        ensures lengths { self.new.lengths ≡ self.old.lengths }
        ensures rises { (p : Program) → (s : Snapshot) → (t : ℕ) → IsControlBut p self.old s t
            → k < length s.counts
            → IsControlBut p self.new
            (record s { counts = slice_set s.counts k (count_of s k + 1) }) t }
    {
        self.counts[k] += 1;
        self.enabled = self.enabled.union(self.semaphores[k]);
    }

    // Puts a thread at the end of the queue of the condition `c`, whose threads the word `queue`
    // holds. The queue's length rises by 1.
    fn enqueue(&mut self, queue: &mut i64, thread: u8, c: usize)
        requires thread { thread < THREADS }
        requires c { c < OBJECTS }
        requires room { slice_index_or self.old.lengths c 0 < THREADS }
        ensures lengths { self.new.lengths
            ≡ slice_set self.old.lengths c (slice_index_or self.old.lengths c 0 + 1) }
        ensures queue { queued (slice_index_or self.old.lengths c 0 + 1) queue.new
            ≡ queued (slice_index_or self.old.lengths c 0) queue.old ++ thread ∷ [] }
        ensures rest { (p : Program) → (s : Snapshot) → (t : ℕ) → IsControlBut p self.old s t
            → c < length s.queues → IsControlBut p self.new
            (record s { queues = slice_set s.queues c (queue_of s c ++ thread ∷ []) }) t }
    {
        let length = self.lengths[c];
        *queue = queue_with(*queue, thread, length);
        self.lengths[c] = length + 1;
    }

    // Takes the first thread out of the queue of the condition `c`, and answers it. The queue's
    // length falls by 1, so that the thread's bits in the word `queue` don't count any more; the
    // word stays.
    fn dequeue(&mut self, queue: i64, c: usize) -> u8
        requires c { c < OBJECTS }
        requires some { 0 < slice_index_or self.old.lengths c 0 }
        requires few { slice_index_or self.old.lengths c 0 ≤ THREADS }
        ensures lengths { self.new.lengths
            ≡ slice_set self.old.lengths c (slice_index_or self.old.lengths c 0 - 1) }
        ensures first { queued (slice_index_or self.old.lengths c 0) queue
            ≡ result ∷ queued (slice_index_or self.old.lengths c 0 - 1) queue }
        ensures rest { (p : Program) → (s : Snapshot) → (t : ℕ) → IsControlBut p self.old s t
            → c < length s.queues → IsControlBut p self.new
            (record s { queues = slice_set s.queues c (drop 1 (queue_of s c)) }) t }
    {
        let length = self.lengths[c];
        let thread = queue_front(queue, length);
        self.lengths[c] = length - 1;
        thread
    }

    // Enters a thread, which was neither woken, ended nor stopped, in the sets of the woken, the
    // unended and the stopped threads by its new status. One that runs or waits changes none.
    fn note_status(&mut self, thread: u8, status: Status)
        requires thread { thread < THREADS }
        ensures lengths { self.new.lengths ≡ self.old.lengths }
        ensures marks { IsIdle self.old thread → IsMarked self.old self.new thread status }
    {
        match status {
            Status::Running | Status::Waiting(_) => {}
            Status::Woken => self.woken = self.woken.with(thread, true),
            Status::Ended => self.unended = self.unended.with(thread, false),
            Status::Stopped(_) => self.stopped = self.stopped.with(thread, true),
        }
    }

    // Adds a thread to those whose next steps take the mutex `m`. Answers whether the mutex is
    // free, so that the thread can take that step.
    fn register_at_mutex(&mut self, thread: u8, m: usize) -> bool
        requires thread { thread < THREADS }
        requires m { m < OBJECTS }
        ensures lengths { self.new.lengths ≡ self.old.lengths }
        ensures stands { (s : Snapshot) → (d : MutexAction) → HasObjects self.old s
            → IsApart self.old thread → IsTaking d
            → Stands self.old self.new s thread (Some (OnMutex m d)) result }
    {
        self.mutexes[m] = self.mutexes[m].with(thread, true);
        self.owners[m] == FREE
    }

    // Where a running thread's step at this instruction takes a mutex or acquires a semaphore, adds
    // the thread to the set of those whose next steps do so. Answers whether the mutex is free, or
    // the count above 0. At other visible instructions answers true, at local ones false.
    #[inline(always)]
    fn register_lock_or_acquire(&mut self, instruction: &Instruction, thread: u8) -> bool
        requires thread { thread < THREADS }
        requires fine { (p : Program) × IsValid p instruction.now × IsWellFormed p }
        ensures lengths { self.new.lengths ≡ self.old.lengths }
        ensures stands { (s : Snapshot) → HasObjects self.old s → IsApart self.old thread
            → Stands self.old self.new s thread (action_of instruction.now) result }
    {
        match instruction {
            Instruction::Lock(m) => self.register_at_mutex(thread, *m),
            Instruction::Acquire(k) => {
                self.semaphores[*k] = self.semaphores[*k].with(thread, true);
                self.counts[*k] > 0
            }
            Instruction::Set { .. }
            | Instruction::Assert(_)
            | Instruction::SkipIfZero(_, _)
            | Instruction::Skip(_) => false,
            _ => true,
        }
    }

    // Adds a woken thread to those whose next steps take the mutex of the `wait` where the thread
    // is. Answers whether the mutex is free; false, adding nothing, at other instructions.
    fn register_retake(&mut self, instruction: &Instruction, thread: u8) -> bool
        requires thread { thread < THREADS }
        requires fine { (p : Program) × IsValid p instruction.now × IsWellFormed p }
        ensures lengths { self.new.lengths ≡ self.old.lengths }
        ensures stands { (s : Snapshot) → HasObjects self.old s → IsApart self.old thread
            → Stands self.old self.new s thread (retake_of instruction.now) result }
    {
        match instruction {
            Instruction::Wait { mutex, .. } => self.register_at_mutex(thread, *mutex),
            _ => false,
        }
    }

    // Where the next step of a thread, whose place and status are `at`, takes a mutex or acquires a
    // semaphore, adds the thread to the set of those whose next steps do so. Answers whether it can
    // take the step: not at a held mutex, at a count of 0, or where it waits, has ended or stopped.
    // True at once if `at.free` says that the step is possible and takes no mutex or semaphore.
    #[inline(always)]
    fn register_and_test(&mut self, code: &[Instruction], thread: u8, at: Landing) -> bool
        requires thread { thread < THREADS }
        requires fine { (p : Program) × IsValidCode p code.now × IsWellFormed p }
        requires free { IsFreeIn code.now at }
        ensures lengths { self.new.lengths ≡ self.old.lengths }
        ensures stands { (s : Snapshot) → HasObjects self.old s → IsApart self.old thread
            → Stands self.old self.new s thread
            (action_at at.status (slice_get code.now at.pc)) result }
    {
        if at.free {
            return true;
        }
        match at.status {
            Status::Running => match code.get(at.pc) {
                Some(instruction) => self.register_lock_or_acquire(instruction, thread),
                None => false,
            },
            Status::Woken => match code.get(at.pc) {
                Some(instruction) => self.register_retake(instruction, thread),
                None => false,
            },
            Status::Waiting(_) | Status::Ended | Status::Stopped(_) => false,
        }
    }

    /// Gives a thread the place and status `at`, and notes which mutex or semaphore its next step
    /// takes, if any, and whether it is enabled. Before the call the thread is not woken, ended or
    /// stopped, and no mutex or semaphore is noted for it.
    #[inline(always)]
    pub(crate) fn place_thread(&mut self, code: &[Instruction], thread: u8, at: Landing)
        requires thread { thread < THREADS }
        requires fine { (p : Program) × IsValidCode p code.now × IsWellFormed p }
        requires pc { at.pc < 2 ^ 16 }
        requires free { IsFreeIn code.now at }
        ensures lengths { self.new.lengths ≡ self.old.lengths }
        ensures lands { (p : Program) → (s : Snapshot) → (th : Thread) → HasObjects self.old s
            → IsIdle self.old thread → IsLandingOf at th → code.now ≡ code_of p thread
            → Lands p self.old self.new s thread th }
    {
        self.note_status(thread, at.status);
        let on = self.register_and_test(code, thread, at);
        self.places[thread as usize] = at.pc as u16;
        self.enabled = self.enabled.with(thread, on);
    }

    // Wakes a thread that waits: its next step takes the mutex of its `wait` again.
    fn wake(&mut self, program: &Program, thread: u8)
        requires thread { thread < length program.now.threads }
        ensures lengths { self.new.lengths ≡ self.old.lengths }
        ensures shows { (s : Snapshot) → (t : ℕ) → (n : ℕ) → IsControlBut program.now self.old s t
            → thread ≢ t → (thread_at s thread).status ≡ Waiting n → thread < length s.threads
            → IsControlBut program.now self.new (record s {
              threads =
                  slice_set s.threads thread (with_status (thread_at s thread) Woken);
            }) t }
    {
        program.keeps_limits();
        let at = Landing {
            pc: self.places[thread as usize] as usize,
            status: Status::Woken,
            free: false,
        };
        self.place_thread(program.code(thread), thread, at);
    }
}
