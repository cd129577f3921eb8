//! What words of other languages stand for in this one, and what takes the place of what isn't in
//! it.

use crate::forms::{DECLARATIONS, STATEMENTS, form, form_in, keyword_of};

// Rows `WORDS: SAID`: for words that begin a statement in other languages, the keyword that stands
// for them, or else what is told of them; also what a `{` or `;` in place of a statement may mean.
static STATEMENT_WORDS: [&str; 38] = [
    "get read atomic_load: load",
    "write put atomic_store: store",
    "fetch_add atomic_fetch_add getAndAdd: add",
    "compare_exchange compareAndSet: cas",
    "mutex_lock pthread_mutex_lock spin_lock: lock",
    "mutex_unlock pthread_mutex_unlock spin_unlock: unlock",
    "pthread_cond_wait: wait",
    "notify notify_one wake: signal",
    "notify_all notifyAll signal_all signalAll: broadcast",
    "P down sem_wait: acquire",
    "V up post sem_post: release",
    "fail abort: assert",
    "break: leave",
    "elif elseif: else",
    "for while loop do: repeat",
    "sub fetch_sub atomic_fetch_sub: an amount may be negative: add LOCAL VAR -1;",
    "swap xchg exchange atomic_exchange getAndSet: \
     not in the language: see `Swap` in docs/COOKBOOK.md",
    "trylock try_lock tryLock mutex_trylock pthread_mutex_trylock spin_trylock: \
     not in the language: see `Try-lock` in docs/COOKBOOK.md",
    "tryacquire try_acquire tryAcquire trywait sem_trywait: \
     not in the language: see `Try-lock` in docs/COOKBOOK.md",
    "rdlock rlock RLock read_lock wrlock wlock write_lock rwlock runlock RUnlock read_unlock: \
     not in the language: see `Lock for readers and writers` in docs/COOKBOOK.md",
    "timedwait timed_wait wait_timeout pthread_cond_timedwait sem_timedwait: \
     not in the language: see `Time-out` in docs/COOKBOOK.md",
    "send recv receive: not in the language: see `Bounded channel` in docs/COOKBOOK.md",
    "select: not in the language: see `Select` in docs/COOKBOOK.md",
    "park unpark: not in the language: see `Park and unpark` in docs/COOKBOOK.md",
    "barrier: not in the language: see `Barrier` in docs/COOKBOOK.md",
    "await until: not in the language: see `Await` in docs/COOKBOOK.md",
    "fence mfence smp_mb: leave it out: each step sees all that the steps before it did",
    "sleep yield: leave it out: a thread may be interrupted before each of its steps",
    "spawn go: all threads begin at once",
    "join: acquire a semaphore that the other thread releases at its end",
    "atomic synchronized: lock a mutex before these steps, and unlock it after them",
    "continue goto: `leave` leaves the nearest `repeat`, and there is no other jump",
    "exit halt return: a thread ends at the end of its braces; put the rest into an `if`",
    "skip pass: leave it out: a block may be empty",
    "print printf println: nothing is printed: a replay tells each step",
    "switch match: an `if` for each case, one in the `else` of another, does the same",
    "{: a block belongs to a thread, an `if`, an `else` or a `repeat`",
    ";: is this `;` one too many?",
];

// Words of other languages that begin a declaration or a thread, each with the keyword for it.
static DECLARATION_WORDS: [&str; 6] = [
    "int let mut const static volatile atomic shared: var",
    "bool byte long unsigned auto global atomic_int: var",
    "lock pthread_mutex_t: mutex",
    "condition condvar pthread_cond_t: cond",
    "semaphore sem_t: sem",
    "process proctype active fn func def void go: thread",
];

// What the row of a table says that has a word among its words.
fn said_of(table: &[&'static str], word: &str) -> Option<&'static str> {
    for row in table {
        let (words, said) = row.split_once(": ")?;
        for other in words.split(' ') {
            if other == word {
                return Some(said);
            }
        }
    }
    None
}

/// The keyword for a declaration or a thread that begins with this word, in this language or
/// another one, as `var` for `int`; `None` where none begins with the word.
pub fn declaration_keyword(word: &str) -> Option<&'static str> {
    said_of(&DECLARATION_WORDS, word).or(form_in(&DECLARATIONS, word).map(keyword_of))
}

/// What is told of a statement that begins with this word, in this language or another one: how it
/// is written, or what takes its place. `None` where nothing is known of the word.
pub fn statement_words(word: &str) -> Option<&'static str> {
    match said_of(&STATEMENT_WORDS, word) {
        Some(said) => Some(form(said).unwrap_or(said)),
        None => form_in(&STATEMENTS, word),
    }
}
