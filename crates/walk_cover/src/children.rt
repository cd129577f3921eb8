//! The children of an item: the items of the prefixes that are one step longer than its own.

ghost use Rattle.std.specs.Prelude.{◌≡◌, ◌++◌, ◌<◌, true, length, All, IfOk, OnOk};
ghost use Rattle.std.specs.List.{flat_map};
ghost use Rattle.semantics.specs.{Ends.is_terminal, Reachable.IsOf};
ghost use Rattle.walk_items.specs.{Children.mask_after, Items.state_of};
ghost use Rattle.walk_cover.specs.Prefixes.{is_entered, longer, further, IsComplete};

use semantics::mask::Mask;
use semantics::state::State;
use semantics_schedules::independence::sleep_set_after;
use std::alloc::{AllocError, Global};
use walk_items::item::Item;
use walk_items::mode::Mode;

// The state after the steps of an item's prefix.
fn state_at(alloc: Global, item: &Item) -> Result<State, AllocError>
    ensures value { IfOk result (λ s. s ≡ state_of item.now) }
    ensures of { IfOk result (IsOf item.now.program) }
{
    let program = item.program();
    let mut state = State::start(alloc, program)?;
    for thread in item.prefix() {
        state.step(program, *thread);
    }
    Ok(state)
}

// Whether a search in this mode goes on from an item's prefix by a step of a thread, if the thread
// is enabled: with sleep sets (`Reduced`) only if the thread doesn't sleep there, else always. A
// mode with equal threads once counts as the one with all.
fn is_entered(mode: Mode, item: &Item, thread: u8) -> bool
    ensures { result ≡ is_entered mode item.now thread }
{
    match mode {
        Mode::Bounded(_) | Mode::BoundedOnce(_) => true,
        Mode::Reduced | Mode::ReducedOnce => !item.mask().has(thread),
    }
}

// The threads that sleep after an item's prefix and a step of an enabled thread; none where
// the search has no sleep sets (`Bounded`), and with equal threads once those of the mode with all.
// `state` is the state after the prefix.
fn sleepers(mode: Mode, item: &Item, state: &State, thread: u8) -> Mask
    requires state { state.now ≡ state_of item.now }
    requires of { IsOf item.now.program state.now }
    requires thread { thread < length item.now.program.threads }
    ensures { result ≡ mask_after mode item.now thread }
{
    match mode {
        Mode::Bounded(_) | Mode::BoundedOnce(_) => Mask::empty(),
        Mode::Reduced | Mode::ReducedOnce => {
            let enabled = state.enabled(item.program());
            sleep_set_after(item.program(), state, enabled, item.mask(), thread)
        }
    }
}

// Appends the children of `item` to `items`: the items one step longer, one for each thread that is
// enabled in `state`, the state after its prefix, in the order of the threads; with sleep sets only
// for threads that don't sleep.
fn push_children(
    items: &mut Vec<Item>,
    alloc: Global,
    mode: Mode,
    item: &Item,
    state: &State,
) -> Result<(), AllocError>
    requires state { state.now ≡ state_of item.now }
    requires of { IsOf item.now.program state.now }
    ensures { OnOk result (items.new.items ≡ items.old.items ++ longer mode item.now) }
{
    for thread in 0..item.program().threads() {
        if state.is_enabled(item.program(), thread) && is_entered(mode, item, thread) {
            let mask = sleepers(mode, item, state, thread);
            items.push(item.with_prefix(alloc, item.prefix(), thread, mask)?)?;
        }
    }
    Ok(())
}

/// Appends the children of `item` to `items`: the items one step longer that a search in this mode
/// enters, in the order of the threads; or `item` itself, where its prefix is a complete schedule.
/// Answers whether it is one. Fails where memory runs out.
pub fn push_children_or_self(
    items: &mut Vec<Item>,
    alloc: Global,
    mode: Mode,
    item: &Item,
) -> Result<bool, AllocError>
    ensures items { OnOk result (items.new.items ≡ items.old.items ++ further mode item.now) }
    ensures complete { IfOk result (λ b. b ≡ is_terminal item.now.program (state_of item.now)) }
{
    let state = state_at(alloc, item)?;
    let is_complete = state.kind(item.program()).is_some();
    if is_complete {
        items.push(item.try_clone(alloc)?)?;
    } else {
        push_children(items, alloc, mode, item, &state)?;
    }
    Ok(is_complete)
}

/// The items of the prefixes of one length, also of complete schedules that are shorter.
#[derive(Drop)]
pub struct Layer {
    /// The items, in the rising order of their prefixes.
    pub items: Vec<Item>,
    /// Whether all prefixes are complete schedules, so that no layer has longer ones.
    pub is_last: bool,
}

/// The layer one step longer than that of these items: each item is replaced by the children that a
/// search in this mode enters, or stays if it is a complete schedule's. It is the last layer if all
/// stay. Fails where memory runs out.
pub fn next_layer(alloc: Global, mode: Mode, items: &[Item]) -> Result<Layer, AllocError>
    ensures items { IfOk result (λ l. l.items.items ≡ flat_map (further mode) items.now) }
    ensures last { IfOk result (λ l. l.is_last ≡ true → All IsComplete items.now) }
{
    let mut longer = Vec::new(alloc);
    let mut is_last = true;
    for item in items {
        let is_complete = push_children_or_self(&mut longer, alloc, mode, item)?;
        is_last = is_last && is_complete;
    }
    Ok(Layer {
        items: longer,
        is_last,
    })
}
