//! The depth-first search of a walk: it takes a next step, or backtracks to the node of a frame.

ghost use Rattle.std.specs.Prelude.{◌≡◌, ◌+◌, ◌-◌, ◌++◌, ◌∷◌, ◌<◌, ◌≤◌, ◌&&◌, ◌||◌, not, [], ℕ, true, false, map};
ghost use Rattle.std.specs.Prelude.{IfOk, Some, OnOk, IsTrue, IsFalse, length, take, min, All};
ghost use Rattle.guest_code.specs.declared.limits.TheConstants.{THREADS};
ghost use Rattle.semantics.specs.{Ends.is_empty, Machine.is_enabled};
ghost use Rattle.semantics.specs.Mask.{HasEnabled, has, members_from};
ghost use Rattle.walk_items.specs.{Children.{child_of, is_hidden_after, mask_after, cost_of}, Items.IsItem};
ghost use Rattle.walk_summary.specs.Summaries.{IsSummary, with_beyond, greatest_count};
ghost use Rattle.walk.specs.{Founds.HasAdded, inner.Paths.{IsPath, state_at}};
ghost use Rattle.walk.specs.inner.WalkerInvariant.{IsPlace, Searches, GoesOn, IsPushedIfOpen, here, open_here, open_below, still_open};
ghost use Rattle.walk.specs.inner.WalkerInvariant.{turns_left, turns_from, turns_into, turns_next, open_next, is_kept_at, is_past_at, is_once};
ghost use Rattle.walk.specs.inner.WalkerInvariant.{is_past_here, has_bound, IsFree, at_bound, IsShared, HasPut};
ghost use Rattle.walk.specs.inner.WalkerInvariant.{IsToSearch, HasSearched, Begins};

use crate::found::Found;
use crate::path::{Node, Path};
use guest_code::program::Program;
use semantics::mask::Mask;
use std::alloc::{AllocError, Global};
use walk_items::item::Item;
use walk_items::mode::Mode;

impl Found {
    // Defers a thread's step from the node to which the first `place` of `steps` lead: lists the
    // prefix that ends in that step, and notes that some schedule has more preemptions than the
    // bound. `steps` is changed to write the prefix, and then changed back. `shared`, the number of
    // steps that the walk has in common with the prefix deferred last, is `place` then.
    fn defer_one(&mut self, steps: &mut Vec<u8>, place: usize, thread: u8) -> Result<(), AllocError>
        requires place { place < length steps.old.items }
        requires shared { IsShared (take place steps.old.items) self.old }
        ensures steps { steps.new.items ≡ steps.old.items }
        ensures rest { self.new.rest ≡ self.old.rest }
        ensures part { OnOk result (self.new.part ≡ with_beyond self.old.part true) }
        ensures lists { self.new.lists ≡ self.old.lists }
        ensures deferred { OnOk result (self.new.deferred
            ≡ self.old.deferred ++ (take place steps.old.items ++ thread ∷ []) ∷ []) }
        ensures shared { OnOk result (IsShared (take place steps.old.items) self.new) }
        ensures here { OnOk result (self.new.shared ≡ place) }
    {
        let taken = steps[place];
        steps[place] = thread;
        let pushed = self
            .deferred
            .push_after(self.shared, &steps[self.shared..place + 1]);
        steps[place] = taken;
        pushed?;
        self.part.set_beyond();
        self.shared = place;
        Ok(())
    }

    // Defers steps of the threads `past`, each past the bound, from the node after `_steps`, where
    // the prefix deferred last ends in a step from that node, too: so only last steps are written.
    fn defer_siblings(&mut self, _steps: &[u8], past: Mask) -> Result<(), AllocError>
        requires shared { IsShared _steps.now self.old }
        requires here { self.old.shared ≡ length _steps.now }
        ensures same { self.new ≡ record self.old { deferred = self.new.deferred } }
        ensures deferred { OnOk result (self.new.deferred ≡ self.old.deferred
            ++ map (λ t. _steps.now ++ t ∷ []) (members_from past 0)) }
        ensures shared { OnOk result (IsShared _steps.now self.new) }
    {
        let mut left = past;
        while let Some(thread) = left.first_from(0) {
            self.deferred.push_after(self.shared, &[thread])?;
            left = without_first(left, thread);
        }
        Ok(())
    }

    // Defers steps of the threads `past`, whose least is `first`, from the node to which the first
    // `place` of `steps` lead: lists the prefixes that end in these steps, each past the bound. With
    // `inline(always)` a run would be too large to be inlined itself.
    fn defer_all(
        &mut self,
        steps: &mut Vec<u8>,
        place: usize,
        past: Mask,
        first: u8,
    ) -> Result<(), AllocError>
        requires place { place < length steps.old.items }
        requires shared { IsShared (take place steps.old.items) self.old }
        requires first { members_from past 0 ≡ first ∷ members_from past (first + 1) }
        requires least { (u : ℕ) → u < first → has past u ≡ false }
        requires fits { first < THREADS }
        ensures steps { steps.new.items ≡ steps.old.items }
        ensures rest { self.new.rest ≡ self.old.rest }
        ensures part { OnOk result (self.new.part ≡ with_beyond self.old.part true) }
        ensures lists { self.new.lists ≡ self.old.lists }
        ensures deferred { OnOk result (self.new.deferred ≡ self.old.deferred
            ++ map (λ t. take place steps.old.items ++ t ∷ []) (members_from past 0)) }
        ensures shared { OnOk result (IsShared (take place steps.old.items) self.new) }
    {
        self.defer_one(steps, place, first)?;
        self.defer_siblings(&steps[..place], without_first(past, first))
    }

    // Defers the steps of the threads in `past` from the node to which the first `place` of `steps`
    // lead: each would be past the bound. If there are any, notes that some schedule has more
    // preemptions than the bound and, where deferred prefixes are listed, lists those of the steps.
    #[inline(always)]
    pub(crate) fn defer(
        &mut self,
        steps: &mut Vec<u8>,
        place: usize,
        past: Mask,
    ) -> Result<(), AllocError>
        requires place { place < length steps.old.items }
        requires shared { IsShared (take place steps.old.items) self.old }
        ensures steps { steps.new.items ≡ steps.old.items }
        ensures rest { self.new.rest ≡ self.old.rest }
        ensures part { OnOk result (self.new.part ≡ with_beyond self.old.part
            (self.old.part.beyond || not (is_empty (members_from past 0)))) }
        ensures put { OnOk result (HasPut self.old
            (map (λ t. take place steps.old.items ++ t ∷ []) (members_from past 0)) self.new) }
        ensures shared { OnOk result (IsShared (take place steps.old.items) self.new) }
    {
        let Some(first) = past.first_from(0) else {
            return Ok(());
        };
        if !self.lists {
            self.part.set_beyond();
            return Ok(());
        }
        self.defer_all(steps, place, past, first)
    }

    // Whether nothing is left to note of what is deferred: it isn't listed, and it is known that
    // there is something.
    fn has_noted_all(&self) -> bool
        ensures { result ≡ (not self.now.lists && self.now.part.beyond) }
    {
        !self.lists & self.part.beyond()
    }

    // Whether fewer schedules were tried than `limit`.
    fn is_below_limit(&self, limit: u64) -> bool
        ensures below { IsTrue result → self.now.part.tried < limit }
        ensures full { IsFalse result → limit ≤ self.now.part.tried }
    {
        self.part.tried() < limit
    }

    // Notes that the walk has backtracked to the node after its first `steps` steps: lowers
    // `shared`, the number of first steps that the walk has in common with the prefix that was
    // deferred last.
    fn lower_shared(&mut self, steps: usize)
        ensures { self.new ≡ record self.old { shared = min self.old.shared steps } }
    {
        self.shared = self.shared.min(steps);
    }
}

// The set without `first`, which is its least member.
fn without_first(set: Mask, first: u8) -> Mask
    requires first { members_from set 0 ≡ first ∷ members_from set (first + 1) }
    requires least { (u : ℕ) → u < first → has set u ≡ false }
    requires fits { first < THREADS }
    ensures { members_from set 0 ≡ first ∷ members_from result 0 }
{
    set.with(first, false)
}

// Whether the walk of an item begins before the last step of its prefix: in a mode with a bound,
// if there is such a step. Masks don't count there, so that step leads to the item.
fn has_parent(item: &Item, mode: Mode) -> bool
    ensures bound { IsTrue result → has_bound mode ≡ true }
    ensures some { IsTrue result → 0 < length item.now.prefix }
    ensures none { IsFalse result → has_bound mode ≡ true → item.now.prefix ≡ [] }
{
    match mode {
        Mode::Bounded(_) => !item.prefix().is_empty(),
        Mode::BoundedOnce(_) => !item.prefix().is_empty(),
        Mode::Reduced => false,
        Mode::ReducedOnce => false,
    }
}

impl Node {
    // The threads of `enabled` whose steps from the node are to be tried unless they are hidden: in a
    // mode without a bound those that don't sleep. No step passes the bound, as the caller makes
    // sure.
    fn awake(&self, enabled: Mask, mode: Mode) -> Mask
        requires { (t : ℕ) → (has enabled t && is_past_at mode enabled self.now t) ≡ false }
        ensures { (t : ℕ) → has result t ≡ (has enabled t && is_kept_at mode enabled self.now t) }
    {
        match mode {
            Mode::Bounded(_) => enabled,
            Mode::BoundedOnce(_) => enabled,
            Mode::Reduced => enabled.difference(self.asleep),
            Mode::ReducedOnce => enabled.difference(self.asleep),
        }
    }

    // Whether `thread`, the one of the last step, alone may step within the bound: the node is at
    // the bound, and `thread` is enabled, so that a step of another thread is one preemption too
    // many.
    fn is_alone(&self, enabled: Mask, mode: Mode, thread: u8) -> bool
        ensures { result ≡ (at_bound mode self.now && has enabled thread) }
    {
        self.is_at_bound(mode) && enabled.has(thread)
    }

    // Whether the node has more preemptions than the bound; false in the mode without a bound.
    fn is_past_bound(&self, mode: Mode) -> bool
        ensures { result ≡ is_past_here mode self.now }
    {
        match mode {
            Mode::Bounded(bound) => self.used > bound,
            Mode::BoundedOnce(bound) => self.used > bound,
            Mode::Reduced => false,
            Mode::ReducedOnce => false,
        }
    }
}

impl Path {
    // The threads of `asked` that aren't hidden at the node, where these are enabled: all of them
    // unless the mode tries equal threads once.
    #[inline(always)]
    fn seen(&self, program: &Program, mode: Mode, enabled: Mask, asked: Mask) -> Mask
        requires path { IsPath program.now self.now }
        requires enabled { HasEnabled enabled program.now
            (state_at program.now self.now.steps.items) }
        ensures { (t : ℕ) → has result t
            ≡ (has asked t && not (is_hidden_after mode (here program.now self.now) t)) }
    {
        match mode {
            Mode::Bounded(_) => asked,
            Mode::Reduced => asked,
            Mode::BoundedOnce(_) => self.machine.seen(program, enabled, asked, self.node.last),
            Mode::ReducedOnce => self.machine.seen(program, enabled, asked, None),
        }
    }

    // The threads that sleep after a step of an enabled thread from the node; none in a mode with a
    // bound, where sleep sets aren't used.
    #[inline(always)]
    fn sleepers(&self, program: &Program, mode: Mode, thread: u8) -> Mask
        requires path { IsPath program.now self.now }
        requires enabled { is_enabled program.now
            (state_at program.now self.now.steps.items) thread ≡ true }
        ensures { result ≡ mask_after mode (here program.now self.now) thread }
    {
        match mode {
            Mode::Bounded(_) => Mask::empty(),
            Mode::BoundedOnce(_) => Mask::empty(),
            Mode::Reduced => self
                .machine
                .sleep_set_after(program, self.node.asleep, thread),
            Mode::ReducedOnce => self
                .machine
                .sleep_set_after(program, self.node.asleep, thread),
        }
    }

    // Sets whose steps from the node are to be tried. Where no thread is enabled, the schedule to
    // the node is complete: it is added to what was tried. No step passes the bound, as the caller
    // makes sure.
    #[inline(always)]
    fn expand(
        &mut self,
        alloc: Global,
        found: &mut Found,
        item: &Item,
        mode: Mode,
    ) -> Result<(), AllocError>
        requires search { Searches mode item.now self.old found.old
            (open_here mode item.now.program self.old) }
        requires free { IsFree mode item.now.program self.old }
        ensures place { IsPlace item.now.program self.new }
        ensures search { let p = item.now.program in OnOk result (GoesOn mode item.now
            self.old found.old (open_here mode p self.old)
            self.new found.new (still_open mode p self.new)) }
        ensures falls { OnOk result (turns_left mode item.now.program self.new + 2
            ≤ turns_from mode item.now.program self.old) }
        ensures tried { OnOk result (found.new.part.tried ≤ found.old.part.tried + 1) }
        ensures more { OnOk result (is_empty (members_from self.new.node.todo 0) ≡ false →
            found.new.part.tried ≡ found.old.part.tried) }
    {
        let enabled = self.machine.enabled();
        let awake = self.node.awake(enabled, mode);
        self.node.todo = self.seen(item.program(), mode, enabled, awake);
        match enabled.first_from(0) {
            Some(_) => Ok(()),
            None => {
                let kind = self.machine.kind();
                found.part.add(
                    alloc,
                    &mut self.ends,
                    self.steps.as_slice(),
                    kind,
                    self.machine.variables(),
                )?;
                Ok(())
            }
        }
    }

    // Where `thread`, that of the last step, alone may step within the bound, defers the steps of
    // the other enabled threads. Answers whether it alone may. Its step is pushed as the place for
    // theirs, and popped again.
    #[inline(always)]
    fn defer_others_if_alone(
        &mut self,
        found: &mut Found,
        item: &Item,
        mode: Mode,
        thread: u8,
    ) -> Result<bool, AllocError>
        requires search { Searches mode item.now self.old found.old
            (open_here mode item.now.program self.old) }
        requires last { self.old.node.last ≡ Some thread }
        ensures path { IsPath item.now.program self.new }
        ensures steps { self.new.steps.items ≡ self.old.steps.items }
        ensures search { let p = item.now.program in IfOk result (λ on. GoesOn mode item.now
            self.old found.old (open_here mode p self.old)
            self.new found.new (open_next mode p self.new thread on)) }
        ensures free { IfOk result (λ on. on ≡ false → IsFree mode item.now.program self.new) }
        ensures falls { IfOk result (λ on. turns_next mode item.now.program self.new thread on
            ≤ turns_from mode item.now.program self.old) }
        ensures tried { OnOk result (found.new.part.tried ≡ found.old.part.tried) }
    {
        let enabled = self.machine.enabled();
        if !self.node.is_alone(enabled, mode, thread) {
            return Ok(false);
        }
        let others = enabled.with(thread, false);
        let past = self.seen(item.program(), mode, enabled, others);
        let place = self.steps.len();
        self.steps.push(thread)?;
        let deferred = found.defer(&mut self.steps, place, past);
        self.steps.pop();
        deferred?;
        Ok(true)
    }

    // Takes a run of a thread whose step from the node is still to be tried: that step, and, if it
    // leads to the bound, further ones, as long as the same threads are enabled, or any if nothing
    // is left to note of others. From the nodes within the run, their steps would pass the bound:
    // they are deferred.
    #[inline(always)]
    fn take_run(
        &mut self,
        found: &mut Found,
        item: &Item,
        mode: Mode,
        thread: u8,
    ) -> Result<(), AllocError>
        requires search { Searches mode item.now self.old found.old
            (open_below mode item.now.program self.old thread) }
        ensures path { IsPath item.now.program self.new }
        ensures last { OnOk result (self.new.node.last ≡ Some thread) }
        ensures further { OnOk result
            (length self.old.steps.items < length self.new.steps.items) }
        ensures search { let p = item.now.program in OnOk result (GoesOn mode item.now
            self.old found.old (open_below mode p self.old thread)
            self.new found.new (open_here mode p self.new)) }
        ensures falls { OnOk result (turns_from mode item.now.program self.new
            ≤ turns_into mode item.now.program self.old thread) }
        ensures tried { OnOk result (found.new.part.tried ≡ found.old.part.tried) }
    {
        let program = item.program();
        let asleep = self.sleepers(program, mode, thread);
        let from = self.steps.len();
        let heedless = found.has_noted_all();
        let run = self.extend(program, mode, thread, asleep, heedless)?;
        let settled = heedless | !self.node.runs_on(mode);
        if settled {
            return Ok(());
        }
        let others = run.among.with(thread, false);
        for place in from + 1..self.steps.len() {
            found.defer(&mut self.steps, place, others)?;
        }
        Ok(())
    }

    // Takes runs of a thread whose step from the node is still to be tried: one, and further ones
    // as long as it alone may step within the bound, where the steps of others are deferred.
    #[inline(always)]
    fn run(
        &mut self,
        found: &mut Found,
        item: &Item,
        mode: Mode,
        thread: u8,
    ) -> Result<(), AllocError>
        requires search { Searches mode item.now self.old found.old
            (open_below mode item.now.program self.old thread) }
        ensures path { IsPath item.now.program self.new }
        ensures search { let p = item.now.program in OnOk result (GoesOn mode item.now
            self.old found.old (open_below mode p self.old thread)
            self.new found.new (open_here mode p self.new)) }
        ensures free { OnOk result (IsFree mode item.now.program self.new) }
        ensures falls { OnOk result (turns_from mode item.now.program self.new
            ≤ turns_into mode item.now.program self.old thread) }
        ensures tried { OnOk result (found.new.part.tried ≡ found.old.part.tried) }
    {
        let mut going = true;
        while going {
            self.take_run(found, item, mode, thread)?;
            going = self.defer_others_if_alone(found, item, mode, thread)?;
        }
        Ok(())
    }

    // Pushes a frame of the node, to backtrack to, if a further step from it is to be tried.
    #[inline(always)]
    fn push_frame_if_open(&mut self, program: &Program) -> Result<(), AllocError>
        requires { IsPlace program.now self.old }
        ensures path { IsPath program.now self.new }
        ensures place { OnOk result (IsPlace program.now self.new) }
        ensures pushed { OnOk result (IsPushedIfOpen program.now self.old self.new) }
    {
        match self.node.todo.first_from(0) {
            Some(_) => self.push_frame(program),
            None => Ok(()),
        }
    }

    // Takes runs of a thread whose step from the node was to be tried. Before, pushes a frame of
    // the node, if further steps from it are to be tried. After, sets whose steps from the new node
    // are to be tried; where no thread is enabled there, adds the schedule to what was tried.
    #[inline(always)]
    fn take_branch(
        &mut self,
        alloc: Global,
        found: &mut Found,
        item: &Item,
        mode: Mode,
        thread: u8,
    ) -> Result<(), AllocError>
        requires search { let p = item.now.program in Searches mode item.now self.old found.old
            (child_of mode (here p self.old) thread ∷ still_open mode p self.old) }
        ensures path { IsPath item.now.program self.new }
        ensures search { let p = item.now.program in OnOk result (GoesOn mode item.now
            self.old found.old
            (child_of mode (here p self.old) thread ∷ still_open mode p self.old)
            self.new found.new (still_open mode p self.new)) }
        ensures further { OnOk result (turns_left mode item.now.program self.new
            < cost_of (child_of mode (here item.now.program self.old) thread)
            + turns_left mode item.now.program self.old) }
        ensures tried { OnOk result (found.new.part.tried ≤ found.old.part.tried + 1) }
        ensures more { OnOk result (is_empty (members_from self.new.node.todo 0) ≡ false →
            found.new.part.tried ≡ found.old.part.tried) }
    {
        self.push_frame_if_open(item.program())?;
        self.run(found, item, mode, thread)?;
        self.expand(alloc, found, item, mode)
    }

    // Pops the last frame, and goes back to its node. False where the path has only the frames that
    // it had when the walk began: then none is popped, and nothing of the item is open any more.
    #[inline(always)]
    fn pop_frame(&mut self, program: &Program, _mode: Mode) -> bool
        requires place { IsPlace program.now self.old }
        requires done { members_from self.old.node.todo 0 ≡ [] }
        ensures place { IsPlace program.now self.new }
        ensures same { still_open _mode program.now self.new
            ≡ still_open _mode program.now self.old }
        ensures steps { self.new.steps.items
            ≡ take (length self.new.steps.items) self.old.steps.items }
        ensures further { IsTrue result →
            turns_left _mode program.now self.new < turns_left _mode program.now self.old }
        ensures over { IsFalse result → still_open _mode program.now self.new ≡ [] }
        ensures there { IsFalse result →
            turns_left _mode program.now self.new ≡ turns_left _mode program.now self.old }
    {
        let depth = self.depth;
        if depth == self.base {
            return false;
        }
        self.pop_to(program, depth - 1);
        true
    }

    // Backtracks to the node of the last frame, and notes it in `found`. False where the path has
    // only the frames that it had when the walk began: then nothing of the item is open any more.
    #[inline(always)]
    fn backtrack(&mut self, found: &mut Found, item: &Item, mode: Mode) -> bool
        requires search { Searches mode item.now self.old found.old
            (still_open mode item.now.program self.old) }
        requires done { members_from self.old.node.todo 0 ≡ [] }
        ensures search { let p = item.now.program in GoesOn mode item.now
            self.old found.old (still_open mode p self.old)
            self.new found.new (still_open mode p self.new) }
        ensures further { IsTrue result →
            turns_left mode item.now.program self.new < turns_left mode item.now.program self.old }
        ensures over { IsFalse result → still_open mode item.now.program self.new ≡ [] }
        ensures there { IsFalse result →
            turns_left mode item.now.program self.new ≡ turns_left mode item.now.program self.old }
        ensures tried { found.new.part.tried ≡ found.old.part.tried }
    {
        let more = self.pop_frame(item.program(), mode);
        found.lower_shared(self.steps.len());
        more
    }

    // The search in one mode: takes steps that are still to be tried, depth first, and backtracks
    // where a node has none, until `found` counts `limit` schedules or none of the item is left.
    #[inline(always)]
    fn search_in(
        &mut self,
        alloc: Global,
        found: &mut Found,
        item: &Item,
        mode: Mode,
        limit: u64,
    ) -> Result<(), AllocError>
        requires { IsToSearch mode item.now limit self.old found.old }
        ensures path { IsPath item.now.program self.new }
        ensures searched { OnOk result
            (HasSearched mode item.now limit self.old found.old self.new found.new) }
    {
        let mut going = true;
        while going && found.is_below_limit(limit) {
            match self.node.todo.first_from(0) {
                Some(thread) => {
                    self.node.todo = without_first(self.node.todo, thread);
                    self.take_branch(alloc, found, item, mode, thread)?;
                }
                None => going = self.backtrack(found, item, mode),
            }
        }
        Ok(())
    }

    // Takes steps that are still to be tried, depth first, until `found` counts `limit` schedules
    // or none of the item is left.
    fn search(
        &mut self,
        alloc: Global,
        found: &mut Found,
        item: &Item,
        mode: Mode,
        limit: u64,
    ) -> Result<(), AllocError>
        requires { IsToSearch mode item.now limit self.old found.old }
        ensures path { IsPath item.now.program self.new }
        ensures searched { OnOk result
            (HasSearched mode item.now limit self.old found.old self.new found.new) }
    {
        match mode {
            Mode::Bounded(_) => self.search_all(alloc, found, item, mode, limit),
            Mode::Reduced => self.search_all(alloc, found, item, mode, limit),
            Mode::BoundedOnce(_) => self.search_once(alloc, found, item, mode, limit),
            Mode::ReducedOnce => self.search_once(alloc, found, item, mode, limit),
        }
    }

    // The search where equal threads are all tried: `search_in` is compiled to a loop for each arm,
    // which knows its mode. With more loops beside these less would be inlined in each.
    #[inline(never)]
    fn search_all(
        &mut self,
        alloc: Global,
        found: &mut Found,
        item: &Item,
        mode: Mode,
        limit: u64,
    ) -> Result<(), AllocError>
        requires plain { is_once mode ≡ false }
        requires ready { IsToSearch mode item.now limit self.old found.old }
        ensures path { IsPath item.now.program self.new }
        ensures searched { OnOk result
            (HasSearched mode item.now limit self.old found.old self.new found.new) }
    {
        match mode {
            Mode::Bounded(_) => self.search_in(alloc, found, item, mode, limit),
            Mode::Reduced => self.search_in(alloc, found, item, mode, limit),
            Mode::BoundedOnce(_) => unreachable!(),
            Mode::ReducedOnce => unreachable!(),
        }
    }

    // The search where equal threads are tried once.
    #[inline(never)]
    fn search_once(
        &mut self,
        alloc: Global,
        found: &mut Found,
        item: &Item,
        mode: Mode,
        limit: u64,
    ) -> Result<(), AllocError>
        requires once { is_once mode ≡ true }
        requires ready { IsToSearch mode item.now limit self.old found.old }
        ensures path { IsPath item.now.program self.new }
        ensures searched { OnOk result
            (HasSearched mode item.now limit self.old found.old self.new found.new) }
    {
        match mode {
            Mode::Bounded(_) => unreachable!(),
            Mode::Reduced => unreachable!(),
            Mode::BoundedOnce(_) => self.search_in(alloc, found, item, mode, limit),
            Mode::ReducedOnce => self.search_in(alloc, found, item, mode, limit),
        }
    }

    // Appends the item of the next step that is still to be tried from the node to `rest`, or pops
    // a frame where there is no such step. False where nothing of the walked item is open any more.
    fn drain_or_pop(
        &mut self,
        alloc: Global,
        item: &Item,
        mode: Mode,
        rest: &mut Vec<Item>,
    ) -> Result<bool, AllocError>
        requires place { IsPlace item.now.program self.old }
        requires items { All IsItem (still_open mode item.now.program self.old) }
        ensures place { IsPlace item.now.program self.new }
        ensures items { OnOk result (All IsItem (still_open mode item.now.program self.new)) }
        ensures rest { OnOk result (rest.new.items ++ still_open mode item.now.program self.new
            ≡ rest.old.items ++ still_open mode item.now.program self.old) }
        ensures further { IfOk result (λ more. IsTrue more →
            turns_left mode item.now.program self.new < turns_left mode item.now.program self.old) }
        ensures over { IfOk result (λ more. IsFalse more
            → still_open mode item.now.program self.new ≡ []) }
        ensures there { IfOk result (λ more. IsFalse more →
            turns_left mode item.now.program self.new ≡ turns_left mode item.now.program self.old) }
    {
        match self.node.todo.first_from(0) {
            None => Ok(self.pop_frame(item.program(), mode)),
            Some(thread) => {
                self.node.todo = without_first(self.node.todo, thread);
                let asleep = self.sleepers(item.program(), mode, thread);
                let child = item.with_prefix(alloc, self.steps.as_slice(), thread, asleep)?;
                rest.push(child)?;
                Ok(true)
            }
        }
    }

    // Appends items of all that is still open of the walked item to `rest`, in the order of their
    // schedules: an item for each step that is still to be tried, from the node or from a frame's.
    fn drain(
        &mut self,
        alloc: Global,
        item: &Item,
        mode: Mode,
        rest: &mut Vec<Item>,
    ) -> Result<(), AllocError>
        requires place { IsPlace item.now.program self.old }
        requires items { All IsItem (still_open mode item.now.program self.old) }
        ensures place { IsPlace item.now.program self.new }
        ensures rest { OnOk result (rest.new.items
            ≡ rest.old.items ++ still_open mode item.now.program self.old) }
    {
        let mut going = true;
        while going {
            going = self.drain_or_pop(alloc, item, mode, rest)?;
        }
        Ok(())
    }

    // Begins the walk of an item at the node before the last step of its prefix, in a mode with a
    // bound. This step alone is to be tried from there, so that the search takes it with its run.
    // False where it passes the bound.
    fn begin_at_parent(
        &mut self,
        found: &mut Found,
        item: &Item,
        mode: Mode,
    ) -> Result<bool, AllocError>
        requires path { IsPath item.now.program self.old }
        requires sound { IsSummary found.old.part }
        requires bound { has_bound mode ≡ true }
        requires some { 0 < length item.now.prefix }
        ensures path { IsPath item.now.program self.new }
        ensures begun { IfOk result (Begins mode item.now found.old self.new found.new) }
    {
        let prefix = item.prefix();
        let place = prefix.len() - 1;
        let last = prefix[place];
        self.replay(item.program(), &prefix[..place])?;
        self.node.todo = Mask::empty().with(last, true);
        found.set_shared(&self.steps);
        let mut node = self.node;
        node.step(self.machine.enabled(), last, Mask::empty());
        Ok(!node.is_past_bound(mode))
    }

    // Begins the walk of an item: sets what is to be tried first. False where the item's own prefix
    // has more preemptions than the bound. A node that is expanded here has no step that passes the
    // bound: there is no bound, or it is the root.
    fn begin(
        &mut self,
        alloc: Global,
        found: &mut Found,
        item: &Item,
        mode: Mode,
    ) -> Result<bool, AllocError>
        requires path { IsPath item.now.program self.old }
        requires sound { IsSummary found.old.part }
        ensures path { IsPath item.now.program self.new }
        ensures begun { IfOk result (Begins mode item.now found.old self.new found.new) }
    {
        if has_parent(item, mode) {
            return self.begin_at_parent(found, item, mode);
        }
        self.replay(item.program(), item.prefix())?;
        self.node.asleep = item.mask();
        found.set_shared(&self.steps);
        self.expand(alloc, found, item, mode)?;
        Ok(true)
    }

    /// Tries the first schedules of an item, at most `quota`, and adds them, the items that it
    /// leaves and the prefixes that it defers to `found`. Where the item's own prefix has more
    /// preemptions than the bound, only notes that some schedule has. `ends` is called for its
    /// contract alone. Fails where memory runs out.
    pub fn walk(
        &mut self,
        alloc: Global,
        found: &mut Found,
        item: &Item,
        mode: Mode,
        quota: u32,
    ) -> Result<(), AllocError>
        requires path { IsPath item.now.program self.old }
        requires quota { 1 ≤ quota }
        requires room { found.old.part.tried + quota < greatest_count }
        ensures path { IsPath item.now.program self.new }
        ensures added { OnOk result (HasAdded mode item.now quota found.old found.new) }
    {
        let _ends = found.part.ends();
        let limit = found.part.tried() + u64::from(quota);
        if !self.begin(alloc, found, item, mode)? {
            found.part.set_beyond();
            return Ok(());
        }
        self.search(alloc, found, item, mode, limit)?;
        self.drain(alloc, item, mode, &mut found.rest)
    }
}
