//! Laws of covers. A law is what its function ensures; the functions do nothing. A mode with equal
//! threads once counts as the one with all, its `plain` mode.

ghost use Rattle.std.specs.Prelude.{◌≡◌, ◌<◌, ◌≤◌, ℕ, true, false, List, map, All};
ghost use Rattle.std.specs.List.{flat_map};
ghost use Rattle.guest_code.specs.Program.{Program, IsWellFormed};
ghost use Rattle.semantics.specs.Machine.{start};
ghost use Rattle.semantics_schedules.specs.{Order.is_complete, Rising.IsRising};
ghost use Rattle.semantics_schedules.specs.Schedules.{preemptions, schedules_cut_at};
ghost use Rattle.semantics_schedules.specs.Sleep.{is_kept, none_asleep};
ghost use Rattle.walk_items.specs.Items.{ItemView, IsItem, root_of, item_sum, item_sums, whole, covers, everything};
ghost use Rattle.walk_items.specs.declared.mode.Mode.{Mode, TheVariants.{Bounded, Reduced}};
ghost use Rattle.walk_summary.specs.Summaries.{nothing, with_beyond};
ghost use Rattle.walk_cover.specs.{Covers.{IsCover, plain}, Prefixes.{prefixes_of, IsComplete}};

// Covers.

/// Each complete schedule of a program begins with the prefix of exactly one item of a cover; with
/// sleep sets, each that they leave.
pub fn each_schedule_begins_with_one_prefix()
    ensures complete { (p : Program) (bound : ℕ) (items : List ItemView) (w : List ℕ) →
        IsCover (Bounded bound) (root_of p) items → is_complete p (start p) w ≡ true →
        covers w items ≡ 1 }
    ensures pruned { (p : Program) (items : List ItemView) (w : List ℕ) →
        IsCover Reduced (root_of p) items → is_kept p (start p) none_asleep w ≡ true →
        covers w items ≡ 1 }
{}

/// The summaries of the items of a cover of a program join to the summary of all its schedules, and
/// those of a cover of an item to the summary of the item's schedules.
pub fn sums_over_a_cover_join()
    ensures program { (mode : Mode) (p : Program) (items : List ItemView) →
        IsCover mode (root_of p) items → whole p (plain mode) ≡ item_sums (plain mode) items }
    ensures item { (mode : Mode) (item : ItemView) (items : List ItemView) →
        IsCover mode item items → item_sum (plain mode) item ≡ item_sums (plain mode) items }
{}

/// The summary of the schedules of an item whose prefix has more preemptions than the bound says
/// that schedules are beyond the bound, and nothing else.
pub fn past_the_bound_nothing_is_summed()
    ensures { (i : ItemView) (bound : ℕ) → IsItem i → bound < preemptions i.program i.prefix →
        item_sum (Bounded bound) i ≡ with_beyond nothing true }
{}

/// An item with no schedule beyond a bound has the same summary of schedules at each greater bound.
pub fn where_nothing_is_beyond_the_sum_stays()
    ensures { (i : ItemView) (b c : ℕ) → b ≤ c → (item_sum (Bounded b) i).beyond ≡ false →
        item_sum (Bounded c) i ≡ item_sum (Bounded b) i }
{}

/// Where each item of a cover is replaced by the items of a cover of it, all these together are a
/// cover, too.
pub fn covers_of_parts_are_a_cover()
    ensures { (mode : Mode) (item : ItemView) (items : List ItemView)
        (parts : ItemView → List ItemView) → IsCover mode item items →
        All (λ i. IsCover mode i (parts i)) items → IsCover mode item (flat_map parts items) }
{}

// Prefixes of a length.

/// The prefixes of a length are a cover of the program, and rise in the order of schedules.
pub fn prefixes_of_a_length_are_a_cover()
    ensures cover { (mode : Mode) (p : Program) (n : ℕ) → IsWellFormed p →
        IsCover mode (root_of p) (prefixes_of mode p n) }
    ensures rising { (mode : Mode) (p : Program) (n : ℕ) → IsWellFormed p →
        IsRising (map (λ i. i.prefix) (prefixes_of mode p n)) }
{}

/// Without sleep sets, the prefixes of a length are the schedules cut short at that length. Where
/// each prefix is complete, they are the complete schedules of the program, or, with sleep sets,
/// those that these leave.
pub fn prefixes_are_schedules_cut_short()
    ensures cut { (p : Program) (bound n : ℕ) → IsWellFormed p →
        map (λ i. i.prefix) (prefixes_of (Bounded bound) p n) ≡ schedules_cut_at n p (start p) }
    ensures all { (mode : Mode) (p : Program) (n : ℕ) → IsWellFormed p →
        All IsComplete (prefixes_of mode p n) →
        map (λ i. i.prefix) (prefixes_of mode p n) ≡ everything (plain mode) (root_of p) }
{}

/// The prefixes of a length are the same at each bound, and a cover at one bound is one at each.
pub fn covers_are_the_same_at_each_bound()
    ensures prefixes { (p : Program) (a b n : ℕ) →
        prefixes_of (Bounded a) p n ≡ prefixes_of (Bounded b) p n }
    ensures cover { (a b : ℕ) (item : ItemView) (items : List ItemView) →
        IsCover (Bounded a) item items → IsCover (Bounded b) item items }
{}
