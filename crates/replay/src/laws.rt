//! Laws of the definitions.

ghost use Rattle.std.specs.Prelude.{◌≡◌, ◌≢◌, ◌<◌, ◌^◌, ◌++◌, ◌∷◌, ℕ, List, All, length, map, false};
ghost use Rattle.guest_code.specs.Program.{Program, IsWellFormed};
ghost use Rattle.semantics.specs.Machine.{start};
ghost use Rattle.semantics_schedules.specs.Schedules.{runs};
ghost use Rattle.replay.specs.Run.{Run, IsFirstBad, IsRunOf};
ghost use Rattle.replay.specs.Spelling.{Spells, IsBadAt, IsTooLongAt, ScheduleErrorMeans, printed, pieces_of, piece_text, runs_of, steps_of};
ghost use Rattle.replay.specs.{Trace.IsValidRun, declared.error.ScheduleError.ScheduleError};
ghost use Rattle.replay.specs.declared.piece.{Piece.Piece, TheConstants.NUMBERS};
ghost use Rattle.replay.specs.declared.schedule.TheConstants.{PLACES};

/// A schedule with a first bad place, the first whose thread isn't enabled there, doesn't run, and
/// has no other first bad place. So `replay` answers a schedule that runs by its run, and any other
/// by its first bad place, unless memory runs out.
pub fn one_place_is_the_first_bad()
    ensures fails { (p : Program) (w : List ℕ) (k : ℕ) →
        IsFirstBad p w k → runs p (start p) w ≡ false }
    ensures one { (p : Program) (w : List ℕ) (j k : ℕ) →
        IsFirstBad p w j → IsFirstBad p w k → j ≡ k }
{}

/// The run of a schedule in a well formed program is as `trace_text` requires: it has threads and
/// objects of the program alone, whose names can be printed, and a value for each variable.
pub fn runs_can_be_printed()
    ensures { (p : Program) (w : List ℕ) (r : Run) →
        IsWellFormed p → IsRunOf p w r → IsValidRun p r }
{}

/// A text spells at most one schedule.
pub fn a_text_spells_one_schedule()
    ensures { (text v w : List ℕ) → Spells text v → Spells text w → v ≡ w }
{}

/// A text that is refused spells no schedule, or only one of more than `PLACES` places.
pub fn a_refused_text_spells_nothing_short()
    ensures bad { (text w : List ℕ) (at : ℕ) → IsBadAt text at → Spells text w → ⊥ }
    ensures long { (text w : List ℕ) (at : ℕ) →
        IsTooLongAt text at → Spells text w → PLACES < length w }
{}

/// At most one error fits a text. So `schedule_from` answers a text that spells a schedule of at
/// most `PLACES` places by that schedule, or says that memory ran out, and any other text by the
/// one error that fits it.
pub fn one_error_fits_a_text()
    ensures { (text : List ℕ) (e f : ScheduleError) →
        ScheduleErrorMeans text e → ScheduleErrorMeans text f → e ≡ f }
{}

/// `PLACES`, the most places (one for each step) of a schedule that `schedule_from` reads, is
/// 32,768: two for each instruction of each thread of the largest program.
pub fn limit_of_places_is_32768()
    ensures { PLACES ≡ 32768 }
{}

/// The printed spelling of a schedule of thread numbers below `NUMBERS` spells it and no other. So
/// it is read back, where it isn't too long for that, and no two schedules are printed alike.
pub fn the_printed_spelling_is_read_back()
    ensures spells { (w : List ℕ) →
        All (λ t. t < NUMBERS) w → length w < 2 ^ 64 → Spells (printed w) w }
    ensures once { (text v w : List ℕ) →
        text ≡ printed w → Spells text v → All (λ t. t < NUMBERS) w → length w < 2 ^ 64 → v ≡ w }
{}

/// The pieces of the printed spelling are the longest runs of the schedule: together they are its
/// steps, none is empty, and no two neighbours are of one thread.
pub fn the_longest_runs_are_printed()
    ensures pieces { (w : List ℕ) →
        All (λ t. t < NUMBERS) w → length w < 2 ^ 64 →
        pieces_of (printed w) ≡ map piece_text (runs_of w) }
    ensures steps { (w : List ℕ) → steps_of (runs_of w) ≡ w }
    ensures some { (w : List ℕ) → All (λ run. 0 < run.count) (runs_of w) }
    ensures apart { (w : List ℕ) (before after : List Piece) (a b : Piece) →
        runs_of w ≡ before ++ a ∷ b ∷ after → a.thread ≢ b.thread }
{}
