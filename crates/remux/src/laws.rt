ghost use Rattle.std.specs.Prelude.{ℕ, ◌+◌, ◌≡◌, ◌≤◌, List, Some, length, slice_get};
ghost use Rattle.std.specs.List.{AllByRecursion};
ghost use Rattle.mse_base.specs.declared.track.Kind.{Kind};
ghost use Rattle.sample_tables.specs.declared.sample.Sample.{Sample};
ghost use Rattle.sample_tables.specs.Facts.{IsSampleIn};
ghost use Rattle.remux.specs.Runs.{first_position, runs_of, samples_in, IsEndOfRun, IsShortRun};

/// The runs of a track, one behind the other, are its samples. None is empty, or has more samples or bytes than a run
/// may have. A run ends exactly before a sample with which a new one is to begin, or for which it has no room.
pub fn runs_law()
    ensures joined { (kind : Kind) (samples : List Sample) →
        samples_in (runs_of kind samples) ≡ samples }
    ensures filled { (kind : Kind) (samples : List Sample) →
        AllByRecursion (λ run. 1 ≤ length run) (runs_of kind samples) }
    ensures short { (kind : Kind) (samples : List Sample) (len : ℕ) →
        AllByRecursion (IsSampleIn len) samples →
        AllByRecursion (IsShortRun len) (runs_of kind samples) }
    ensures ends { (kind : Kind) (samples run : List Sample) (i k : ℕ) (sample : Sample) →
        slice_get (runs_of kind samples) i ≡ Some run → 1 ≤ k → k ≤ length run →
        slice_get samples (first_position (runs_of kind samples) i + k) ≡ Some sample →
        IsEndOfRun kind (first_position (runs_of kind samples) i) run k sample }
{}
