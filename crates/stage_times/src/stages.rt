//! What the stages take.

ghost use Rattle.std.specs.Prelude.{◌≡◌, min};

/// The microseconds that each stage takes through which rows go.
#[derive(Clone, Copy)]
pub struct Stages {
    /// Lines are taken, by one thread.
    pub lines: u64,
    /// Rows are read, by all workers.
    pub reading: u64,
    /// The harts before each segment are guessed, by one thread.
    pub guessing: u64,
    /// Segments are judged, by all workers.
    pub judging: u64,
    /// The verdicts are joined, by one thread.
    pub joining: u64,
}

impl Stages {
    /// Nothing.
    pub const NONE: Stages = Stages {
        lines: 0,
        reading: 0,
        guessing: 0,
        judging: 0,
        joining: 0,
    };

    /// The lesser of each two.
    pub fn least(self, other: Stages) -> Stages
        ensures { result ≡ record {
          lines = min self.lines other.lines;
          reading = min self.reading other.reading;
          guessing = min self.guessing other.guessing;
          judging = min self.judging other.judging;
          joining = min self.joining other.joining;
        } }
    {
        Stages {
            lines: self.lines.min(other.lines),
            reading: self.reading.min(other.reading),
            guessing: self.guessing.min(other.guessing),
            judging: self.judging.min(other.judging),
            joining: self.joining.min(other.joining),
        }
    }

    /// Each with the other's.
    pub fn plus(self, other: Stages) -> Stages {
        Stages {
            lines: self.lines.saturating_add(other.lines),
            reading: self.reading.saturating_add(other.reading),
            guessing: self.guessing.saturating_add(other.guessing),
            judging: self.judging.saturating_add(other.judging),
            joining: self.joining.saturating_add(other.joining),
        }
    }

    /// What all workers share.
    pub fn sharing_time(self) -> u64 {
        self.reading.saturating_add(self.judging)
    }
}
