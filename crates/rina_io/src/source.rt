//! Where input comes from.
ghost use Rattle.std.specs.Prelude.{◌≡◌, ℕ, Bool, List, Option, OnOk};
ghost use Rattle.std.specs.Io.{ReadsAtMost};
ghost use Rattle.std.specs.Io.KnownBytes.{ReadConsumes};
ghost use Rattle.rina_io.specs.Causes.{HasCause, Turns};

/// A read or a write failed.
#[derive(Clone, Copy, Debug, PartialEq, Eq)]
pub struct Failed;

/// A source of bytes, which counts how often it failed.
pub trait Source {
    /// The bytes that are left, where it tells them.
    ghost left: { Self → Option (List ℕ) };

    /// How many reads failed. The count never falls, and stays at the greatest u64 once it is there.
    ghost faults: { Self → ℕ };

    /// Whether the number of reads that failed is odd. It turns with each of them, also where their count stands.
    ghost odd: { Self → Bool };

    /// Reads bytes into the front of a buffer, and answers how many. A buffer that is not empty gets
    /// none only at the end of the input. The count of faults rises by one where the read fails, and
    /// else stays as it is.
    fn read(&mut self, buf: &mut [u8]) -> Result<usize, Failed>
        ensures bound { ReadsAtMost result buf.new }
        ensures bytes { ReadConsumes (left self.old) (left self.new) result buf.new }
        ensures fine { OnOk result (faults self.new ≡ faults self.old) }
        ensures cause { HasCause (faults self.old) (faults self.new) result }
        ensures turns { Turns (odd self.old) (odd self.new) result };
}
