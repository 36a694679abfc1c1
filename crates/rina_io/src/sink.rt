//! Where output goes.
ghost use Rattle.std.specs.Prelude.{◌≡◌, ◌<◌, ℕ, Bool, List, length, Option, IfOk, OnOk};
ghost use Rattle.std.specs.Io.{WritesAtMost};
ghost use Rattle.std.specs.Io.KnownBytes.{WriteAppends};
ghost use Rattle.rina_io.specs.Causes.{RoseOnce, HasCause, WriteTurns};

use crate::source::Failed;

/// A sink of bytes, which counts how often it failed.
pub trait Sink {
    /// The bytes that it took, where it tells them.
    ghost took: { Self → Option (List ℕ) };

    /// How many writes failed, or took nothing of a piece that is not empty. The count never falls,
    /// and stays at the greatest u64 once it is there.
    ghost faults: { Self → ℕ };

    /// Whether the number of those writes is odd. It turns with each of them, also where their count stands.
    ghost odd: { Self → Bool };

    /// Takes bytes from the front of a piece, and answers how many. The count of faults rises by one
    /// where the write fails or takes nothing of a piece that is not empty, and else stays as it is.
    fn write(&mut self, piece: &[u8]) -> Result<usize, Failed>
        ensures bound { WritesAtMost result piece.now }
        ensures bytes { WriteAppends (took self.old) (took self.new) result piece.now }
        ensures some { IfOk result (λ n. 0 < n → faults self.new ≡ faults self.old) }
        ensures none { IfOk result (λ n. n ≡ 0 → 0 < length piece.now → RoseOnce (faults self.old) (faults self.new)) }
        ensures empty { OnOk result (length piece.now ≡ 0 → faults self.new ≡ faults self.old) }
        ensures cause { HasCause (faults self.old) (faults self.new) result }
        ensures turns { WriteTurns (length piece.now) (odd self.old) (odd self.new) result };
}
