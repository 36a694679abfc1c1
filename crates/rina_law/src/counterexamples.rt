//! The bounds of delta-t suffice, and what breaks where one of them is another: each law is the contract of a function
//! that does nothing.
ghost use Rattle.std.specs.Prelude.{◌+◌, ◌-◌, ◌*◌};
ghost use Rattle.rina_law.specs.Bounds.{bounds_of};
ghost use Rattle.rina_law.specs.Constants.{delta};
ghost use Rattle.rina_law.specs.Suffices.{Suffice, RestSuffices, ReusedHolds, RestedIsOver};
ghost use Rattle.rina_law.specs.Counterexamples.{EarlyEndBreaks, EarlyBeginningBreaks, LateResendingBreaks, LateAckBreaks, ShortRestBreaks, FalseFlagBreaks};

/// By the bounds of delta-t, whatever rows come, the journals keep what the cube promises.
pub fn delta_t_suffices()
    ensures { Suffice bounds_of }
{}

/// Receiver state that ends at `last_in + mpl`, or even at `last_in + r + mpl`, lets an SDU in twice.
pub fn state_must_outlive_copies()
    ensures mpl { EarlyEndBreaks (λ c. c.cube.mpl) }
    ensures promise { EarlyEndBreaks (λ c. c.cube.r + c.cube.mpl) }
{}

/// A sender that begins again at `last_out + 2 * delta`, or even one tick before `last_out + 2 * delta + mpl`, loses an
/// SDU unseen.
pub fn sender_must_outlive_state()
    ensures two { EarlyBeginningBreaks (λ c. 2 * delta c) }
    ensures last { EarlyBeginningBreaks (λ c. 2 * delta c + c.cube.mpl - 1) }
{}

/// A number that is sent again at `first + r + 1` comes later than the cube promises.
pub fn resending_must_end()
    ensures next { LateResendingBreaks (λ c. c.cube.r + 1) }
    ensures promise { LateResendingBreaks (λ c. c.cube.r + c.cube.mpl) }
{}

/// An acknowledgement that is made as long as receiver state stands, or even at `last_in + mpl + 3 * (r + a)`, is taken
/// for one of the next run, of which an SDU is lost unseen.
pub fn acknowledging_must_end()
    ensures state { LateAckBreaks (λ c. 2 * delta c) }
    ensures first { LateAckBreaks (λ c. c.cube.mpl + 3 * (c.cube.r + c.cube.a)) }
{}

/// Ids that rest `3 * delta` after the sender last made a piece, or but one tick more than `2 * mpl + delta`, may be used
/// again, whatever became of their connection and by whatever cube: nothing of it is in flight. Where they rest
/// `2 * delta`, or even `2 * mpl + delta`, an acknowledgement of the old connection is taken for one of the new one, of
/// which an SDU is lost unseen.
pub fn ids_must_rest()
    ensures holds { ReusedHolds }
    ensures over { RestedIsOver }
    ensures three { RestSuffices (λ c. 3 * delta c) }
    ensures least { RestSuffices (λ c. 2 * c.cube.mpl + delta c + 1) }
    ensures two { ShortRestBreaks (λ c. 2 * delta c) }
    ensures last { ShortRestBreaks (λ c. 2 * c.cube.mpl + delta c) }
{}

/// A piece that carries the data run flag, although a number below it is not acknowledged, makes the receiver begin with
/// it, and what is below is never got.
pub fn flag_must_be_true()
    ensures { FalseFlagBreaks }
{}
