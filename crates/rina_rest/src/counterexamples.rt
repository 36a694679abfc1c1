//! What breaks where a rule on CEP-ids is another: each law is the contract of a function that does nothing.
ghost use Rattle.std.specs.Prelude.{◌+◌, ◌-◌, ◌*◌};
ghost use Rattle.rina_law.specs.Constants.{delta};
ghost use Rattle.rina_rest.specs.Counterexamples.{OldAskBreaks, OwnIdIsNoKey, ShortRestBreaks};
ghost use Rattle.rina_rest.specs.Still.{DrawnIsStill};

/// Two connections in use may have one address and one CEP-id at one end, and a PDU of the one may come to the end of the
/// other. So a PDU is one of a connection only where both its addresses and both its CEP-ids are those of the connection.
pub fn own_id_is_no_key()
    ensures { OwnIdIsNoKey }
{}

/// If an ask as old as the rest of its ids made a far end, two connections in use might have the same two addresses and the
/// same two CEP-ids, and what is sent on the one would come to the other.
pub fn old_ask_must_make_no_far_end()
    ensures { OldAskBreaks }
{}

/// Where ids rest `2 * delta`, or even `2 * mpl + delta`, an acknowledgement of a direction may be in flight when the id of
/// its sender is drawn again, and goes to that id. Where they rest one tick less than `2 * delta + mpl`, the receiver's state may
/// stand then.
pub fn ids_must_rest_until_still()
    ensures two { ShortRestBreaks (λ c. 2 * delta c) }
    ensures last { ShortRestBreaks (λ c. 2 * c.cube.mpl + delta c) }
    ensures state { DrawnIsStill (λ c. 2 * delta c + c.cube.mpl - 1) → ⊥ }
{}
