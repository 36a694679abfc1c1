//! A law of the slack of a way. The function is empty; its contract is the law.
ghost use Rattle.std.specs.Prelude.{◌+◌, List, ℕ};
ghost use Rattle.rina_way.specs.declared.hop.Hop.{Hop};
ghost use Rattle.rina_way.specs.Journeys.{Fate, Foretells, Travels};
ghost use Rattle.rina_way.specs.Ways.{charges, slack_of};

/// A PDU with a lifetime of `mpl` ticks that waits nowhere arrives with as many ticks to live as the slack of its way, and one of negative slack is
/// written off on its way, as expired. One that waits has a slack that is less by what it waits at all IPC processes together.
pub fn a_pdu_arrives_with_its_slack()
    ensures nowhere { (hops : List Hop) (mpl : ℕ) (fate : Fate) → Travels hops mpl 0 fate → Foretells (slack_of mpl (charges hops)) fate }
    ensures waiting { (hops : List Hop) (mpl waited : ℕ) (fate : Fate) → Travels hops mpl waited fate → Foretells (slack_of mpl (charges hops + waited)) fate }
{}
