//! The laws of asks. These functions do nothing: their contracts are laws.
ghost use Rattle.std.specs.Prelude.{◌≡◌, ◌≤◌, true, ℕ, List, length, IsSome, Some};
ghost use Rattle.rina_alloc.specs.declared.answer.FlowAnswer.{FlowAnswer};
ghost use Rattle.rina_alloc.specs.declared.asked.Asked.{Asked};
ghost use Rattle.rina_alloc.specs.declared.event.AskEvent.{AskEvent};
ghost use Rattle.rina_alloc.specs.declared.event.AskDo.TheVariants.{Answer};
ghost use Rattle.rina_alloc.specs.declared.message.FlowMessage.{FlowMessage};
ghost use Rattle.rina_alloc.specs.Machines.{asked_does};
ghost use Rattle.rina_alloc.specs.Messages.{IsInRange, IsProper, IsSpelled};
ghost use Rattle.rina_alloc.specs.Words.{code_of, dcep_of, number_of, answer_at};
ghost use Rattle.rina_alloc.specs.declared.event.AskEvent.TheVariants.{Ended, Clock};
ghost use Rattle.rina_alloc.specs.Laws.{IsBoundByYes, IsBoundByOwnYes, IsNeverBound, IsGivenUpOnce, IsGivenUpOnceAnAsk};

/// An end is bound only by an answer of result 0, which names both CEP-ids.
pub fn an_ask_is_bound_only_by_yes()
    ensures asking { IsBoundByYes }
    ensures asked { IsBoundByOwnYes }
{}

/// An ask that timed out, or whose end was freed, is never bound.
pub fn an_ask_that_is_over_is_never_bound()
    ensures late { IsNeverBound (Clock true) }
    ensures freed { IsNeverBound Ended }
{}

/// An end gives its flow up at most once: the end that asks whatever comes, the far end for each ask.
pub fn an_end_is_given_up_once()
    ensures asking { IsGivenUpOnce }
    ensures asked { IsGivenUpOnceAnAsk }
{}

/// A message about a flow has one spelling, and a spelling is one message's.
pub fn a_message_has_one_spelling()
    ensures one_spelling { (m : FlowMessage) (bytes others : List ℕ) → IsSpelled m bytes → IsSpelled m others → bytes ≡ others }
    ensures one_message { (m n : FlowMessage) (bytes : List ℕ) → IsInRange m → IsInRange n → IsProper m.word → IsProper n.word → IsSpelled m bytes → IsSpelled n bytes → m ≡ n }
    ensures written { (m : FlowMessage) → IsProper m.word → (bytes : List ℕ) × IsSpelled m bytes }
{}

/// A message about a flow has at most 322 bytes, as many as an ask with the longest names.
pub fn a_message_is_short()
    ensures { (m : FlowMessage) (bytes : List ℕ) → IsProper m.word → IsSpelled m bytes → length bytes ≤ 322 }
{}

/// Each answer of a far end can be told in a message, and a message tells the numbers of its answer.
pub fn an_answer_can_be_told()
    ensures told { (end : Asked) (event : AskEvent) (code dcep number : ℕ) → asked_does end event ≡ Answer code dcep number → IsSome (answer_at code dcep number) }
    ensures again { (a : FlowAnswer) → answer_at (code_of a) (dcep_of a) (number_of a) ≡ Some a }
{}
