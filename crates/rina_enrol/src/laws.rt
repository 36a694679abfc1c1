//! The laws of enrolment. These functions do nothing: their contracts are laws.
ghost use Rattle.std.specs.Prelude.{◌≡◌, ◌≤◌, ℕ, List, length};
ghost use Rattle.rina_enrol.specs.declared.message.LinkMessage.{LinkMessage};
ghost use Rattle.rina_enrol.specs.Messages.{IsInRange, IsProper, IsSpelled};
ghost use Rattle.rina_enrol.specs.Items.{CarriesReplicated};
ghost use Rattle.rina_enrol.specs.Laws.{IsEnrolledByStop, AnswersWhomItAllowed};

/// A joiner is enrolled only by STOP, which came while its link stood.
pub fn a_joiner_is_enrolled_by_stop()
    ensures { IsEnrolledByStop }
{}

/// A member tells its items only to a joiner that it allowed while the link stood.
pub fn a_member_tells_its_items_to_whom_it_allowed()
    ensures { AnswersWhomItAllowed }
{}

/// A message of a link has one spelling, and a spelling is one message's.
pub fn a_message_has_one_spelling()
    ensures one_spelling { (m : LinkMessage) (bytes others : List ℕ) → IsSpelled m bytes → IsSpelled m others → bytes ≡ others }
    ensures one_message { (m n : LinkMessage) (bytes : List ℕ) → IsInRange m → IsInRange n → IsSpelled m bytes → IsSpelled n bytes → m ≡ n }
    ensures written { (m : LinkMessage) → IsProper m → (bytes : List ℕ) × IsSpelled m bytes }
{}

/// A message of a link has at most 325 bytes, as many as a link state of 16 links.
pub fn a_message_is_short()
    ensures { (m : LinkMessage) (bytes : List ℕ) → IsProper m → CarriesReplicated m → IsSpelled m bytes → length bytes ≤ 325 }
{}
