//! The laws of the spelling of messages. These functions do nothing: their contracts are laws.
ghost use Rattle.std.specs.Prelude.{◌≡◌, ◌↔◌, ℕ, List, Result, Ok};
ghost use Rattle.rina_cdap.specs.declared.error.CdapError.{CdapError};
ghost use Rattle.rina_cdap.specs.declared.message.Message.{Message};
ghost use Rattle.rina_cdap.specs.Messages.{InRange, Spells};
ghost use Rattle.rina_cdap.specs.Reading.{IsFault, Reads, Gives};
ghost use Rattle.rina_cdap.specs.Writing.{written};

/// A message is written exactly where it has a spelling, as that; and what was written is read as it was.
pub fn what_is_written_is_read()
    ensures written { (m : Message) (bytes : List ℕ) → (written m ≡ Ok bytes) ↔ Spells m bytes }
    ensures read { (m : Message) (bytes : List ℕ) (r : Result Message CdapError) → InRange m → written m ≡ Ok bytes → Reads r bytes → ((n : Message) → r ≡ Ok n → InRange n) → Gives r (Ok m) }
{}

/// What was read is written again by the bytes that were read; one message has one spelling, and one spelling is
/// one message's.
pub fn what_is_read_is_spelled_so()
    ensures written { (m : Message) (bytes : List ℕ) → Reads (Ok m) bytes → written m ≡ Ok bytes }
    ensures one_spelling { (m : Message) (bytes others : List ℕ) → Spells m bytes → Spells m others → bytes ≡ others }
    ensures one_message { (m n : Message) (bytes : List ℕ) → InRange m → InRange n → Spells m bytes → Spells n bytes → m ≡ n }
{}

/// Bytes have one first fault, and none where they spell a message.
pub fn there_is_one_first_fault()
    ensures one { (bytes : List ℕ) (d e : CdapError) → IsFault bytes d → IsFault bytes e → d ≡ e }
    ensures none { (m : Message) (bytes : List ℕ) (e : CdapError) → Spells m bytes → IsFault bytes e → ⊥ }
{}
