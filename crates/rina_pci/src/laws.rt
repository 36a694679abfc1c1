//! The laws of the spelling of PDUs. These functions do nothing: their contracts are laws.
ghost use Rattle.std.specs.Prelude.{◌≡◌, ◌<◌, ◌^◌, ◌+◌, ◌↔◌, ℕ, List, length, Some, Ok, Err};
ghost use Rattle.rina_base.specs.declared.pdu.Pdu.{Pdu};
ghost use Rattle.rina_base.specs.Pdus.{IsProper};
ghost use Rattle.rina_pci.specs.declared.widths.Widths.{Widths};
ghost use Rattle.rina_pci.specs.declared.error.PciError.TheVariants.{TooWide};
ghost use Rattle.rina_pci.specs.Spelling.{AreWidths, IsBytes, Fits, pdu_size, spelling};
ghost use Rattle.rina_pci.specs.Reading.{pdu_at};
ghost use Rattle.rina_pci.specs.Writing.{fields, first_wide, written};
ghost use Rattle.rina_pci.specs.Life.{protected, life_at};

/// A PDU is written exactly where it fits, and is read back as it was. Else its first field that does not fit is named.
pub fn what_is_written_is_read()
    ensures written { (w : Widths) (p : Pdu) (bytes : List ℕ) → AreWidths w → IsProper p → (written w p ≡ Ok bytes) ↔ (Fits w p × (bytes ≡ spelling w p)) }
    ensures wide { (w : Widths) (p : Pdu) (n : ℕ) → (written w p ≡ Err (TooWide n)) ↔ (first_wide (fields w p) ≡ Some n) }
    ensures read { (w : Widths) (p : Pdu) → AreWidths w → Fits w p → pdu_at w (spelling w p) ≡ Some p }
    ensures life { (life : ℕ) (pdu : List ℕ) → life < 2 ^ 32 → life_at (protected life pdu) ≡ Some (life, pdu) }
{}

/// What is read is spelled so, and so one PDU has one spelling.
pub fn what_is_read_is_spelled_so()
    ensures spelled { (w : Widths) (p : Pdu) (bytes : List ℕ) → AreWidths w → IsBytes bytes → pdu_at w bytes ≡ Some p → Fits w p × (bytes ≡ spelling w p) }
    ensures one { (w : Widths) (p : Pdu) (bytes others : List ℕ) → AreWidths w → IsBytes bytes → IsBytes others → pdu_at w bytes ≡ Some p → pdu_at w others ≡ Some p → bytes ≡ others }
    ensures life { (life : ℕ) (bytes pdu : List ℕ) → IsBytes bytes → life_at bytes ≡ Some (life, pdu) → (life < 2 ^ 32) × (bytes ≡ protected life pdu) }
{}

/// How many bytes a PDU has, and how many with its lifetime.
pub fn how_long_it_is()
    ensures pdu { (w : Widths) (p : Pdu) → AreWidths w → IsProper p → length (spelling w p) ≡ pdu_size w p }
    ensures life { (life : ℕ) (pdu : List ℕ) → length (protected life pdu) ≡ 4 + length pdu }
{}
