//! What a joiner makes of many pieces. These functions do nothing: their contracts are laws.
ghost use Rattle.std.specs.Prelude.{◌≡◌, ◌≤◌, ◌<◌, ◌+◌, ◌↔◌, ◌==◌, ℕ, Bool, true, false, List, ◌∷◌, length, if◌then◌else◌};
ghost use Rattle.rina_delim.specs.declared.joiner.Joined.TheVariants.{More, Whole};
ghost use Rattle.rina_delim.specs.Parts.{part_count};
ghost use Rattle.rina_delim.specs.Joining.{Piece, Joining, IsRoomFor, answer};
ghost use Rattle.rina_delim.specs.Pieces.{after_all, since_first, ArePieces, concatenation, piece_of, after_parts};

/// After any pieces, newest first: a piece is answered `Whole` exactly where the pieces since the last `first`
/// one are all pieces of one SDU in order, and `More` exactly where they are in order and not yet all.
/// `whole` lends their concatenation.
pub fn whole_is_one_sdu()
    ensures whole { (largest : ℕ) (p : Piece) (older : List Piece) → (answer (after_all largest older) p ≡ Whole) ↔ ArePieces true (since_first (p ∷ older)) }
    ensures more { (largest : ℕ) (p : Piece) (older : List Piece) → (answer (after_all largest older) p ≡ More) ↔ ArePieces false (since_first (p ∷ older)) }
    ensures bytes { (largest : ℕ) (p : Piece) (older : List Piece) (last : Bool) → ArePieces last (since_first (p ∷ older)) → (after_all largest (p ∷ older)).bytes ≡ concatenation (since_first (p ∷ older)) }
{}

/// The parts of any SDU, pushed in order onto any joiner with numbers that rise by one from any number, have
/// room, are answered `More` up to the last one, which is answered `Whole`, and give the SDU again.
pub fn parts_join_again()
    ensures room { (j : Joining) (sdu : List ℕ) (size number i : ℕ) → 1 ≤ size → i < part_count (length sdu) size → length sdu ≤ j.largest → IsRoomFor (after_parts j sdu size number i) (piece_of sdu size number i) }
    ensures answers { (j : Joining) (sdu : List ℕ) (size number i : ℕ) → 1 ≤ size → i < part_count (length sdu) size → answer (after_parts j sdu size number i) (piece_of sdu size number i) ≡ (if i + 1 == part_count (length sdu) size then Whole else More) }
    ensures same { (j : Joining) (sdu : List ℕ) (size number : ℕ) → 1 ≤ size → (after_parts j sdu size number (part_count (length sdu) size)).bytes ≡ sdu }
{}
