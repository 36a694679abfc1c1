//! The law of takes.
ghost use Rattle.std.specs.Prelude.{◌≡◌, ℕ, [], List, Contains, MatchOption};
ghost use Rattle.rina_newest.specs.declared.item.Item.{Item};
ghost use Rattle.rina_newest.specs.Newest.{kept_at, taken_all, IsNewest, AreTold};

/// A law: after any takes each key has an item of the greatest version that was taken under it, and
/// nothing where none was. So the order of the takes does not matter, where items of one key and
/// version are the same. The function does nothing.
pub fn newest_of_all_takes()
    ensures greatest { (items : List Item) (key : List ℕ) → MatchOption (kept_at (taken_all [] items) key) ((item : Item) → Contains items item → item.key ≡ key → ⊥) (IsNewest items key) }
    ensures any_order { (xs ys : List Item) → AreTold xs → ((item : Item) → Contains xs item → Contains ys item) → ((item : Item) → Contains ys item → Contains xs item) → (key : List ℕ) → kept_at (taken_all [] xs) key ≡ kept_at (taken_all [] ys) key }
{}
