//! The laws of directory entries and of their keys. The functions do nothing: their contracts are the laws.
ghost use Rattle.std.specs.Prelude.{◌≡◌, ◌<◌, ◌^◌, ℕ, [], List, Ok, Some};
ghost use Rattle.std.specs.Fmt.{decimal};
ghost use Rattle.rina_base.specs.Names.{app_at};
ghost use Rattle.rina_base.specs.ObjectNames.{IsObjectName};
ghost use Rattle.rina_newest.specs.declared.item.Item.{Item};
ghost use Rattle.rina_newest.specs.Newest.{taken, value_at};
ghost use Rattle.rina_dir.specs.Directory.{IsEntry, AreEntries, found, key_of};

/// An empty list of items has the form of the directory, and items keep it when one that has it is taken.
pub fn entries_stay()
    ensures empty { AreEntries [] }
    ensures taken { (items : List Item) (item : Item) → AreEntries items → IsEntry item → AreEntries (taken items item) }
{}

/// Two names of applications have the same key only where they are one name: no name has the byte `!`, which stands for the
/// slash. And a key is the name of an object.
pub fn keys_tell_names_apart()
    ensures apart { (app other : List ℕ) → app_at app ≡ Ok app → app_at other ≡ Ok other → key_of app ≡ key_of other → app ≡ other }
    ensures named { (app : List ℕ) → app_at app ≡ Ok app → IsObjectName (key_of app) }
{}

/// An address of 32 bits that is written in decimal into the entry of an application is the address that is found there.
pub fn a_written_address_is_found()
    ensures found { (items : List Item) (app : List ℕ) (address : ℕ) → address < 2 ^ 32 → value_at items (key_of app) ≡ Some (decimal address) → found items app ≡ Some address }
{}
