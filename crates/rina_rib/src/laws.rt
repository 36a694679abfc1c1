//! The laws of the objects. The functions do nothing: their contracts are the laws.
ghost use Rattle.std.specs.Prelude.{◌≡◌, ℕ, ◌<◌, ◌+◌, ◌-◌, ◌^◌, ◌↔◌, Bool, List, Contains, Some, None, Ok, codes, length};
ghost use Rattle.rina_base.specs.declared.class.Class.{Class};
ghost use Rattle.rina_base.specs.declared.class.Class.TheVariants.{Service};
ghost use Rattle.rina_base.specs.ObjectNames.{IsObjectName};
ghost use Rattle.rina_rib.specs.declared.caller.Caller.{Caller};
ghost use Rattle.rina_rib.specs.declared.caller.Caller.TheVariants.{Cdap};
ghost use Rattle.rina_rib.specs.Things.{Thing, thing, made_value, on_or_off};
ghost use Rattle.rina_rib.specs.Objects.{Named};
ghost use Rattle.rina_rib.specs.Walks.{within};
ghost use Rattle.rina_rib.specs.Rows.{Tree, first_tree, created, deleted, written, turned};
ghost use Rattle.rina_rib.specs.Laws.{LiesAt, LiesBelow, Has, HasItsFolder, IsFolderAt, StandInTree, Changes, KeepsOutside, KeepsAround, AreNumbered};

/// An operation that was done changed the object of its name and no other: what was made, written, started or
/// stopped is what a read gives then, and what was deleted is gone.
pub fn an_operation_changes_one_object()
    ensures created { (t after : Tree) (by : Caller) (name : List ℕ) (class : Class) (value : List ℕ) → created t by name class value ≡ Ok after → Changes name t after None (Some (thing class t.next (made_value class value))) }
    ensures deleted { (t after : Tree) (by : Caller) (name : List ℕ) → StandInTree t → deleted t by name ≡ Ok after → (o : Thing) × Changes name t after (Some o) None }
    ensures written { (t after : Tree) (by : Caller) (name : List ℕ) (class : Class) (value : List ℕ) → written t by name class value ≡ Ok after → (o : Thing) × (o.class ≡ class) × Changes name t after (Some o) (Some (record o { value = value })) }
    ensures turned { (t after : Tree) (by : Caller) (op : ℕ) (name : List ℕ) (on : Bool) → turned t by op name on ≡ Ok after → (o : Thing) × (o.class ≡ Service) × Changes name t after (Some o) (Some (record o { value = on_or_off on })) }
{}

/// CDAP makes and deletes objects below `/user` alone, and writes, starts and stops `/user` and these alone: each other
/// object stays as it was.
pub fn cdap_changes_user_alone()
    ensures created { (t after : Tree) (name : List ℕ) (class : Class) (value : List ℕ) → created t Cdap name class value ≡ Ok after → KeepsOutside (codes "/user") t after }
    ensures deleted { (t after : Tree) (name : List ℕ) → deleted t Cdap name ≡ Ok after → KeepsOutside (codes "/user") t after }
    ensures written { (t after : Tree) (name : List ℕ) (class : Class) (value : List ℕ) → written t Cdap name class value ≡ Ok after → KeepsAround (codes "/user") t after }
    ensures turned { (t after : Tree) (op : ℕ) (name : List ℕ) (on : Bool) → turned t Cdap op name on ≡ Ok after → KeepsAround (codes "/user") t after }
{}

/// The objects stand in a tree from the start, and each operation keeps it so: each object but the root stands in a
/// folder that is there, and each name in front of an object's is that of a folder. What is made stands in a folder that
/// was there before; below what is deleted there is nothing.
pub fn objects_stand_in_a_tree()
    ensures first { StandInTree first_tree }
    ensures created { (t after : Tree) (by : Caller) (name : List ℕ) (class : Class) (value : List ℕ) → IsObjectName name → StandInTree t → created t by name class value ≡ Ok after → StandInTree after }
    ensures deleted { (t after : Tree) (by : Caller) (name : List ℕ) → StandInTree t → deleted t by name ≡ Ok after → StandInTree after }
    ensures written { (t after : Tree) (by : Caller) (name : List ℕ) (class : Class) (value : List ℕ) → StandInTree t → written t by name class value ≡ Ok after → StandInTree after }
    ensures turned { (t after : Tree) (by : Caller) (op : ℕ) (name : List ℕ) (on : Bool) → StandInTree t → turned t by op name on ≡ Ok after → StandInTree after }
    ensures in_front { (t : Tree) (folder name : List ℕ) (o : Thing) → StandInTree t → 0 < length folder → LiesBelow folder name → Has t name o → IsFolderAt t folder }
    ensures made { (t after : Tree) (by : Caller) (name : List ℕ) (class : Class) (value : List ℕ) → IsObjectName name → created t by name class value ≡ Ok after → HasItsFolder t name }
    ensures nothing_below { (t after : Tree) (by : Caller) (name other : List ℕ) (o : Thing) → StandInTree t → 0 < length name → deleted t by name ≡ Ok after → LiesBelow name other → Has t other o → ⊥ }
{}

/// Each object has a number of its own, and none is drawn again once it was: the count rises with each object
/// that is made, until it stays at the greatest u64, and no other operation changes it or the numbers that are there.
pub fn numbers_are_drawn_once()
    ensures first { AreNumbered first_tree }
    ensures created { (t after : Tree) (by : Caller) (name : List ℕ) (class : Class) (value : List ℕ) → AreNumbered t → t.next < 2 ^ 64 - 1 → created t by name class value ≡ Ok after → AreNumbered after × (after.next ≡ t.next + 1) }
    ensures deleted { (t after : Tree) (by : Caller) (name : List ℕ) → StandInTree t → AreNumbered t → deleted t by name ≡ Ok after → AreNumbered after × (after.next ≡ t.next) }
    ensures written { (t after : Tree) (by : Caller) (name : List ℕ) (class : Class) (value : List ℕ) → AreNumbered t → written t by name class value ≡ Ok after → AreNumbered after × (after.next ≡ t.next) }
    ensures turned { (t after : Tree) (by : Caller) (op : ℕ) (name : List ℕ) (on : Bool) → AreNumbered t → turned t by op name on ≡ Ok after → AreNumbered after × (after.next ≡ t.next) }
{}

/// A walk from the root passes all objects, and one from another name exactly those whose name is that one, or begins with
/// that and a slash.
pub fn a_walk_passes_what_lies_under()
    ensures root { (t : Tree) → StandInTree t → within (codes "/") t.objects ≡ t.objects }
    ensures under { (under : List ℕ) (objects : List Named) (x : Named) → 1 < length under → Contains (within under objects) x ↔ (Contains objects x × LiesAt under x.0) }
{}
