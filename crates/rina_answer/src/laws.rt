//! The law of answers. The function does nothing: its contract is the law.
ghost use Rattle.std.specs.Prelude.{◌≡◌, ℕ, ◌<◌, Some, codes};
ghost use Rattle.rina_cdap.specs.declared.message.Message.{Message};
ghost use Rattle.rina_rib.specs.Rows.{Tree};
ghost use Rattle.rina_rib.specs.Laws.{StandInTree, KeepsAround};
ghost use Rattle.rina_answer.specs.Answers.{told};
ghost use Rattle.rina_answer.specs.Laws.{IsAnswerTo, IsDone};

/// An answer has the invoke id and the name that were asked with. Where its result is not 0, the objects are as they
/// were. Where it is 0, the answer shows the object that a read of the name gives then, with the value that was written
/// or made, and after delete the object that is gone; no other object changed. Whatever is asked, each object outside
/// `/user` stays as it was, and the objects stand in a tree.
pub fn an_answer_shows_what_a_read_gives()
    ensures answer { (t : Tree) (m : Message) → IsAnswerTo m (told t m).message }
    ensures refused { (t : Tree) (m : Message) (n : ℕ) → (told t m).message.result ≡ Some n → 0 < n → (told t m).tree ≡ t }
    ensures done { (t : Tree) (m : Message) → StandInTree t → (told t m).message.result ≡ Some 0 → IsDone t (told t m).tree m (told t m).message }
    ensures tree { (t : Tree) (m : Message) → StandInTree t → StandInTree (told t m).tree }
    ensures user { (t : Tree) (m : Message) → KeepsAround (codes "/user") t (told t m).tree }
{}
