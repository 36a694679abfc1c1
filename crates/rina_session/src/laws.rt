//! The law of sessions. This function does nothing: its contract is the law.
ghost use Rattle.std.specs.Prelude.{◌≡◌, ◌↔◌, ℕ, List, true, nat_eq};
ghost use Rattle.std.specs.List.{list_any};
ghost use Rattle.rina_session.specs.declared.session.State.TheVariants.{Calling, Called, Connected};
ghost use Rattle.rina_session.specs.Sessions.{Talk};
ghost use Rattle.rina_session.specs.Histories.{Step, IsAfter, Since, IsNewest, calls, is_call, opens, closes, asks, answers};

/// What a session is, by the list of the messages that it let through, the newest first. It is connected exactly where
/// a response to connect with result 0 came, and no release since then. It calls, or is called, exactly where the last
/// message was a connect that was sent, or got. An id waits exactly where a request with it was sent that wants a
/// response, and no response with it was got since then.
pub fn what_was_said_tells_the_session()
    ensures connected { (steps : List Step) (t : Talk) → IsAfter steps t → (t.state ≡ Connected) ↔ Since opens closes steps }
    ensures calling { (steps : List Step) (t : Talk) → IsAfter steps t → (t.state ≡ Calling) ↔ IsNewest calls steps }
    ensures called { (steps : List Step) (t : Talk) → IsAfter steps t → (t.state ≡ Called) ↔ IsNewest is_call steps }
    ensures waits { (steps : List Step) (t : Talk) (id : ℕ) → IsAfter steps t → (list_any (nat_eq id) t.waiting ≡ true) ↔ Since (asks id) (answers id) steps }
{}
