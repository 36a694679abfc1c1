//! The law of link states. This function does nothing: its contract is the law.
ghost use Rattle.std.specs.Prelude.{◌≡◌, ℕ, ◌^◌, ◌<◌, ◌++◌, List, All, Some, codes};
ghost use Rattle.std.specs.Fmt.{decimal};
ghost use Rattle.rina_graph.specs.declared.graph.Edge.{Edge};
ghost use Rattle.rina_newest.specs.declared.item.Version.{Version};
ghost use Rattle.rina_route.specs.Routes.{claims_in, claims_of};
ghost use Rattle.rina_route.specs.Written.{claims_text, IsClaim};

/// A link state that is written claims the edges that were written, in their order: its value does, and so does the
/// item under the key of the address.
pub fn what_is_written_is_claimed()
    ensures value { (own : ℕ) (es : List Edge) → All (IsClaim own) es → claims_in own (claims_text es) ≡ es }
    ensures item { (own : ℕ) (es : List Edge) (version : Version) → own < 2 ^ 32 → All (IsClaim own) es → claims_of (record { key = codes "/link/" ++ decimal own; version = version; value = Some (claims_text es) }) ≡ es }
{}
