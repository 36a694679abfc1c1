//! Walks over objects.
ghost use Rattle.std.specs.Prelude.{◌≡◌, MatchOption, [], ◌∷◌};
ghost use Rattle.std.specs.Iterator.{YieldsFirstBy, item_count};
ghost use Rattle.rina_rib.specs.Objects.{seen};
ghost use Rattle.rina_rib.specs.Walks.{within, left_of, named_of};

use crate::names::is_at_or_under;
use crate::object::{Kept, Object};
use std::collections::btree_map::Iter;

/// The object of a name, and all objects under it, each with its name, in the byte order of names.
#[derive(Drop)]
pub struct Walk<'a> {
    rest: Iter<'a, Vec<u8>, Kept>,
    under: &'a [u8],
}

impl<'a> Walk<'a> {
    pub(crate) fn new(rest: Iter<'a, Vec<u8>, Kept>, under: &'a [u8]) -> Walk<'a>
        ensures { left_of result ≡ within under.entry.now (seen rest.entry) }
    {
        Walk { rest, under }
    }
}

/// The next object that is at or under a name.
fn next_within<'a>(
    rest: &mut Iter<'a, Vec<u8>, Kept>,
    under: &[u8],
) -> Option<(&'a [u8], Object<'a>)>
    ensures { MatchOption result ((within under.now (seen rest.old) ≡ []) × (within under.now (seen rest.new) ≡ [])) (λ x. within under.now (seen rest.old) ≡ named_of x ∷ within under.now (seen rest.new)) }
{
    'objects: while let Some((name, kept)) = rest.next() {
        if is_at_or_under(under, name.as_slice()) {
            return Some((name.as_slice(), kept.lend()));
        }
    }
    None
}

impl<'a> Iterator for Walk<'a> {
    type Item = (&'a [u8], Object<'a>);

    ghost next_gives = { YieldsFirstBy named_of left_of };

    ghost remaining = { item_count left_of };

    fn next(&mut self) -> Option<(&'a [u8], Object<'a>)> {
        next_within(&mut self.rest, self.under)
    }
}
