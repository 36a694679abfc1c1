//! Which rules are tried, and which names a reference may have.
ghost use Rattle.std.specs.Prelude.{◌≡◌, ◌<◌, ℕ, List, length, map, IfOk, IfSome};
ghost use Rattle.std.specs.BTreeMap.{get_by};
ghost use Rattle.std.specs.Ordering.{nat_cmp};
ghost use Rattle.std.specs.Cmp.Lexicographic.{slice_cmp};
ghost use Rattle.rina_table.specs.Names.{place_in};

use std::alloc::{AllocError, Global};
use std::collections::BTreeMap;
use std::marker::Model;

/// Names with the place of each, found by a map. A contract sees the list of the names.
#[derive(Drop)]
pub struct Places<'a> {
    texts: Vec<&'a [u8]>,
    /// The first place of each text.
    index: BTreeMap<&'a [u8], usize>,
}

impl<'a> Model for Places<'a> {
    ghost use Rattle.std.specs.Prelude.{◌≡◌, ℕ, List, map};
    ghost use Rattle.std.specs.BTreeMap.{get_by};
    ghost use Rattle.std.specs.Ordering.{nat_cmp};
    ghost use Rattle.std.specs.Cmp.Lexicographic.{slice_cmp};
    ghost use Rattle.rina_table.specs.Names.{place_in};

    ghost Value = { List (List ℕ) };

    ghost view = { λ p. map (λ t. t.now) p.texts.items };

    ghost invariant = { λ p. (q : List ℕ) → get_by (λ k. slice_cmp nat_cmp q k.now) p.index ≡ place_in (map (λ t. t.now) p.texts.items) q };
}

/// Which rules are tried while a stack is read: those up to `upto`. `nodes`, `wires` and `difs` are the names
/// that a reference may have, and `unknown` is the first item whose policy does not exist.
#[derive(Drop)]
pub struct Scope<'a> {
    pub upto: u32,
    pub nodes: Places<'a>,
    pub wires: Places<'a>,
    pub difs: Places<'a>,
    pub unknown: Option<usize>,
}

/// The first place of each text.
fn index_of<'a>(alloc: Global, texts: &[&'a [u8]]) -> Result<BTreeMap<&'a [u8], usize>, AllocError>
    ensures { IfOk result (λ m. (q : List ℕ) → get_by (λ k. slice_cmp nat_cmp q k.now) m ≡ place_in (map (λ t. t.now) texts.now) q) }
{
    let mut index = BTreeMap::new(alloc);
    let mut at = texts.len();
    // From the last one on, so that the first of equal texts stays.
    while at > 0 {
        at -= 1;
        index.insert(texts[at], at)?;
    }
    Ok(index)
}

impl<'a> Places<'a> {
    /// The places of texts.
    pub fn of(alloc: Global, texts: Vec<&'a [u8]>) -> Result<Places<'a>, AllocError>
        ensures { IfOk result (λ p. p ≡ map (λ t. t.now) texts.entry.items) }
    {
        let index = index_of(alloc, texts.as_slice())?;
        Ok(Places { texts, index })
    }

    /// The place of a text.
    pub fn find(&self, text: &[u8]) -> Option<usize>
        ensures place { result ≡ place_in self.now text.now }
        ensures within { IfSome result (λ i. i < length self.now) }
    {
        let at = self.index.get(text)?;
        Some(*at)
    }
}
