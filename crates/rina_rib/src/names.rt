//! Names above and below each other.
ghost use Rattle.std.specs.Prelude.{◌≡◌, ◌≤◌, length, option_copied};
ghost use Rattle.rina_rib.specs.Names.{last_slash, parent_of, is_child, is_below, is_within};

/// The place of the last slash, 0 where there is none.
#[tactic(auto, unfolding(crate::specs::Names::last_slash))]
fn last_slash(name: &[u8]) -> usize
    ensures at { result ≡ last_slash 0 0 name.now }
    ensures within { result ≤ length name.now }
{
    let mut last = 0;
    for (i, b) in name.iter().enumerate() {
        if *b == b'/' {
            last = i;
        }
    }
    last
}

/// The name without its last part; None for the root.
#[tactic(auto, unfolding(crate::specs::Names::parent_of))]
pub(crate) fn parent(name: &[u8]) -> Option<&[u8]>
    ensures { option_copied result ≡ parent_of name.now }
{
    if name.len() <= 1 {
        return None;
    }
    let at = last_slash(name);
    let (front, _last) = name.split_at(at.max(1));
    Some(front)
}

/// Whether a name is the other with one part more.
#[tactic(auto, unfolding(crate::specs::Names::is_child))]
pub(crate) fn is_child_of(folder: &[u8], name: &[u8]) -> bool
    ensures { result ≡ is_child folder.now name.now }
{
    match parent(name) {
        Some(above) => above == folder,
        None => false,
    }
}

/// Whether a name is the other with parts behind it.
#[tactic(auto, unfolding(crate::specs::Names::is_below))]
pub(crate) fn is_under(folder: &[u8], name: &[u8]) -> bool
    ensures { result ≡ is_below folder.now name.now }
{
    if folder.len() <= 1 {
        return name.len() > 1;
    }
    name.len() > folder.len() && name.starts_with(folder) && name[folder.len()] == b'/'
}

/// Whether a name is the other, or under it.
#[tactic(auto, unfolding(crate::specs::Names::is_within))]
pub(crate) fn is_at_or_under(folder: &[u8], name: &[u8]) -> bool
    ensures { result ≡ is_within folder.now name.now }
{
    name == folder || is_under(folder, name)
}
