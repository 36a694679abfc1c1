//! Where an application is registered.
ghost use Rattle.std.specs.Prelude.{◌≡◌};
ghost use Rattle.rina_dir.specs.Directory.{found, AreEntries};

use crate::key::{LONGEST_KEY, write_key};
use rina_base::{Addr, AppName, read_number};
use rina_newest::Newest;

/// The address in the newest entry of an application, where that is live; None exactly where there
/// is none. Takes no memory.
#[tactic(auto, unfolding(crate::specs::Directory::found))]
pub fn find(states: &Newest, app: &AppName) -> Option<Addr>
    requires { AreEntries states.now }
    ensures { result ≡ found states.now app.now }
{
    let name = app.as_bytes();
    if name.len() > LONGEST_KEY - 5 {
        return None;
    }
    let mut key = [0; LONGEST_KEY];
    let len = write_key(name, &mut key);
    read_number(states.get(&key[..len])?)
}
