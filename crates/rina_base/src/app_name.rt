//! Names of applications.
ghost use Rattle.std.specs.Prelude.{◌≡◌, ◌<◌, ◌≤◌, Ok, length, IfOk, IfSome, is_ok, is_some};
ghost use Rattle.std.specs.Str.{bytes_eq};
ghost use Rattle.rina_base.specs.Names.{Gives, app_at, ipc_at, slash_in};

use crate::memory::Memory;
use crate::name::{NameError, check_bytes, check_length, check_name};
use std::alloc::Global;
use std::marker::Model;

/// The name of an application: a name, or for an IPC process the names of its DIF and its node with
/// a slash between them. A contract sees its bytes.
#[derive(Drop)]
pub struct AppName {
    bytes: Vec<u8>,
}

impl Model for AppName {
    ghost use Rattle.std.specs.Prelude.{◌≡◌, List, ℕ, Ok};
    ghost use Rattle.rina_base.specs.Names.{app_at};

    ghost Value = { List ℕ };

    ghost view = { λ n. n.bytes.items };

    ghost invariant = { λ n. app_at n.bytes.items ≡ Ok n.bytes.items };
}

/// The place of the first slash.
#[tactic(auto, unfolding(crate::specs::Names::slash_in))]
fn first_slash(text: &[u8]) -> Option<usize>
    ensures at { result ≡ slash_in text.now }
    ensures within { IfSome result (λ k. k < length text.now) }
{
    text.iter().position(|b| *b == b'/')
}

#[tactic(auto, unfolding(crate::specs::Names::ipc_at))]
fn check_ipc(dif: &[u8], node: &[u8]) -> Result<(), NameError>
    ensures fault { Gives (λ t. t) result (ipc_at dif.now node.now) }
    ensures is { is_ok result ≡ is_ok (ipc_at dif.now node.now) }
{
    check_length(dif)?;
    check_length(node)?;
    check_bytes(0, dif)?;
    check_bytes(dif.len() + 1, node)
}

/// Whether a text is an application name.
#[tactic(auto, unfolding(crate::specs::Names::app_at))]
fn check_app(text: &[u8]) -> Result<(), NameError>
    ensures fault { Gives (λ _. text.now) result (app_at text.now) }
    ensures is { is_ok result ≡ is_ok (app_at text.now) }
{
    match first_slash(text) {
        None => check_name(text),
        Some(at) => {
            let (dif, rest) = text.split_at(at);
            let (_slash, node) = rest.split_at(1);
            check_ipc(dif, node)
        }
    }
}

impl AppName {
    /// The application name that a text is, or its first fault: the length of a part, then the
    /// bytes from the left.
    /// Only a text that is one wants memory.
    pub fn read(alloc: Global, text: &[u8]) -> Result<AppName, NameError>
        ensures { Gives (λ n. n) result (app_at text.now) }
    {
        check_app(text)?;
        let bytes = Vec::from_slice(alloc, text)?;
        Ok(AppName { bytes })
    }

    /// Whether a text is an application name; takes no memory.
    pub fn is_app_name(text: &[u8]) -> bool
        ensures { result ≡ is_ok (app_at text.now) }
    {
        check_app(text).is_ok()
    }

    /// A copy.
    pub fn copy(&self, alloc: Global) -> Result<AppName, Memory>
        ensures { IfOk result (λ n. n ≡ self.now) }
    {
        let bytes = Vec::from_slice(alloc, self.bytes.as_slice())?;
        Ok(AppName { bytes })
    }

    /// Whether it names an IPC process: exactly where it has a slash.
    pub fn is_ipc(&self) -> bool
        ensures { result ≡ is_some (slash_in self.now) }
    {
        first_slash(self.bytes.as_slice()).is_some()
    }

    /// Its bytes.
    pub fn as_bytes(&self) -> &[u8]
        ensures { result.now ≡ self.now }
    {
        self.bytes.as_slice()
    }

    /// How many bytes it has: at most two names of 64 and a slash.
    pub fn len(&self) -> usize
        ensures len { result ≡ length self.now }
        ensures most { result ≤ 129 }
        ensures form { app_at self.now ≡ Ok self.now }
    {
        self.bytes.len()
    }

    /// Whether two names are the same.
    pub fn is(&self, other: &AppName) -> bool
        ensures { result ≡ bytes_eq self.now other.now }
    {
        self.bytes.as_slice() == other.bytes.as_slice()
    }
}
