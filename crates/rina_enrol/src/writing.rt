//! Writing the messages of a link.
ghost use Rattle.std.specs.Prelude.{◌≡◌, Ok, List, ℕ, IfOk, IfErr};
ghost use Rattle.rina_cdap.specs.declared.error.CdapError.TheVariants.{Memory};
ghost use Rattle.rina_cdap.specs.Writing.{written, Makes};
ghost use Rattle.rina_enrol.specs.Messages.{message_of, IsSpelled, IsProper};

use crate::message::LinkMessage;
use rina_cdap::CdapError;
use std::alloc::Global;

fn write_whole(alloc: Global, m: &LinkMessage) -> Result<Vec<u8>, CdapError>
    ensures { Makes result (written (message_of m.now)) }
{
    let Ok(message) = m.message(alloc) else {
        return Err(CdapError::Memory);
    };
    rina_cdap::write(alloc, &message)
}

/// The bytes of a message. `BadValue` tells that the key of an item is no object name of at most 255 bytes (tag 4),
/// or that its text exceeds 65,522 bytes (tag 6).
pub fn write(alloc: Global, m: &LinkMessage) -> Result<Vec<u8>, CdapError>
    // What is written is the message's.
    ensures spelled { IfOk result (λ v. IsSpelled m.now v.items) }
    // What has a spelling is written, unless memory runs out.
    ensures only { (bytes : List ℕ) → IsSpelled m.now bytes → Makes result (Ok bytes) }
    // A message of names and object names can be written.
    ensures proper { IsProper m.now → IfErr result (λ e. e ≡ Memory) }
    // Which fault is the first.
    ensures exact { Makes result (written (message_of m.now)) }
{
    write_whole(alloc, m)
}
