//! What the types of a message's numbers say of them.
ghost use Rattle.rina_enrol.specs.Messages.{IsInRange, IsVersion};

use rina_enrol::LinkMessage;
use rina_newest::Version;

/// The numbers of a version are those of their types. Does nothing.
fn version_in_range(version: &Version)
    ensures { IsVersion version.now }
{
    let _tick = version.tick;
    let _count = version.count;
    let _origin = version.origin;
}

/// The numbers of a message are those of their types. Does nothing.
pub(crate) fn in_range(message: &LinkMessage)
    ensures { IsInRange message.now }
{
    match message {
        LinkMessage::Connect { invoke, .. }
        | LinkMessage::StartR { invoke }
        | LinkMessage::Stop { invoke }
        | LinkMessage::StopR { invoke } => {
            let _invoke = *invoke;
        }
        LinkMessage::ConnectR {
            invoke,
            denied: None,
        } => {
            let _invoke = *invoke;
        }
        LinkMessage::ConnectR {
            invoke,
            denied: Some(rule),
        } => {
            let _numbers = (*invoke, *rule);
        }
        LinkMessage::Start { invoke, address } => {
            let _numbers = (*invoke, *address);
        }
        LinkMessage::Item { item } | LinkMessage::Flood { item } => {
            version_in_range(&item.version);
        }
    }
}
