//! The form of a field's content.
ghost use Rattle.std.specs.Prelude.{◌≡◌, ◌≤◌, IsTrue, length};
ghost use Rattle.rina_cdap.specs.Messages.{has_form, is_response};

use rina_base::{AppName, Name, is_object_name};

/// Whether an operation is a response.
#[tactic(auto, unfolding(crate::specs::Messages::is_response))]
pub(crate) fn is_answer(operation: u8) -> bool
    ensures { result ≡ is_response operation }
{
    operation % 2 == 1
}

/// Whether a content has the form of its tag.
#[tactic(auto, unfolding(crate::specs::Messages::has_form))]
pub(crate) fn is_formed(tag: u8, content: &[u8]) -> bool
    ensures form { result ≡ has_form tag content.now }
    ensures short { IsTrue result → length content.now ≤ 65535 }
{
    let len = content.len();
    len <= 65535
        && match tag {
            1 => len == 1 && content[0] <= 17,
            2 | 11 | 12 => len == 4,
            3 => Name::is_name(content),
            4 => len <= 255 && is_object_name(content),
            5 => len == 8,
            6 => true,
            7 => len == 1,
            8 => len <= 255,
            _ => AppName::is_app_name(content),
        }
}
