//! The exit status.
ghost use Rattle.std.specs.Prelude.{◌≡◌};
ghost use Rattle.rlemu.specs.Ends.{exit_of};

use rina_run::Status;

/// The exit status that stands for a status.
pub fn exit_code(status: Status) -> u8
    ensures { result ≡ exit_of status }
{
    match status {
        Status::Done => 0,
        Status::Usage { .. } => 1,
        Status::TooLarge | Status::NotToml | Status::StackRule { .. } | Status::Schedule { .. } =>
            2,
        Status::ReadFault => 3,
        Status::WriteFault => 4,
        Status::Memory => 5,
    }
}
