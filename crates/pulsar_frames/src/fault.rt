//! Why bytes are no frames.

ghost use Rattle.std.specs.Prelude.{◌≡◌};
ghost use Rattle.pulsar_frames.specs.declared.fault.FrameFault.TheVariants as why;
ghost use Rattle.pulsar_frames.specs.Frames.{command_fault, meta_fault};

use geo_base::Memory;
use message_meta::MetaFault;
use pulsar_commands::CommandFault;
use std::alloc::AllocError;
use std::error::Error;
use std::fmt;

/// Why a frame was not read, in the order of judgement; or why it was not written.
#[derive(Clone, Copy, Debug, PartialEq, Eq)]
pub enum FrameFault {
    /// The total size, in bytes, passes the limit on frames. It is judged as soon as the size is there, all else when
    /// the whole frame is. Of a frame that was not written, the greatest number of 64 bits where the size has more.
    TooLarge { size: u64 },
    /// The sizes within the frame do not fit in one another, or the parts of the frame are not those of its command.
    Sizes,
    /// A checksum follows the command (own: this profile has none).
    Checksum,
    /// The command has no reading.
    Command(CommandFault),
    /// The metadata has no reading.
    Meta(MetaFault),
    /// No memory was left. It says nothing of the bytes.
    Memory,
}

impl fmt::Display for FrameFault {
    ghost use Rattle.std.specs.Prelude.{Some};
    ghost use Rattle.pulsar_frames.specs.Printed.{frame_fault_text};

    ghost output = { λ fault. Some (frame_fault_text fault) };

    fn fmt<W: fmt::Write>(&self, f: &mut fmt::Formatter<W>) -> fmt::Result {
        match self {
            FrameFault::TooLarge { size } => write!(f, "TooLarge(1, {size})"),
            FrameFault::Sizes => write!(f, "Sizes(2)"),
            FrameFault::Checksum => write!(f, "Checksum(3)"),
            FrameFault::Command(why) => write!(f, "Command(4, {why})"),
            FrameFault::Meta(why) => write!(f, "Meta(5, {why})"),
            FrameFault::Memory => write!(f, "Memory"),
        }
    }
}

impl Error for FrameFault {}

impl From<CommandFault> for FrameFault {
    ghost from_gives = { λ from e. e ≡ command_fault from };

    fn from(fault: CommandFault) -> FrameFault {
        match fault {
            CommandFault::Memory => FrameFault::Memory,
            _ => FrameFault::Command(fault),
        }
    }
}

impl From<MetaFault> for FrameFault {
    ghost from_gives = { λ from e. e ≡ meta_fault from };

    fn from(fault: MetaFault) -> FrameFault {
        match fault {
            MetaFault::Memory => FrameFault::Memory,
            _ => FrameFault::Meta(fault),
        }
    }
}

impl From<Memory> for FrameFault {
    ghost from_gives = { λ _ e. e ≡ why.Memory };

    fn from(_error: Memory) -> FrameFault {
        FrameFault::Memory
    }
}

impl From<AllocError> for FrameFault {
    ghost from_gives = { λ _ e. e ≡ why.Memory };

    fn from(_error: AllocError) -> FrameFault {
        FrameFault::Memory
    }
}
