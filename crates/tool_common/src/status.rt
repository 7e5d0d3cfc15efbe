// How a call ends.
ghost use Rattle.std.specs.Prelude.{◌≡◌};
ghost use Rattle.tool_common.specs.Kind.{Kind, Unwritten, NoMemory};

/// The statuses of a tool, as far as all tools have them in common.
pub trait CallStatus: Copy {
    /// What kind of status it is.
    ghost kind: { Self → Kind };

    /// The status after a fault of a sink.
    fn write_fault() -> Self
        ensures { kind result ≡ Unwritten };

    /// The status for lack of memory.
    fn no_memory() -> Self
        ensures { kind result ≡ NoMemory };
}

/// How a call ends, of a tool that refuses files for these reasons. The status that the process ends with is its number.
#[derive(Clone, Copy, Debug, PartialEq, Eq)]
pub enum ToolStatus<R> {
    /// What was asked for is done.
    Done,
    /// A file is refused.
    Refused(R),
    /// The words are not those that the tool asks for.
    Usage,
    /// The shelf failed, or has no file of one of the names.
    ReadFault,
    /// The sink of the output or of the errors failed.
    WriteFault,
    /// Memory was refused.
    NoMemory,
}

impl<R: Copy> ToolStatus<R> {
    ghost use Rattle.tool_common.specs.Status.{number_of};

    /// The status of the process.
    pub fn number(self) -> u8
        ensures { result ≡ number_of self }
    {
        match self {
            Self::Done => 0,
            Self::Refused(_) => 1,
            Self::Usage => 2,
            Self::ReadFault => 3,
            Self::WriteFault => 4,
            Self::NoMemory => 5,
        }
    }
}

impl<R: Copy> CallStatus for ToolStatus<R> {
    ghost use Rattle.tool_common.specs.Status.{kind_of};

    ghost kind = { kind_of };

    fn write_fault() -> Self {
        ToolStatus::WriteFault
    }

    fn no_memory() -> Self {
        ToolStatus::NoMemory
    }
}
