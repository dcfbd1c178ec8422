//! How an ask ended.

ghost use Rattle.std.specs.Prelude.{◌≡◌};
ghost use Rattle.restructure_asks.specs.Status.{status_number};

/// How an ask ended; the numbers, 0 to 11 in this order, are the exit statuses, and don't change.
#[derive(Clone, Copy, Debug, PartialEq, Eq)]
pub enum Status {
    /// The ask was done.
    Done,
    /// The words aren't an ask.
    Usage,
    /// The source isn't a program of the language.
    NotSubset,
    /// Control of the program comes to a fault of PERFORM.
    Flow,
    /// A counted quantity passes its limit.
    Limit,
    /// The source failed.
    ReadFault,
    /// The sink of the result failed; it may hold a part of it.
    WriteFault,
    /// A device failed.
    DeviceFault,
    /// The program that ran ended by a fault of its own.
    Abend,
    /// The program still ran after the steps that were asked for.
    Budget,
    /// Out of memory.
    NoMemory,
    /// Two programs that were compared differ.
    Differ,
}

impl Status {
    /// The exit status.
    pub fn number(self) -> u8
        ensures { result ≡ status_number self }
    {
        match self {
            Status::Done => 0,
            Status::Usage => 1,
            Status::NotSubset => 2,
            Status::Flow => 3,
            Status::Limit => 4,
            Status::ReadFault => 5,
            Status::WriteFault => 6,
            Status::DeviceFault => 7,
            Status::Abend => 8,
            Status::Budget => 9,
            Status::NoMemory => 10,
            Status::Differ => 11,
        }
    }
}
