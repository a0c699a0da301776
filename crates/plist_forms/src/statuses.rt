//! The exit statuses of the program.
ghost use Rattle.std.specs.Prelude.{◌≡◌, ◌≤◌};
ghost use Rattle.plist_forms.specs.Status.{status_code};

/// How the program ends.
#[derive(Clone, Copy, Debug, PartialEq, Eq)]
pub enum Status {
    /// 0: done; the two files are equal; the file is canonical.
    Done,
    /// 1: the two files differ; the file is not canonical.
    Differs,
    /// 2: the input is refused.
    Refused,
    /// 3: the arguments are not understood.
    BadWords,
    /// 4: a file cannot be read or written, or a line cannot be printed.
    DeviceFailed,
    /// 5: out of memory.
    NoMemory,
}

impl Status {
    /// Returns the exit status, from 0 to 5.
    pub fn code(self) -> u8
        ensures code { result ≡ status_code self }
        ensures within { result ≤ 5 }
    {
        match self {
            Status::Done => 0,
            Status::Differs => 1,
            Status::Refused => 2,
            Status::BadWords => 3,
            Status::DeviceFailed => 4,
            Status::NoMemory => 5,
        }
    }
}
