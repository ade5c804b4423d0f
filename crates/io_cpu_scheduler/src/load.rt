use lists::Sequence;

/// A fragment as the scheduler sees it: the pages that it reads, from 0 to 2^40, and the time that
/// it takes on one backend, from 1 to 2^40.
#[derive(Clone, Copy, Debug, PartialEq, Eq)]
pub struct Load {
    pub fragment: u32,
    pub pages: u64,
    pub time: u64,
}

/// Loads in any order.
pub type LoadList = Sequence<Load>;

/// A fragment and the number of its backends.
#[derive(Clone, Copy, Debug, PartialEq, Eq)]
pub struct Part {
    pub fragment: u32,
    pub degree: u32,
}

/// What runs from now on. Of two parts the first has the lower fragment number, and a part alone is
/// the first.
#[derive(Clone, Copy, Debug, PartialEq, Eq)]
pub struct Decision {
    pub first: Option<Part>,
    pub second: Option<Part>,
}

/// Whether the drives or the processors bound a load.
#[derive(Clone, Copy, Debug, PartialEq, Eq)]
pub enum Class {
    Io,
    Cpu,
}

impl Class {
    ghost use Rattle.std.specs.Prelude.{◌≡◌};
    ghost use Rattle.io_cpu_scheduler.specs.Degrees.{other_class};

    pub(crate) fn other(self) -> Class
        ensures { result ≡ other_class self }
    {
        match self {
            Class::Io => Class::Cpu,
            Class::Cpu => Class::Io,
        }
    }
}
