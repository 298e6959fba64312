//! The events of the word machine.

/// One atomic step on a block's word, an event of the word machine (`Machine` in specs/). `thread`
/// is the number of the thread that makes it, and `by` that of the live owner through which it
/// acts. `seen` is the count that it finds. `new` is the number of the owner that it makes, which
/// no owner had before. An event that isn't allowed changes nothing.
#[derive(Clone, Copy, Debug, PartialEq, Eq)]
pub enum Event {
    /// A load of the word. Where the word is lone, the thread is ready afterwards.
    Load {
        thread: u64,
        by: u64,
    },
    /// The promoting exchange of a ready thread found the word lone and put a count of 2 in its
    /// place.
    ExchangeWon {
        thread: u64,
        by: u64,
        new: u64,
    },
    /// The promoting exchange of a ready thread found a count in place already.
    ExchangeLost {
        thread: u64,
        by: u64,
    },
    /// The count, which was less than the greatest, was raised by one for the new owner.
    CountUp {
        thread: u64,
        by: u64,
        seen: u64,
        new: u64,
    },
    /// The count was found at its greatest and left as it was.
    FullFound {
        thread: u64,
        by: u64,
    },
    /// The count was lowered by one, and the owner through which it acts is released.
    CountDown {
        thread: u64,
        by: u64,
        seen: u64,
    },
    /// The count was read to learn whether the owner is alone.
    UniquenessLoad {
        thread: u64,
        by: u64,
        seen: u64,
    },
}

impl Event {
    ghost use Rattle.std.specs.Prelude.{◌≡◌};
    ghost use Rattle.arc_owners.specs.history.Machine.{actor};

    /// The number of the owner through which the thread acts.
    pub(crate) fn by(&self) -> u64
        ensures { result ≡ actor self.now }
    {
        match *self {
            Event::Load { by, .. }
            | Event::ExchangeWon { by, .. }
            | Event::ExchangeLost { by, .. }
            | Event::CountUp { by, .. }
            | Event::FullFound { by, .. }
            | Event::CountDown { by, .. }
            | Event::UniquenessLoad { by, .. } => by,
        }
    }
}
