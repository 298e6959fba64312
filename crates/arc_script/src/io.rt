//! Readers and writers, with what their calls have given or taken.
ghost use Rattle.std.specs.Prelude.{◌≡◌, ◌≤◌, ℕ, List, Option, length, IfOk};
ghost use Rattle.std.specs.Borrow.{ftrue};
ghost use Rattle.std.specs.Io.KnownBytes.{ReadConsumes, WriteAppends};
ghost use Rattle.std.specs.Result.{result_ok};
ghost use Rattle.arc_script.specs.Traffic.{Traffic, WithTraffic, after_call, no_traffic};

use std::io;
use std::io::{Read, Write};
use std::marker::Model;

/// A reader that gives a script its bytes: `read` of std. Contracts read in `traffic` which bytes
/// it has given, which of them the last read gave, how many reads failed, and how many found the
/// end.
pub trait Source {
    /// What its reads have given.
    ghost traffic: { Self → Traffic };

    /// What its further reads give, where that is known.
    ghost remaining: { Self → Option (List ℕ) };

    /// Reads into the front of `buf`, and answers how many bytes: 0 where `buf` is empty or the end
    /// is found.
    ///
    /// # Errors
    ///
    /// The reader's own.
    fn read(&mut self, buf: &mut [u8]) -> io::Result<usize>
        ensures bound { IfOk result (λ n. n ≤ length buf.new) }
        ensures told { traffic self.new ≡ after_call (traffic self.old) buf.new (result_ok result) }
        ensures bytes { ReadConsumes (remaining self.old) (remaining self.new) result buf.new };
}

/// A writer that takes a script's replies: `write` of std. Contracts read in `traffic` which bytes
/// it has taken, how many writes failed, and how many took nothing.
pub trait Sink {
    /// What its writes have taken.
    ghost traffic: { Self → Traffic };

    /// What it holds, where that is known.
    ghost contents: { Self → Option (List ℕ) };

    /// Writes from the front of `buf`, and answers how many bytes it took.
    ///
    /// # Errors
    ///
    /// The writer's own.
    fn write(&mut self, buf: &[u8]) -> io::Result<usize>
        ensures bound { IfOk result (λ n. n ≤ length buf.now) }
        ensures told { traffic self.new ≡ after_call (traffic self.old) buf.now (result_ok result) }
        ensures bytes { WriteAppends (contents self.old) (contents self.new) result buf.now };
}

/// A call of a reader or a writer.
#[derive(Clone, Copy)]
pub struct Call<'a> {
    /// The slice that is lent to the call.
    pub slice: &'a [u8],
    /// How many of its first bytes the call gives or takes, `None` where it fails.
    pub passed: Option<usize>,
}

/// The calls of a reader or writer up to here. It has no bytes, and its methods do nothing at run
/// time.
#[derive(Drop)]
pub struct Log {
    /// What the calls have given or taken.
    pub ghost traffic: { Traffic },
}

impl Model for Log {
    ghost also_owns = { λ _. ftrue };
}

impl Log {
    /// A log without calls.
    pub fn new() -> Log
        ensures { result.traffic ≡ no_traffic }
    {
        Log {}
    }

    /// The log with one call more.
    pub fn then(&self, _call: &Call) -> Log
        ensures { result.traffic
            ≡ after_call self.now.traffic _call.now.slice.now _call.now.passed }
    {
        Log {}
    }
}

/// A reader or writer of std, with the log of its calls.
#[derive(Drop)]
pub struct Counted<T> {
    device: T,
    log: Log,
}

impl<T> Model for Counted<T> {
    ghost Value = { WithTraffic T };

    ghost view = { λ c. record { device = c.device; traffic = c.log.traffic } };
}

impl<T> Counted<T> {
    /// A reader or writer, with a log without calls.
    pub fn new(device: T) -> Self
        ensures { result ≡ record { device = device; traffic = no_traffic } }
    {
        Counted {
            device,
            log: Log::new(),
        }
    }
}

impl<T: Read> Source for Counted<T> {
    ghost traffic = { λ c. c.traffic };

    ghost remaining = { λ c. T.remaining c.device };

    fn read(&mut self, buf: &mut [u8]) -> io::Result<usize> {
        let result = self.device.read(buf);
        let passed = match &result {
            Ok(n) => Some(*n),
            Err(_) => None,
        };
        self.log = self.log.then(&Call { slice: buf, passed });
        result
    }
}

impl<T: Write> Sink for Counted<T> {
    ghost traffic = { λ c. c.traffic };

    ghost contents = { λ c. T.contents c.device };

    fn write(&mut self, buf: &[u8]) -> io::Result<usize> {
        let result = self.device.write(buf);
        let passed = match &result {
            Ok(n) => Some(*n),
            Err(_) => None,
        };
        self.log = self.log.then(&Call { slice: buf, passed });
        result
    }
}
