ghost use Rattle.std.specs.Prelude.{◌≡◌, ℕ, ◌<◌, List, Option, length, IfOk};
ghost use Rattle.pcj_io.specs.Source.{ReadsAtMost, ReadConsumes, EndsWhereNothingIsLeft};
ghost use Rattle.pcj_io.specs.Faults.{HasCause};

/// A call that did nothing, since what is behind it failed.
#[derive(Clone, Copy, Debug, PartialEq, Eq)]
pub struct Failed;

/// What gives bytes in order.
pub trait Source {
    /// The bytes that reads will give from here on, where the source tells them.
    ghost left: { Self → Option (List ℕ) };

    /// How often the source has failed.
    ghost faults: { Self → ℕ };

    /// Reads some bytes into the front of the buffer, and returns how many: 0 is the end of the input.
    fn read(&mut self, buf: &mut [u8]) -> Result<usize, Failed>
        requires { 0 < length buf.old }
        ensures bound { ReadsAtMost result buf.new }
        ensures bytes { ReadConsumes (left self.old) (left self.new) result buf.new }
        ensures end { IfOk result (EndsWhereNothingIsLeft (left self.old)) }
        ensures cause { HasCause (faults self.old) (faults self.new) result };

    /// How many faults the source has had. The count stops at 2^64 - 1.
    fn faults(&self) -> u64
        ensures { result ≡ faults self.now };
}
