//! Devices: sources, sinks and random sources. Contracts describe a device by its bytes, if they are known,
//! and by the number of its errors so far, which stays at 2^64 - 1 once it is reached.

pub mod random_sources;
pub mod sinks;
pub mod sources;

ghost use Rattle.std.specs.Prelude.{◌≡◌, ◌+◌, ◌-◌, ◌^◌, min};

/// The error of a device, without details. A call of the library that uses the device returns an error that
/// says what failed, such as `ReadingFailed`.
#[derive(Clone, Copy, Debug, PartialEq, Eq)]
pub struct DeviceFault;

// The number of errors of a device so far. It stays at 2^64 - 1 instead of overflowing.
#[derive(Clone, Copy)]
struct FaultCount(u64);

impl FaultCount {
    // Counts one more error, and returns the error.
    fn raise(&mut self) -> DeviceFault
        ensures { self.new.0 ≡ min (self.old.0 + 1) (2 ^ 64 - 1) }
    {
        self.0 = self.0.saturating_add(1);
        DeviceFault
    }
}
