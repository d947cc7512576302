//! Which of several channels takes a lane.

ghost use Rattle.std.specs.Prelude.{◌≡◌, ◌<◌, ◌%◌};

/// The place of the channel that takes this lane, among so many that take the lanes in turn. It is
/// the remainder, which a mask tells where their number is a power of two.
#[inline(always)]
pub fn turn(lane: u64, parallelism: usize) -> usize
    requires { 0 < parallelism }
    ensures { result ≡ lane % parallelism }
{
    let parallelism = parallelism as u64;
    let mask = parallelism - 1;
    if parallelism & mask == 0 {
        (lane & mask) as usize
    } else {
        (lane % parallelism) as usize
    }
}
