// A count of items that is held to the buffer that it counts in.
#![tactic(auto)]

ghost use Rattle.std.specs.Prelude.{◌≡◌};
ghost use Rattle.buffers.specs.CountWithin.{count_within, HasBytes};

// A number of items at a buffer's start: n where the buffer has so many, else 0.
pub fn within<T>(n: u64, items: &[T]) -> usize
    ensures has_bytes { HasBytes result items.now }
    ensures value { result ≡ count_within n items.now }
{
    if n <= items.len() as u64 {
        n as usize
    } else {
        0
    }
}
