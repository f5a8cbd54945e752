use mon_types::Side;

/// An injected fault: write or sync number `call` of `disk` fails, and so does every later one. Then the disk settles
/// to an image of its writes that aren't durable. Image 0 has nothing of each such write, 1 all of it, 2 its first
/// half, and 3 a foreign byte in place of each of its bytes.
#[derive(Clone, Copy)]
pub struct InjectedFault {
    pub disk: Side,
    /// Counted from 1. Reads aren't counted.
    pub call: u64,
    pub image: u8,
}
