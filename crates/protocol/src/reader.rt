// The struct alone; what its methods read is in specs/Next.antt.
ghost use Rattle.std.specs.Prelude.{◌+◌, ◌^◌, ◌<◌, ◌≤◌, length};

// A row of bytes that is read from the byte `start` on, so far `read` bytes of it.
#[derive(Clone, Copy)]
pub struct Reader<'a> {
    pub bytes: &'a [u8],
    pub start: usize,
    pub read: usize,
    ghost within: { start + read ≤ length bytes.now },
    ghost short: { length bytes.now < 2 ^ 32 },
}
