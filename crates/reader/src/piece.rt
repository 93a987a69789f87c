// A piece of the sheet, a line or a part of one, with the place where it stands.
ghost use Rattle.std.specs.Prelude.{◌≡◌, ◌+◌, ◌≤◌, ◌<◌, ◌^◌, length, drop};

// Its bytes, and the place where they begin; the place behind them is a usize too.
#[derive(Clone, Copy)]
pub(crate) struct Piece<'a> {
    pub(crate) bytes: &'a [u8],
    pub(crate) at: usize,
    ghost fits: { at + length bytes.now < 2 ^ 64 },
}

impl<'a> Piece<'a> {
    // The place behind it.
    pub(crate) fn end(self) -> usize
        ensures { result ≡ self.entry.at + length self.entry.bytes.now }
    {
        self.at + self.bytes.len()
    }

    // What stands in it behind its first m bytes.
    pub(crate) fn behind(self, m: usize) -> Piece<'a>
        requires { m ≤ length self.bytes.now }
        ensures { (result.at ≡ self.entry.at + m) × (result.bytes.now ≡ drop m self.entry.bytes.now) }
    {
        Piece {
            bytes: &self.bytes[m..],
            at: self.at + m,
        }
    }
}
