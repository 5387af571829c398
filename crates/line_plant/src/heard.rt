ghost use Rattle.std.specs.Prelude.{◌≤◌};

/// How many bytes of a line are kept.
const MOST_HEARD: usize = 32;

/// How far a line was heard.
#[derive(Clone, Copy, PartialEq, Eq)]
pub enum HeardEnd {
    /// More of it may come.
    Open,
    /// Its line feed came.
    LineFeed,
    /// The answers ended, or a read failed.
    NoMore,
}

/// The first bytes of the last line that came, at most 32, without its line feed: for whoever has to be told of it.
#[derive(Drop)]
pub struct HeardLine {
    bytes: [u8; 32],
    len: usize,
    end: HeardEnd,
    ghost within: { len ≤ 32 },
}

impl HeardLine {
    /// Nothing was heard.
    pub(crate) fn empty() -> Self {
        HeardLine {
            bytes: [0; 32],
            len: 0,
            end: HeardEnd::Open,
        }
    }

    /// One byte more was heard, or none came. Bytes behind the last that is kept are let go.
    pub(crate) fn add(&mut self, byte: Option<u8>) {
        match byte {
            None => self.end = HeardEnd::NoMore,
            Some(b'\n') => self.end = HeardEnd::LineFeed,
            Some(byte) => {
                if self.len < MOST_HEARD {
                    self.bytes[self.len] = byte;
                    self.len += 1;
                }
            }
        }
    }

    /// Whether more of the line may come that would be kept.
    pub(crate) fn is_open(&self) -> bool {
        self.end == HeardEnd::Open && self.len < MOST_HEARD
    }

    /// How far the line was heard.
    pub fn end(&self) -> HeardEnd {
        self.end
    }

    /// The bytes that were kept.
    pub fn as_slice(&self) -> &[u8] {
        &self.bytes[..self.len]
    }
}
