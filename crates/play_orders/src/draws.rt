ghost use Rattle.std.specs.Prelude.{◌<◌};

/// Numbers that look drawn at random, and come from a start alone: the generator SplitMix64 (Steele, Lea and Flood, 2014).
///
/// For each draw the state grows by 11400714819323198485. Of the new state x then comes
/// a = (x xor x / 2^30) * 13787848793156543929, of it b = (a xor a / 2^27) * 10723151780598845931, and the number drawn is b xor b / 2^31.
/// All is counted modulo 2^64.
#[derive(Drop)]
pub struct Draws {
    state: u64,
}

impl Draws {
    /// The draws that begin at this number.
    pub fn new(start: u64) -> Self {
        Draws { state: start }
    }

    /// The next number, of all that 64 bits can say.
    pub fn next(&mut self) -> u64 {
        self.state = self.state.wrapping_add(11_400_714_819_323_198_485);
        let first = (self.state ^ (self.state >> 30)).wrapping_mul(13_787_848_793_156_543_929);
        let second = (first ^ (first >> 27)).wrapping_mul(10_723_151_780_598_845_931);
        second ^ (second >> 31)
    }

    /// The rest of the next number after a division: below this count.
    pub fn below(&mut self, count: u32) -> u32
        requires { 0 < count }
        ensures { result < count }
    {
        (self.next() % u64::from(count)) as u32
    }
}
