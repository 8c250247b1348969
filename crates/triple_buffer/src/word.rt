//! The state word, which says which row is handed over: 8 * number + 4 * fresh + back.
ghost use Rattle.std.specs.Prelude.{◌≡◌, ◌+◌, ◌*◌, ◌^◌, ◌<◌, ◌↔◌, if◌then◌else◌, IsTrue};
ghost use Rattle.triple_buffer.specs.Word.{number_in, fresh_in, back_in, word_of};

/// The state word, field by field.
#[derive(Clone, Copy)]
pub struct StateWord {
    /// The number of the row in `back`, below 2^60.
    pub number: u64,
    /// Whether the reader hasn't had that row yet.
    pub fresh: bool,
    /// Which of the three rows is handed over, 0 to 2.
    pub back: usize,
}

impl StateWord {
    pub fn pack(self) -> u64
        requires number { self.number < 2 ^ 60 }
        requires back { self.back < 3 }
        ensures { result ≡ word_of self.number (if self.fresh then 1 else 0) self.back }
    {
        8 * self.number + if self.fresh { 4 } else { 0 } + self.back as u64
    }

    pub fn unpack(word: u64) -> StateWord
        ensures number { result.number ≡ number_in word }
        ensures fresh { IsTrue result.fresh ↔ (fresh_in word ≡ 1) }
        ensures back { result.back ≡ back_in word }
    {
        StateWord {
            number: word / 8,
            fresh: word / 4 % 2 == 1,
            back: (word % 4) as usize,
        }
    }
}
