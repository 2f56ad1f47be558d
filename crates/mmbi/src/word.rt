// A word of Host_RWS or Host_ROS (Tables 3 and 4 of 003): a pointer and two flags in one number.
ghost use Rattle.std.specs.Prelude.{◌≡◌};
ghost use Rattle.mmbi.specs.Words.{word_of, number_of};

// The pointer is a byte offset; `bit1` is bit 1 of the word (H_UP, B_UP, or reserved), `bit0` bit 0 (H_RST, B_RST,
// H_RDY or B_RDY).
#[derive(Clone, Copy, PartialEq, Eq)]
pub struct Word {
    pub pointer: usize,
    pub bit1: bool,
    pub bit0: bool,
}

// The word that a number holds.
impl From<u32> for Word {
    ghost from_gives = { λ n word. word ≡ word_of n };

    #[tactic(auto, unfolding(crate::specs::Words::word_of))]
    fn from(n: u32) -> Word {
        Word {
            pointer: (n / 4 * 4) as usize,
            bit1: n / 2 % 2 == 1,
            bit0: n % 2 == 1,
        }
    }
}

// The number that holds a word. Bits of the pointer that have no place in it never touch a flag.
impl From<Word> for u32 {
    ghost from_gives = { λ word n. n ≡ number_of word };

    #[tactic(auto, unfolding(crate::specs::Words::number_of))]
    fn from(word: Word) -> u32 {
        (word.pointer / 4 % 1073741824 * 4) as u32 + u32::from(word.bit1) * 2 + u32::from(word.bit0)
    }
}
