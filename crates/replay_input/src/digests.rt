// Digests: many numbers as one, where a case would be too long with all of them. oracle/README.md has the rule.

// A digest with one word more.
pub fn mixed(digest: u64, word: u64) -> u64 {
    let sum = digest.wrapping_add(word);
    let spread = sum.wrapping_add(sum << 25);
    spread ^ (spread >> 29)
}

// What a digest takes, one word for each.
pub trait Word {
    fn word(&self) -> u64;
}

impl Word for u8 {
    fn word(&self) -> u64 {
        u64::from(*self)
    }
}

impl Word for u16 {
    fn word(&self) -> u64 {
        u64::from(*self)
    }
}

impl Word for u64 {
    fn word(&self) -> u64 {
        *self
    }
}

// Twice the magnitude, and one more if it is negative.
impl Word for i16 {
    fn word(&self) -> u64 {
        u64::from(self.unsigned_abs()) * 2 + u64::from(*self < 0)
    }
}

impl Word for i8 {
    fn word(&self) -> u64 {
        i16::from(*self).word()
    }
}

// A digest with some words more.
pub fn with<T: Word>(digest: u64, words: &[T]) -> u64 {
    words.iter().fold(digest, |d, x| mixed(d, x.word()))
}
