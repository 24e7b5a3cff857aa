ghost use Rattle.std.specs.Prelude.{◌≡◌, ◌<◌, ◌+◌, ◌^◌, ◌%◌};
ghost use Rattle.gp_layout.specs.Words as bits;

/// How many data words `r` or `w` have passed.
pub fn words_of(word: u64) -> u32
    ensures { result ≡ bits.words_of word }
{
    (word % (1 << 32)) as u32
}

/// How many tags `r` or `w` have passed.
pub fn tags_of(word: u64) -> u32
    ensures { result ≡ bits.tags_of word }
{
    (word >> 34) as u32
}

/// `w` after so many more data words and tags. Its flags stay.
pub fn raised(w: u64, words: u32, tags: u32) -> u64
    requires words { bits.words_of w + words < 2 ^ 32 }
    requires tags { bits.tags_of w + tags < 2 ^ 30 }
    ensures words { bits.words_of result ≡ bits.words_of w + words }
    ensures tags { bits.tags_of result ≡ bits.tags_of w + tags }
    ensures word { result ≡ w + bits.counts_word words tags }
{
    w + ((tags as u64) << 34) + words as u64
}
