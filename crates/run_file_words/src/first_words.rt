// The first words of lines.
ghost use Rattle.std.specs.Prelude.{◌≡◌, ℕ, List, find};
ghost use Rattle.std.specs.Option.{option_map};
ghost use Rattle.std.specs.Str.{bytes_eq};
ghost use Rattle.run_file_words.specs.Reading.{keyword_from};
ghost use Rattle.run_file_words.specs.Text.{words_of};

use crate::texts::{is_word, next_word};

/// A word with which lines of one kind begin.
pub trait FirstWord: Copy {
    /// Its bytes.
    ghost spelled: { Self → List ℕ };

    /// Its text.
    fn text(self) -> &'static str
        ensures { result.now ≡ spelled self };
}

/// The one of these with which the words of a line begin, and the rest of the line.
pub fn first_word<'a, K: FirstWord>(keywords: &[K], words: &'a [u8]) -> Option<(K, &'a [u8])>
    ensures { option_map (λ r. (r.0, words_of r.1.now)) result ≡ keyword_from K.spelled keywords.now (words_of words.now) }
{
    let (word, rest) = next_word(words)?;
    Some((keyword_among(keywords, word)?, rest))
}

fn keyword_among<K: FirstWord>(keywords: &[K], word: &[u8]) -> Option<K>
    ensures { result ≡ find (λ k. bytes_eq word.now (K.spelled k)) keywords.now }
{
    keywords
        .iter()
        .copied()
        .find(|keyword| is_word(word, keyword.text().as_bytes()))
}
