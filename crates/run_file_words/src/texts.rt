// The lines of a file, and the words of a line.
ghost use Rattle.std.specs.Prelude.{◌≡◌, ◌↔◌, ◌==◌, ◌∷◌, [], not, IsTrue, MatchOption};
ghost use Rattle.std.specs.List.{prefix_len};
ghost use Rattle.std.specs.Str.{bytes_eq};
ghost use Rattle.std.specs.Option.{option_map};
ghost use Rattle.run_file_words.specs.Reading.{single};
ghost use Rattle.run_file_words.specs.Text.{lines_of, lines_left, is_blank, is_skipped, words_of};

/// The first line of a text, and the text behind it, if a byte 10 ends the line.
pub fn next_line(text: &[u8]) -> (&[u8], Option<&[u8]>)
    ensures { lines_of text.now ≡ result.0.now ∷ lines_left result.1 }
{
    let (line, rest) = text.split_at(line_len(text));
    match rest {
        [_, after @ ..] => (line, Some(after)),
        [] => (line, None),
    }
}

/// The first word of a line, and the rest behind it.
pub fn next_word(line: &[u8]) -> Option<(&[u8], &[u8])>
    ensures { MatchOption result (words_of line.now ≡ []) (λ r. words_of line.now ≡ r.0.now ∷ words_of r.1.now) }
{
    let (_, words) = line.split_at(blank_len(line));
    let (word, rest) = words.split_at(word_len(words));
    if word.is_empty() {
        return None;
    }
    Some((word, rest))
}

/// The one word, where there is no other.
pub fn single(words: &[u8]) -> Option<&[u8]>
    ensures { option_map (λ w. w.now) result ≡ single (words_of words.now) }
{
    let (word, rest) = next_word(words)?;
    match next_word(rest) {
        Some(_) => None,
        None => Some(word),
    }
}

/// Whether a word is this one.
pub fn is_word(word: &[u8], wanted: &[u8]) -> bool
    ensures { result ≡ bytes_eq word.now wanted.now }
{
    if word.len() != wanted.len() {
        return false;
    }
    for (byte, wanted_byte) in word.iter().zip(wanted) {
        if byte != wanted_byte {
            return false;
        }
    }
    true
}

/// How many bytes from the first on are in one line.
fn line_len(text: &[u8]) -> usize
    ensures { result ≡ prefix_len (λ b. not (b == 10)) text.now }
{
    text.iter().take_while(|b| **b != b'\n').count()
}

/// How many bytes from the first on are blanks.
fn blank_len(line: &[u8]) -> usize
    ensures { result ≡ prefix_len is_blank line.now }
{
    line.iter().take_while(|b| is_blank(**b)).count()
}

/// How many bytes from the first on are no blanks.
fn word_len(line: &[u8]) -> usize
    ensures { result ≡ prefix_len (λ b. not (is_blank b)) line.now }
{
    line.iter().take_while(|b| !is_blank(**b)).count()
}

/// Whether a byte divides words.
fn is_blank(byte: u8) -> bool
    ensures { result ≡ is_blank byte }
{
    byte == b' ' || byte == b'\t' || byte == b'\r'
}

/// Whether a line says nothing: it has no word, or it is a comment.
pub fn is_skipped(line: &[u8]) -> bool
    ensures { result ≡ is_skipped line.now }
{
    line.starts_with(b"//") || next_word(line).is_none()
}
