// The words of a line, and what stands before its comment.
ghost use Rattle.std.specs.Prelude.{◌≡◌, position};
ghost use Rattle.text.specs.Words.{blank, dark, uncommented, NextWord};

/// What stands before the comment, which begins with `#`, or the whole line.
pub fn before_comment(line: &str) -> &str
    ensures { result.now ≡ uncommented line.now }
{
    line.split_once('#').map_or(line, |(before, _)| before)
}

/// The first word and what comes behind it. None if there is no word.
pub fn next_word(line: &str) -> Option<(&str, &str)>
    ensures { NextWord line.now result }
{
    let start = first_dark(line.as_bytes())?;
    let (_, rest) = line.split_at(start);
    let end = first_blank(rest.as_bytes()).unwrap_or(rest.len());
    Some(rest.split_at(end))
}

// Where the first byte is that is no blank. Here and below bytes are passed one by one: by
// characters, a long run of blanks or a long word takes half as long again.
fn first_dark(bytes: &[u8]) -> Option<usize>
    ensures { result ≡ position dark bytes.now }
{
    bytes.iter().position(|byte| !is_blank(*byte))
}

// Where the first blank is.
fn first_blank(bytes: &[u8]) -> Option<usize>
    ensures { result ≡ position blank bytes.now }
{
    bytes.iter().position(|byte| is_blank(*byte))
}

// Whether a byte stands between words.
fn is_blank(byte: u8) -> bool
    ensures { result ≡ blank byte }
{
    byte == b' ' || byte == b'\t' || byte == b'\r'
}
