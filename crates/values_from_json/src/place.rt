//! Lines and characters of a text, counted in its bytes.
ghost use Rattle.std.specs.Prelude.{◌≡◌, ◌+◌};
ghost use Rattle.values_from_json.specs.Place.{IsLastLine, characters, line_feeds};

/// The number of line feeds.
pub fn count_line_feeds(text: &[u8]) -> usize
    ensures { result ≡ line_feeds text.now }
{
    let mut count = 0;
    for byte in text {
        if *byte == b'\n' {
            count += 1;
        }
    }
    count
}

/// The number of characters that begin.
pub fn count_characters(text: &[u8]) -> usize
    ensures { result ≡ characters text.now }
{
    let mut count = 0;
    for byte in text {
        if *byte < 0x80 || *byte >= 0xC0 {
            count += 1;
        }
    }
    count
}

/// The bytes after the last line feed.
pub fn last_line(text: &[u8]) -> &[u8]
    ensures { IsLastLine text.now result.now }
{
    let mut start = 0;
    for (place, byte) in text.iter().enumerate() {
        if *byte == b'\n' {
            start = place + 1;
        }
    }
    &text[start..]
}
