// Lines of a lent text: a cursor gives one line at a time, as a part of the caller's own text.
ghost use Rattle.std.specs.Prelude.{◌≡◌};
ghost use Rattle.text.specs.Lines.{end_at, next_at};
ghost use Rattle.text.specs.Part.{LineOf};

use crate::Cursor;

const FEED: u8 = 0x0A;

// Where the line that starts at a place ends: at its line feed, or at the end of the text; past the end, where it starts.
pub fn line_end(text: &[u8], at: usize) -> usize
    ensures { result ≡ end_at text.now at }
{
    for i in at..text.len() {
        if text[i] == FEED {
            return i;
        }
    }
    at.max(text.len())
}

impl Cursor {
    // The top of any text.
    pub fn new() -> Self
        ensures { result ≡ record { at = 0 } }
    {
        Self { at: 0 }
    }

    // The line at the cursor, without its line feed: the text's own part that starts there; at or past the end the empty part at the end.
    pub fn line<'a>(self, text: &'a [u8]) -> &'a [u8]
        ensures { LineOf text.entry self.at result }
    {
        let at = self.at;
        if text.len() <= at {
            return &text[text.len()..];
        }
        let e = line_end(text, at);
        &text[at..e]
    }

    // The cursor past that line's feed; at or past the end it stays.
    pub fn next(self, text: &[u8]) -> Self
        ensures { result ≡ record { at = next_at text.now self.at } }
    {
        let at = self.at;
        if text.len() <= at {
            return self;
        }
        let e = line_end(text, at);
        if e < text.len() {
            return Self { at: e + 1 };
        }
        Self { at: e }
    }
}
