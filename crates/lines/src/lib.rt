// Document 01's form of a reader of lines, kept for its own sake: no other crate calls it, as the reader walks by place.
// A text read line by line: a struct holds the lent text and a place in it. The work is done by functions on the text and the place; those
// over the struct only take it apart and put it together.
#![tactic(auto)]

ghost use Rattle.std.specs.Prelude.{◌≡◌};
ghost use Rattle.text.specs.Lines.{next_at};
ghost use Rattle.text.specs.Part.{LineOf};

use text::Cursor;

// The lent text, and where the next line starts.
#[derive(Clone, Copy)]
pub struct Reader<'a> {
    pub text: &'a [u8],
    pub at: usize,
}

// The line at a place, without its line feed: the caller's own text from there on. At or past the end the empty part at the end.
pub fn line_at<'a>(text: &'a [u8], at: usize) -> &'a [u8]
    ensures { LineOf text.entry at result }
{
    Cursor { at }.line(text)
}

// The place past that line's feed; at or past the end it stays.
pub fn next_at(text: &[u8], at: usize) -> usize
    ensures { result ≡ next_at text.now at }
{
    Cursor { at }.next(text).at
}

// A reader at the top of a text.
pub fn new<'a>(text: &'a [u8]) -> Reader<'a>
    ensures { (result.text ≡ text.entry) × (result.at ≡ 0) }
{
    Reader { text, at: 0 }
}

// The line at the reader's place.
pub fn line<'a>(r: Reader<'a>) -> &'a [u8]
    ensures { LineOf r.entry.text r.entry.at result }
{
    line_at(r.text, r.at)
}

// The reader past that line's feed.
pub fn next<'a>(r: Reader<'a>) -> Reader<'a>
    ensures { (result.text ≡ r.entry.text) × (result.at ≡ next_at r.entry.text.now r.entry.at) }
{
    let at = next_at(r.text, r.at);
    Reader { text: r.text, at }
}
