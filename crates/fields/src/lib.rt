// Bytes as fields: a one-byte tag, a two-byte length, a value. Site, light and script are read through this crate.
#![tactic(auto)]

ghost use Rattle.std.specs.Prelude.{◌≡◌, true, ◌+◌, ◌<◌, ◌≤◌, length, get_or};
ghost use Rattle.meaning.specs.Basics.{u16_at};
ghost use Rattle.meaning.specs.Fields.{fields, complete, listed};
ghost use Rattle.fields.specs.Items.{item_of};
ghost use Rattle.fields.specs.Places.{fields_at, Next, Whole};

// The bytes of a field's tag and length.
pub const FIELD_HEADER: usize = 3;

// The reader: a file's bytes with a position.
#[derive(Clone, Copy)]
pub struct Reader<'a> {
    pub bytes: &'a [u8],
    pub at: usize,
}

// A field's tag, where its value starts, the value's length, and where the next field starts.
#[derive(Clone, Copy)]
pub struct Header {
    pub tag: u8,
    pub start: usize,
    pub len: usize,
    pub next: usize,
}

// What stands at a position: a field, one that runs past the end, or nothing.
#[derive(Clone, Copy)]
pub enum Item {
    Field(Header),
    Cut,
    End,
}

// The byte at `at` as a number.
pub fn byte_at(s: &[u8], at: usize) -> usize
    requires { at < length s.now }
    ensures { (result ≡ get_or s.now at 0) × (result < 256) }
{
    s[at] as usize
}

// The number in the two bytes at `at`, high byte first.
pub fn number_at(s: &[u8], at: usize) -> usize
    requires { at + 1 < length s.now }
    ensures { (result ≡ u16_at s.now at) × (result < 65536) }
{
    u16_at(s, at) as usize
}

// The same as a number of two bytes.
pub fn u16_at(s: &[u8], at: usize) -> u16
    requires { at + 1 < length s.now }
    ensures { result ≡ u16_at s.now at }
{
    u16::from_be_bytes([s[at], s[at + 1]])
}

// The work: what stands at a position of a slice.
pub fn item_at(s: &[u8], at: usize) -> Item
    ensures { result ≡ item_of s.now at }
{
    if s.len() <= at {
        return Item::End;
    }
    if s.len() - at < FIELD_HEADER {
        return Item::Cut;
    }
    let len = number_at(s, at + 1);
    if s.len() - at - FIELD_HEADER < len {
        return Item::Cut;
    }
    let start = at + FIELD_HEADER;
    Item::Field(Header {
        tag: s[at],
        start,
        len,
        next: start + len,
    })
}

impl<'a> Reader<'a> {
    // A reader at the first byte.
    pub fn new(bytes: &'a [u8]) -> Self
        ensures { (result.bytes ≡ bytes.entry) × (result.at ≡ 0) }
    {
        Reader { bytes, at: 0 }
    }

    // What stands at the reader's position.
    pub fn next(self) -> Item
        ensures { result ≡ item_of self.entry.bytes.now self.entry.at }
    {
        item_at(self.bytes, self.at)
    }

    // The reader at another position.
    pub fn moved(self, at: usize) -> Self
        ensures { (result.bytes ≡ self.entry.bytes) × (result.at ≡ at) }
    {
        Reader { at, ..self }
    }
}

// The reader for every other caller: a plain slice in, and plain data out.
pub fn read_item(s: &[u8], at: usize) -> Item
    ensures { result ≡ item_of s.now at }
{
    Reader::new(s).moved(at).next()
}

// No field of the bytes is cut. A walk, not a loop over an index: where the next field starts comes from the data.
pub fn fields_complete(s: &[u8]) -> bool
    ensures { result ≡ complete (fields s.now) }
{
    let mut at = 0;
    while at < s.len() {
        let Item::Field(h) = read_item(s, at) else {
            return false;
        };
        at = h.next;
    }
    true
}

// The field at `at`, in bytes of which none is cut.
pub fn header_at(s: &[u8], at: usize) -> Header
    requires { (complete (fields_at s.now at) ≡ true) × (at < length s.now) }
    ensures { Whole s.now at result × (complete (fields_at s.now result.next) ≡ true) }
{
    let Item::Field(h) = read_item(s, at) else {
        unreachable!();
    };
    h
}

// Where the field after the one at `at` starts.
pub fn next_field(s: &[u8], at: usize) -> usize
    requires { (complete (fields_at s.now at) ≡ true) × (at < length s.now) }
    ensures { Next s.now at result }
{
    header_at(s, at).next
}

// How many fields there are from `start` on. A walk as in `fields_complete`, with the count beside it.
pub fn count_fields(s: &[u8], start: usize) -> usize
    requires { (complete (fields_at s.now start) ≡ true) × (start ≤ length s.now) }
    ensures { result ≡ length (listed (fields_at s.now start)) }
{
    let mut at = start;
    let mut n = 0;
    while at < s.len() {
        at = next_field(s, at);
        n += 1;
    }
    n
}
