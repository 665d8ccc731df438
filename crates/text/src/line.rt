// A line: key, `=`, value, one LF.
ghost use Rattle.std.specs.Prelude.{◌≡◌, ◌≤◌, ◌+◌, ◌-◌, length, take, drop};
ghost use Rattle.std.specs.Option.{option_copied};
ghost use Rattle.text.specs.Ascii.{line_feed};
ghost use Rattle.text.specs.Line.{first, after, line_value, value_of};

const LINE_FEED: u8 = b'\n';

const EQUALS: u8 = b'=';

// Where the first byte b of t is.
pub(crate) fn first(t: &[u8], b: u8) -> Option<usize>
    ensures { result ≡ first b t.now }
{
    t.iter().position(|&x| x == b)
}

// What stands in t from behind the key and its `=` to `end`; nothing where `end` comes before.
fn value_to<'a>(t: &'a [u8], key: &[u8], end: usize) -> &'a [u8]
    requires { end ≤ length t.now }
    ensures { let start = length key.now + 1 in result.now ≡ take (end - start) (drop start t.now) }
{
    let start = key.len() + 1;
    &t[start.min(end)..end]
}

// The value of the line of this key that t begins with: the part of t between the `=` after the key and the LF.
#[tactic(auto, unfolding(crate::specs::Line::value_of), using(crate::proofs::Parts::begins_is, crate::proofs::Parts::equals_is))]
pub fn line_value<'a>(t: &'a [u8], key: &[u8]) -> Option<&'a [u8]>
    ensures { option_copied result ≡ line_value key.now t.now }
{
    let end = first(t, LINE_FEED)?;
    t.strip_prefix(key)?.strip_prefix(&[EQUALS])?;
    Some(value_to(t, key, end))
}

// The same part of any t, whether such a line stands there or not: to the first LF, or to the end where there is none.
#[tactic(auto, unfolding(crate::specs::Line::value_of))]
pub fn value<'a>(t: &'a [u8], key: &[u8]) -> &'a [u8]
    ensures { result.now ≡ value_of key.now t.now }
{
    value_to(t, key, first(t, LINE_FEED).unwrap_or(t.len()))
}

// What follows the first LF of t; nothing where it has none.
#[tactic(auto, unfolding(crate::specs::Line::after))]
pub fn next_line(t: &[u8]) -> &[u8]
    ensures { result.now ≡ after line_feed t.now }
{
    match first(t, LINE_FEED) {
        Some(end) => &t[end + 1..],
        None => &[],
    }
}
