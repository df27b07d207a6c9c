//! Texts of bytes: decimal numbers written, measured, read and compared; lines told apart.

#![tactic(auto)]

ghost use Rattle.std.specs.Prelude.{◌≡◌, ◌+◌, ◌^◌, ◌<◌, ◌≤◌, true, ◌∷◌, length, Some, None, decimal, MatchOption, nat_le};
ghost use Rattle.std.specs.Iterator.{YieldsFirstRef, item_count};
ghost use Rattle.numeral.specs.Decimals.{ReadsWhatIsWritten, WritesWhatIsRead, number_of, numeral, read_on, read_up_to};
ghost use Rattle.numeral.specs.Texts.{cut, lines, written};

/// How many digits a number has.
pub fn digits(n: u32) -> usize
    ensures counts_digits { result ≡ length (decimal n) }
    ensures ten_at_most { result ≤ 10 }
{
    n.checked_ilog10().map_or(1, |power| power as usize + 1)
}

/// Writes a number at `at`, and says where it ends.
pub fn put_number(buffer: &mut [u8], at: usize, n: u32) -> usize
    requires { at + length (decimal n) ≤ length buffer.old }
    ensures ends_after_number { result ≡ at + length (decimal n) }
    ensures writes_number_alone { buffer.new ≡ written at (decimal n) buffer.old }
{
    // `write!` into the lent bytes was tried: std's contract does not say which bytes it leaves there.
    if n < 10 {
        buffer[at] = b'0' + n as u8;
        return at + 1;
    }
    let last = put_number(buffer, at, n / 10);
    buffer[last] = b'0' + (n % 10) as u8;
    last + 1
}

/// The number that the digits write, or `most` where it is more; none where one is no digit.
fn read_digits(text: &[u8], most: u32) -> Option<u32>
    ensures reads_digits { result ≡ read_on most 0 text.now }
{
    // `try_fold` was tried: what is proved of it leaves the number open.
    let mut n: u32 = 0;
    for b in text {
        let digit = char::from(*b).to_digit(10)?;
        n = n.saturating_mul(10).saturating_add(digit).min(most);
    }
    Some(n)
}

/// The number that the text writes, or `most` where it is more, so that no length wraps; none
/// where the text is no number.
pub fn read_number(text: &[u8], most: u32) -> Option<u32>
    ensures reads_number { result ≡ read_up_to most text.now }
{
    match text {
        [] | [b'0', _, ..] => None,
        digits => read_digits(digits, most),
    }
}

/// Whether one number is at most another, however long they are.
pub fn at_most(one: &[u8], other: &[u8]) -> bool
    requires one_is_number { numeral one.now ≡ true }
    requires other_is_number { numeral other.now ≡ true }
    ensures compares_numbers { result ≡ nat_le (number_of one.now) (number_of other.now) }
{
    (one.len(), one) <= (other.len(), other)
}

/// The part before the first `mark`, and the part after it.
pub fn cut_at(text: &[u8], mark: u8) -> Option<(&[u8], &[u8])>
    ensures cuts_at_first { MatchOption result (cut mark text.now ≡ None) (λ p. cut mark text.now ≡ Some (p.0.now, p.1.now)) }
{
    let at = text.iter().position(|b| *b == mark)?;
    Some((&text[..at], &text[at + 1..]))
}

/// The first line of a text that has one, and the text after it.
pub fn first_line(text: &[u8]) -> (&[u8], &[u8])
    requires { 0 < length text.now }
    ensures takes_first_line { lines text.now ≡ result.0.now ∷ lines result.1.now }
    ensures leaves_less { length result.1.now < length text.now }
{
    cut_at(text, b'\n').unwrap_or((text, b""))
}

/// The lines of a text, one after another.
#[derive(Clone, Copy, Debug)]
pub struct Lines<'a>(pub &'a [u8]);

impl<'a> Iterator for Lines<'a> {
    type Item = &'a [u8];

    ghost next_gives = { YieldsFirstRef (λ s. lines s.0.now) };

    ghost remaining = { item_count (λ s. lines s.0.now) };

    fn next(&mut self) -> Option<&'a [u8]> {
        if self.0.is_empty() {
            return None;
        }
        let (line, rest) = first_line(self.0);
        self.0 = rest;
        Some(line)
    }
}

/// Each number has one text: what is written is read back, and what is read is what it writes.
pub fn numbers_read_back_stands()
    ensures reads_what_is_written { ReadsWhatIsWritten }
    ensures writes_what_is_read { WritesWhatIsRead }
{}
