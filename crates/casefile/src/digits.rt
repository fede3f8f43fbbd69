//! Digits in columns: reading and writing the columns of one field, from the last to the first.
ghost use Rattle.std.specs.Prelude.{◌≡◌, ℕ, ◌+◌, ◌*◌, ◌/◌, ◌%◌, ◌^◌, ◌<◌, ◌≤◌, length, IfSome, MatchOption, ◌≢◌};
ghost use Rattle.casefile.specs.Fields.{digit, mark, front, field_of, justified};
ghost use Rattle.casefile.specs.Questions.{WellFormed};

use super::number::{Number, WIDEST};

// One more column before the last: `above` is what stands before it, 0 where all is blank.
fn next(above: u32, byte: u8) -> Option<u32>
    requires { above < 100000000 }
    ensures { MatchOption result
        ((n : ℕ) → n / 10 ≡ above → mark n ≢ byte)
        (λ n. (n / 10 ≡ above) × (mark n ≡ byte)) }
{
    match (above, byte) {
        (0, b' ') => Some(0),
        (0, b'0') => None,
        _ => last(above, byte),
    }
}

// The last column, which is a digit.
fn last(above: u32, byte: u8) -> Option<u32>
    requires { above < 100000000 }
    ensures { MatchOption result
        ((n : ℕ) → n / 10 ≡ above → digit n ≢ byte)
        (λ n. (n / 10 ≡ above) × (digit n ≡ byte)) }
{
    match byte {
        b'0'..=b'9' => Some(above * 10 + u32::from(byte - b'0')),
        _ => None,
    }
}

// The byte of the last digit.
fn digit_of(n: u32) -> u8
    ensures { result ≡ digit n }
{
    b'0' + (n % 10) as u8
}

// The byte of the last digit, or a space where nothing is left.
fn mark_of(n: u32) -> u8
    ensures { result ≡ mark n }
{
    if n == 0 { b' ' } else { digit_of(n) }
}

// The number whose columns before the last one these are.
// Tried as a loop: its early return has to speak of columns that it never reads. A `try_fold` has no bound on `above`.
fn read_front(text: &[u8]) -> Option<u32>
    requires { length text.now ≤ 8 }
    ensures { MatchOption result
        ((n : ℕ) → n < 10 ^ length text.now → text.now ≢ front (length text.now) n)
        (λ n. (n < 10 ^ length text.now) × (text.now ≡ front (length text.now) n)) }
{
    let [rest @ .., byte] = text else {
        return Some(0);
    };
    let above = read_front(rest)?;
    next(above, *byte)
}

// The number whose columns these are, of a field that is as wide as the text. The last one is a digit, also of 0.
fn read_columns(text: &[u8]) -> Option<u32>
    requires { length text.now ≤ 9 }
    ensures { MatchOption result
        ((n : ℕ) → n < 10 ^ length text.now → text.now ≢ field_of (length text.now) n)
        (λ n. (n < 10 ^ length text.now) × (text.now ≡ field_of (length text.now) n)) }
{
    let [rest @ .., byte] = text else {
        return None;
    };
    let above = read_front(rest)?;
    last(above, *byte)
}

// The number whose field of `W` columns this text is.
#[tactic(auto, using(crate::proofs::Justified::of_width))]
pub(crate) fn read_number<const W: usize>(text: &[u8]) -> Option<Number<W>>
    ensures digits { IfSome result (λ n. text.now ≡ justified W n.value) }
    ensures answer { MatchOption result
        (WellFormed W text.now → ⊥)
        (λ n. text.now ≡ field_of W n.value) }
{
    if text.len() != W || W > WIDEST {
        return None;
    }
    let value = read_columns(text)?;
    Some(Number { value })
}

// Writes the columns before the last one. By recursion: nothing is known of a slice after `iter_mut().rev()`.
fn put_front(out: &mut [u8], n: u32)
    ensures { out.new ≡ front (length out.old) n }
{
    if let Some((byte, rest)) = out.split_last_mut() {
        *byte = mark_of(n);
        put_front(rest, n / 10);
    }
}

// Writes the number into a field as wide as `out`. The last column is a digit, also of 0.
pub(crate) fn put_number(out: &mut [u8], n: u32)
    requires { 0 < length out.old }
    ensures { out.new ≡ field_of (length out.old) n }
{
    // There is a last byte, as is required.
    let (byte, rest) = out.split_last_mut().unwrap();
    *byte = digit_of(n);
    put_front(rest, n / 10);
}
