// What programs share in reading a text and in writing one: parts of it, numbers for a parameter, and hexadecimal digits. Nothing
// here reads or writes a file: the programs do that themselves.
#![tactic(auto)]

ghost use Rattle.std.specs.Prelude.{◌≡◌, cond, ◌-◌, ◌*◌, ◌/◌, ◌%◌, ◌≤◌, min, eqb, length, take, drop, get_or, set};
ghost use Rattle.text.specs.Buffers.{HasFront, over};
ghost use Rattle.text.specs.Hex.{letter_of, digit_value, in_digits, digits_in, pairs};
ghost use Rattle.text.specs.Marks.{index_of, before_mark, after_mark};
ghost use Rattle.text.specs.Numbers.{in_four};

// ---- parts

// How many bytes the front of n has: n, or as many as there are. With it a front that is to be written is taken, as
// `&mut buffer[..size]`, of which the prover asks `HasFront` and no more. A function that handed that front out could not promise
// what the buffer holds afterwards.
pub fn front_size(bytes: &[u8], n: u64) -> usize
    ensures value { result ≡ min n (length bytes.now) }
    ensures has_front { HasFront result bytes.now }
{
    bytes.len().min(n as usize)
}

// The first n bytes, or all.
pub fn front(bytes: &[u8], n: u64) -> &[u8]
    ensures { result.now ≡ take n bytes.now }
{
    bytes.get(..n as usize).unwrap_or(bytes)
}

// What comes after the first n bytes.
pub fn rest(bytes: &[u8], n: u64) -> &[u8]
    ensures { result.now ≡ drop n bytes.now }
{
    bytes.get(n as usize..).unwrap_or(&[])
}

// The last n bytes, or all.
pub fn last(bytes: &[u8], n: u64) -> &[u8]
    ensures { result.now ≡ drop (length bytes.now - n) bytes.now }
{
    rest(bytes, (bytes.len() as u64).saturating_sub(n))
}

// ---- what marks part: lines, words, operands

// Where the first such mark stands, or the text's end.
#[tactic(auto, using(crate::proofs::Marks::first_mark))]
fn place_of(text: &[u8], mark: u8) -> usize
    ensures value { result ≡ index_of mark text.now }
    ensures upper_bound { result ≤ length text.now }
{
    text.iter().position(|c| *c == mark).unwrap_or(text.len())
}

// What stands before the first such mark: all, where there is none.
#[tactic(auto, unfolding(crate::specs::Marks::before_mark))]
pub fn before(text: &[u8], mark: u8) -> &[u8]
    ensures { result.now ≡ before_mark mark text.now }
{
    front(text, place_of(text, mark) as u64)
}

// What comes after the first such mark: nothing, where there is none.
#[tactic(auto, unfolding(crate::specs::Marks::after_mark))]
pub fn after(text: &[u8], mark: u8) -> &[u8]
    ensures { result.now ≡ after_mark mark text.now }
{
    let next = place_of(text, mark) + 1;
    rest(text, next as u64)
}

// ---- numbers

// A number for a parameter of 8 bits, or of 32: too large a one becomes the largest.
pub fn byte_of(value: u64) -> u8
    ensures { result ≡ min value 255 }
{
    u8::try_from(value).unwrap_or(u8::MAX)
}

pub fn word_of(value: u64) -> u32
    ensures { result ≡ min value 0xffffffff }
{
    u32::try_from(value).unwrap_or(u32::MAX)
}

// A number's four bytes, the most significant first.
pub fn bytes_of(word: u32) -> [u8; 4]
    ensures { result ≡ in_four word }
{
    word.to_be_bytes()
}

// ---- hexadecimal digits

const LETTERS: [u8; 16] = *b"0123456789abcdef";

fn letter_of(n: u8) -> u8
    ensures { result ≡ letter_of n }
{
    LETTERS[(n % 16) as usize]
}

// The value of a digit, and 16 for any other character.
pub fn digit(c: u8) -> u8
    ensures { result ≡ digit_value c }
{
    place_of(&LETTERS, c) as u8
}

// One of the digits of some bytes, and 0 past the last.
#[tactic(auto, using(crate::proofs::Hex::digits))]
fn digit_at(bytes: &[u8], i: usize) -> u8
    ensures { result ≡ get_or (in_digits bytes.now) i 0 }
{
    let Some(byte) = bytes.get(i / 2) else {
        return 0;
    };
    if i % 2 == 0 {
        letter_of(*byte / 16)
    } else {
        letter_of(*byte)
    }
}

// Puts bytes in digits at the front of a buffer, as far as there is room, and answers how many digits those are.
#[tactic(auto, using(crate::proofs::Hex::putting))]
pub fn to_hex(bytes: &[u8], digits: &mut [u8]) -> usize
    ensures digits_after { digits.new ≡ over (in_digits bytes.now) digits.old }
    ensures value { result ≡ min (2 * length bytes.now) (length digits.old) }
{
    let end = front_size(digits, 2 * (bytes.len() as u64));
    for i in 0..end {
        digits[i] = digit_at(bytes, i);
    }
    end
}

// Puts a byte into its place, where there is room, if the digit that comes after `count` others is the second of a byte.
fn put_second(bytes: &mut [u8], count: usize, byte: u8)
    ensures { bytes.new ≡ cond (eqb (count % 2) 0) bytes.old (set bytes.old (count / 2) byte) }
{
    if count % 2 == 0 {
        return;
    }
    let at = count / 2;
    if at < bytes.len() {
        bytes[at] = byte;
    }
}

// Puts the bytes that a text has in digits, whatever stands between these, at the front of a buffer, as far as there is room,
// and answers how many digits the text has: whoever asks for a length sees one that has no room, or half a byte.
#[tactic(auto, using(crate::proofs::Digits::reading), unfolding(crate::specs::Hex::digits_in, crate::specs::Hex::pairs))]
pub fn from_hex(text: &[u8], bytes: &mut [u8]) -> usize
    ensures bytes_after { bytes.new ≡ over (pairs (digits_in text.now)) bytes.old }
    ensures value { result ≡ length (digits_in text.now) }
{
    let mut count: usize = 0;
    let mut high: u8 = 0;
    for c in text {
        let d = digit(*c);
        if d < 16 {
            put_second(bytes, count, 16 * high + d);
            high = d;
            count += 1;
        }
    }
    count
}
