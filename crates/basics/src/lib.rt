// What every layer above the engine shares: the numbers of the answers, marks, numbers that come in wide, and texts read and
// compared whatever their lengths are.
#![tactic(auto)]

ghost use Rattle.std.specs.Prelude.{◌≡◌, ◌+◌, ◌<◌, get_or, length};
ghost use Rattle.std.specs.Result.{result_unwrap_or};
ghost use Rattle.laws.specs.All.{all};
ghost use Rattle.laws.specs.Same.{same};
ghost use Rattle.laws.specs.Tabulate.{tabulate};
ghost use Rattle.aes.specs.State.{byte, Bytes};
ghost use Rattle.basics.specs.Answers.{number_of, answer_of};
ghost use Rattle.basics.specs.Bytes.{block_at, put_block, uid_from};
ghost use Rattle.basics.specs.Marks.{is_mark};
ghost use Rattle.basics.specs.Wide.{saturated};

use std::array;

// ---- answers

// The answer of a call that did what it was asked to.
pub const NO_ERROR: u8 = 0;

// Why a call is refused: the other answers of the paper's table. One that nothing answers yet is not among them.
#[derive(Clone, Copy, Debug, PartialEq, Eq)]
pub enum Refusal {
    SequenceError = 1,
    KeyNotAvailable = 2,
    KeyInvalid = 3,
    KeyEmpty = 4,
    NoSecureBoot = 5,
    KeyWriteProtected = 6,
    KeyUpdateError = 7,
    RngSeed = 8,
    GeneralError = 12,
}

// The number that the paper's table gives it.
impl From<Refusal> for u8 {
    ghost from_gives = { λ refusal number. number ≡ number_of refusal };

    fn from(refusal: Refusal) -> u8 {
        refusal as u8
    }
}

// The number of an answer, as C has it.
pub fn answer_of<T: Copy>(reply: Result<T, Refusal>) -> u8
    ensures { result ≡ answer_of reply }
{
    match reply {
        Ok(_) => NO_ERROR,
        Err(refusal) => u8::from(refusal),
    }
}

// Stores what a call hands back in the place of what it was asked about, and answers. A refusal leaves what stood there.
pub fn store<T: Copy>(place: &mut T, reply: Result<T, Refusal>) -> u8
    ensures value { result ≡ answer_of reply }
    ensures place_after { place.new ≡ result_unwrap_or reply place.old }
{
    *place = reply.unwrap_or(*place);
    answer_of(reply)
}

// ---- marks

// Bytes; a record with any other byte in the place of one is not believed.
pub const OFF: u8 = 0;

pub const ON: u8 = 1;

// Whether each byte is a mark, on or off.
#[tactic(auto, using(laws::proofs::AllOf::all_decided))]
pub fn are_marks(bytes: &[u8]) -> bool
    ensures { result ≡ all (length bytes.now) (λ i. is_mark (byte bytes.now i)) }
{
    bytes.iter().all(|byte| *byte <= ON)
}

// ---- wide numbers

// A slot, flags or the length of a MAC as a byte: what is too wide is the largest byte, and never its last digits.
#[tactic(auto, using(crate::proofs::Wide::narrowed))]
pub fn to_byte(number: u32) -> u8
    ensures { result ≡ saturated 255 number }
{
    u8::try_from(number).unwrap_or(u8::MAX)
}

// ---- texts

// What stands at a place, and something else past the end.
pub fn item_at<T: Copy>(row: &[T], i: usize, none: T) -> T
    ensures { result ≡ get_or row.now i none }
{
    row.get(i).copied().unwrap_or(none)
}

// A byte of a text, and 0 past its end.
pub fn byte_at(text: &[u8], i: usize) -> u8
    ensures { result ≡ byte text.now i }
{
    item_at(text, i, 0)
}

// N bytes of a text from a place on, filled up with zeros.
#[tactic(auto, using(laws::proofs::Made::made))]
fn bytes_at<const N: usize>(text: &[u8], at: usize) -> [u8; N]
    requires { at + N < 65536 }
    ensures { result ≡ tabulate N (λ i. byte text.now (at + i)) }
{
    array::from_fn(|i| byte_at(text, at + i))
}

// A block of a text by its number, filled up with zeros. That whatever can be lent holds bytes, as theorems ask of a text, is
// promised here for all of them.
#[tactic(auto, unfolding(crate::specs::Bytes::block_at))]
pub fn block_at(text: &[u8], number: u8) -> [u8; 16]
    ensures value { result ≡ block_at text.now number }
    ensures bytes { Bytes text.now }
{
    bytes_at(text, 16 * (number as usize))
}

// Fifteen keys, one of them put anew.
#[tactic(auto, unfolding(crate::specs::Bytes::put_block), using(crate::proofs::Bytes::copied))]
pub fn put_block(keys: [u8; 240], number: u8, block: [u8; 16]) -> [u8; 240]
    ensures { result ≡ put_block keys number block }
{
    let mut after = keys;
    if number < 15 {
        let first = 16 * (number as usize);
        after[first..first + 16].copy_from_slice(&block);
    }
    after
}

// The first 15 bytes of a text, filled up with zeros.
#[tactic(auto, unfolding(crate::specs::Bytes::uid_from))]
pub fn uid_from(text: &[u8]) -> [u8; 15]
    ensures { result ≡ uid_from text.now }
{
    bytes_at(text, 0)
}

// Whether two texts are the same. All bytes are looked at, wherever they differ, so that the time tells nothing of where.
pub fn is_same(a: &[u8], b: &[u8]) -> bool
    ensures { result ≡ same a.now b.now }
{
    if a.len() != b.len() {
        return false;
    }
    a.iter().zip(b).fold(true, |agree, (x, y)| agree & (x == y))
}
