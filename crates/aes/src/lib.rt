// AES-128 of FIPS 197, byte by byte: the plain engine.
//
// A key schedule is made once and lent to each block.
#![tactic(auto)]

ghost use Rattle.std.specs.Prelude.{◌≡◌, ◌++◌, ℕ, ◌+◌, ◌-◌, ◌*◌, ◌<◌, ◌≤◌, length, take};
ghost use Rattle.laws.specs.Tabulate.{tabulate};
ghost use Rattle.field.specs.Sbox.{table};
ghost use Rattle.aes.specs.Engine.{on_column, four_columns, Mixed};
ghost use Rattle.aes.specs.Steps.{substitute, move_rows, mix_column, inv_mix_column, mix_columns, inv_mix_columns, add_round_key};
ghost use Rattle.aes.specs.Schedule.{word, add_word, rot_word, sub_word, power_of_x, next_word, key_expansion};
ghost use Rattle.aes.specs.Cipher.{cipher_with, inv_cipher_with, cipher, inv_cipher};

use std::array;

// A substitution of each byte by a lent table, that of any rule on bytes: SubBytes by the S-box, InvSubBytes by its inverse.
fn sub_bytes(boxes: &[u8; 256], s: [u8; 16]) -> [u8; 16]
    ensures { (f : ℕ → ℕ) → boxes.now ≡ table f → result ≡ substitute f s }
{
    array::from_fn(|i| field::look_up(boxes, s[i]))
}

// Row r moved n r columns to the left: ShiftRows for n = 1, InvShiftRows for n = 3, which is as far as 1 to the right.
fn move_rows(n: usize, s: [u8; 16]) -> [u8; 16]
    requires { n < 4 }
    ensures { result ≡ move_rows n s }
{
    array::from_fn(|i| s[(i + 4 * n * (i % 4)) % 16])
}

fn add_round_key(w: &[u8; 176], r: usize, s: [u8; 16]) -> [u8; 16]
    requires { r < 11 }
    ensures { result ≡ add_round_key w.now r s }
{
    array::from_fn(|i| s[i] ^ w[16 * r + i])
}

// A column after MixColumns: 2 a + 3 b + c + d = a + (a + b + c + d) + 2 (a + b), and so for each row.
#[tactic(auto, using(laws::proofs::Xor::bits_added, crate::proofs::Columns::mixed))]
fn mix(column: [u8; 4]) -> [u8; 4]
    ensures { result ≡ on_column mix_column column }
{
    let [a, b, c, d] = column;
    let all = a ^ b ^ c ^ d;
    [
        a ^ all ^ field::double(a ^ b),
        b ^ all ^ field::double(b ^ c),
        c ^ all ^ field::double(c ^ d),
        d ^ all ^ field::double(d ^ a),
    ]
}

// A column after InvMixColumns: 14 a + 11 b + 13 c + 9 d = a + 2 (a + b) + 4 (a + c) + 9 (a + b + c + d), and so for each
// row. The doublings of neighbours' sums are shared: 4 (a + c) is twice 2 (a + b) + 2 (b + c).
#[tactic(auto, using(laws::proofs::Xor::bits_added, crate::proofs::Columns::inv_mixed))]
fn inv_mix(column: [u8; 4]) -> [u8; 4]
    ensures { result ≡ on_column inv_mix_column column }
{
    let [a, b, c, d] = column;
    let ab = field::double(a ^ b);
    let bc = field::double(b ^ c);
    let cd = field::double(c ^ d);
    let ac = field::double(ab ^ bc);
    let bd = field::double(bc ^ cd);
    let all = a ^ b ^ c ^ d ^ field::double(ac ^ bd);
    [
        a ^ ab ^ ac ^ all,
        b ^ bc ^ bd ^ all,
        c ^ cd ^ ac ^ all,
        d ^ (ab ^ bc ^ cd) ^ bd ^ all,
    ]
}

// The state of four columns.
fn join(a: [u8; 4], b: [u8; 4], c: [u8; 4], d: [u8; 4]) -> [u8; 16]
    ensures { result ≡ four_columns a b c d }
{
    [a, b, c, d].as_flattened().try_into().unwrap()
}

// Each column of a state mixed by itself.
fn each_column<F: Fn([u8; 4]) -> [u8; 4]>(mixing: F, s: [u8; 16]) -> [u8; 16]
    requires { F.IsAlwaysCallable mixing }
    ensures { Mixed (F.post mixing) s result }
{
    join(
        mixing(word_at(&s, 0)),
        mixing(word_at(&s, 1)),
        mixing(word_at(&s, 2)),
        mixing(word_at(&s, 3)),
    )
}

#[tactic(auto, unfolding(crate::specs::Steps::mix_columns, crate::specs::Steps::columns, crate::specs::Steps::matrix))]
fn mix_columns(s: [u8; 16]) -> [u8; 16]
    ensures { result ≡ mix_columns s }
{
    each_column(mix, s)
}

#[tactic(auto, unfolding(crate::specs::Steps::inv_mix_columns, crate::specs::Steps::columns, crate::specs::Steps::matrix))]
fn inv_mix_columns(s: [u8; 16]) -> [u8; 16]
    ensures { result ≡ inv_mix_columns s }
{
    each_column(inv_mix, s)
}

// The round constants 1 to 10: the first bytes of the words, the others are 0.
const ROUND_CONSTANTS: [u8; 10] = [0x01, 0x02, 0x04, 0x08, 0x10, 0x20, 0x40, 0x80, 0x1b, 0x36];

fn round_constants() -> &'static [u8; 10]
    ensures { result.now ≡ tabulate 10 power_of_x }
{
    &ROUND_CONSTANTS
}

// A word of a schedule, or a column of a state.
fn word_at(w: &[u8], i: usize) -> [u8; 4]
    requires { 4 * i + 4 ≤ length w.now }
    ensures { result ≡ word w.now i }
{
    w[4 * i..4 * i + 4].try_into().unwrap()
}

fn add_words(a: [u8; 4], b: [u8; 4]) -> [u8; 4]
    ensures { result ≡ add_word a b }
{
    array::from_fn(|j| a[j] ^ b[j])
}

// RotWord, then SubWord.
fn sub_rotated(a: [u8; 4]) -> [u8; 4]
    ensures { result ≡ sub_word (rot_word a) }
{
    let boxes = field::sbox_table();
    array::from_fn(|j| field::look_up(boxes, a[(j + 1) % 4]))
}

// The word after the first i of a schedule.
#[tactic(auto, using(laws::proofs::Tabulate::get_d_tabulate), unfolding(crate::specs::Schedule::next_word))]
fn next_word(w: &[u8; 176], i: usize) -> [u8; 4]
    requires { (4 ≤ i) × (i < 44) }
    ensures { result ≡ next_word w.now i }
{
    let last = word_at(w, i - 1);
    let temp = if i % 4 == 0 {
        add_words(sub_rotated(last), [round_constants()[i / 4 - 1], 0, 0, 0])
    } else {
        last
    };
    add_words(word_at(w, i - 4), temp)
}

fn put_word(w: &mut [u8; 176], i: usize, x: [u8; 4])
    requires { i < 44 }
    ensures { take (4 * i + 4) w.new ≡ take (4 * i) w.old ++ x }
{
    w[4 * i..4 * i + 4].copy_from_slice(&x);
}

// Room for a schedule, with the key as its first four words.
fn key_first(key: [u8; 16]) -> [u8; 176]
    ensures { take 16 result ≡ key }
{
    let mut w = [0u8; 176];
    w[..16].copy_from_slice(&key);
    w
}

// The key schedule: made once for a key, lent to each block.
#[tactic(auto, using(crate::proofs::Schedule::expanding), unfolding(crate::specs::Schedule::key_expansion))]
pub fn expand_key(key: [u8; 16]) -> [u8; 176]
    ensures { result ≡ key_expansion key }
{
    let mut w = key_first(key);
    for i in 4..44 {
        let next = next_word(&w, i);
        put_word(&mut w, i, next);
    }
    w
}

// The block enciphered under any schedule.
#[tactic(auto, using(crate::proofs::Rounds::turns), unfolding(crate::specs::Cipher::cipher_with, crate::specs::Cipher::round, crate::specs::Steps::sub_bytes, crate::specs::Steps::shift_rows))]
pub fn encrypt_with(w: &[u8; 176], block: [u8; 16]) -> [u8; 16]
    ensures { result ≡ cipher_with w.now block }
{
    let boxes = field::sbox_table();
    let mut s = add_round_key(w, 0, block);
    for r in 1..10 {
        s = add_round_key(w, r, mix_columns(move_rows(1, sub_bytes(boxes, s))));
    }
    add_round_key(w, 10, move_rows(1, sub_bytes(boxes, s)))
}

// The block deciphered under any schedule.
#[tactic(auto, using(crate::proofs::Rounds::inv_turns), unfolding(crate::specs::Cipher::inv_cipher_with, crate::specs::Cipher::inv_round, crate::specs::Steps::inv_sub_bytes, crate::specs::Steps::inv_shift_rows))]
pub fn decrypt_with(w: &[u8; 176], block: [u8; 16]) -> [u8; 16]
    ensures { result ≡ inv_cipher_with w.now block }
{
    let boxes = field::inv_sbox_table();
    let mut s = add_round_key(w, 10, block);
    for r in (1..10).rev() {
        s = inv_mix_columns(add_round_key(w, r, sub_bytes(boxes, move_rows(3, s))));
    }
    add_round_key(w, 0, sub_bytes(boxes, move_rows(3, s)))
}

// One block under a key, with the schedule made for it alone.
#[tactic(auto, unfolding(crate::specs::Cipher::cipher))]
pub fn encrypt(key: [u8; 16], block: [u8; 16]) -> [u8; 16]
    ensures { result ≡ cipher key block }
{
    let w = expand_key(key);
    encrypt_with(&w, block)
}

#[tactic(auto, unfolding(crate::specs::Cipher::inv_cipher))]
pub fn decrypt(key: [u8; 16], block: [u8; 16]) -> [u8; 16]
    ensures { result ≡ inv_cipher key block }
{
    let w = expand_key(key);
    decrypt_with(&w, block)
}
