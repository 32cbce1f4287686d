// The modes of operation over lent buffers: ECB of a block and CBC (SP 800-38A), CMAC (SP 800-38B), and the compression and
// key derivation of SHE.
//
// A routine on lent buffers looks at all lengths first, and writes nothing before it is sure to succeed. Key schedules are
// made once a call. Blocks are arrays by value; compiled, they stay in registers.
#![tactic(auto)]

mod constants;

ghost use Rattle.std.specs.Prelude.{◌≡◌, ◌*◌, ◌≤◌, ◌<◌, length};
ghost use Rattle.std.specs.List.{FoldsTo};
ghost use mathlib.Core.List.{◌++◌, foldl};
ghost use Rattle.aes.specs.Cipher.{cipher, cipher_with, inv_cipher_with};
ghost use Rattle.basics.specs.Answers.{answer_of};
ghost use Rattle.modes.specs.Answer.{OfTwoBlocks, OfBlocks, three_blocks, cbc_lengths, cmac_lengths, compress_lengths};
ghost use Rattle.modes.specs.Blocks.{◌⊕◌, blocks};
ghost use Rattle.modes.specs.Cbc.{chained, unchained};
ghost use Rattle.modes.specs.Cmac.{shift_left, double, k1, k2, cut, padded, block_count, last_block, cmac, text_mac};
ghost use Rattle.modes.specs.Compression.{compressed, compress, kdf};
ghost use Rattle.modes.specs.Constants.{constant_of};
ghost use Rattle.modes.specs.Routines.{ecb_encryption, ecb_decryption, cbc_encryption, cbc_decryption, authentication, compression, derivation};

use basics::Refusal;
use std::array;

// ---- blocks and buffers

// The exclusive or of two blocks.
fn add(a: [u8; 16], b: [u8; 16]) -> [u8; 16]
    ensures { result ≡ a ⊕ b }
{
    array::from_fn(|i| a[i] ^ b[i])
}

// What a step carries from block to block of a text, from a start on. Bytes after its last whole block are left out.
fn carry<F: Fn([u8; 16], [u8; 16]) -> [u8; 16]>(step: F, start: [u8; 16], text: &[u8]) -> [u8; 16]
    requires { F.IsAlwaysCallable step }
    ensures { FoldsTo (F.post step) start (blocks text.now) result }
{
    let (whole, _) = text.as_chunks::<16>();
    whole.iter().copied().fold(start, step)
}

// Three buffers of a block each: ECB and the key derivation take no others.
#[tactic(auto, unfolding(crate::specs::Answer::three_blocks, laws::specs::Lengths::right_lengths))]
pub fn three_blocks(first: usize, second: usize, third: usize) -> bool
    ensures { result ≡ three_blocks first second third }
{
    (first == 16) & (second == 16) & (third == 16)
}

// What a step gives of two blocks, written to the third buffer.
#[tactic(auto, unfolding(crate::specs::Answer::three_blocks, laws::specs::Lengths::right_lengths))]
fn of_two_blocks<F: Fn([u8; 16], [u8; 16]) -> [u8; 16]>(
    step: F,
    first: &[u8],
    second: &[u8],
    output: &mut [u8],
) -> Result<(), Refusal>
    requires { F.IsAlwaysCallable step }
    ensures { OfTwoBlocks (F.post step) first.now second.now output.old (answer_of result) output.new }
{
    if !three_blocks(first.len(), second.len(), output.len()) {
        return Err(Refusal::GeneralError);
    }
    let given = step(first.try_into().unwrap(), second.try_into().unwrap());
    output.copy_from_slice(&given);
    Ok(())
}

// ---- ECB, one block

#[tactic(auto, unfolding(crate::specs::Answer::outcome))]
pub fn ecb_encrypt(key: &[u8], input: &[u8], output: &mut [u8]) -> Result<(), Refusal>
    ensures value { answer_of result ≡ (ecb_encryption key.now input.now output.old).answer }
    ensures output_after { output.new ≡ (ecb_encryption key.now input.now output.old).output }
{
    of_two_blocks(aes::encrypt, key, input, output)
}

#[tactic(auto, unfolding(crate::specs::Answer::outcome))]
pub fn ecb_decrypt(key: &[u8], input: &[u8], output: &mut [u8]) -> Result<(), Refusal>
    ensures value { answer_of result ≡ (ecb_decryption key.now input.now output.old).answer }
    ensures output_after { output.new ≡ (ecb_decryption key.now input.now output.old).output }
{
    of_two_blocks(aes::decrypt, key, input, output)
}

// ---- CBC

#[tactic(auto, unfolding(crate::specs::Answer::cbc_lengths))]
pub fn cbc_lengths(key: usize, iv: usize, input: usize, output: usize) -> bool
    ensures { result ≡ cbc_lengths key iv input output }
{
    key == 16 && iv == 16 && input % 16 == 0 && 16 <= input && input <= 16 * 4096 && output == input
}

// CBC in either direction. From the schedule, what is carried from the block before, and a block, a step makes the block to write
// and what to carry on.
#[tactic(auto, unfolding(crate::specs::Answer::cbc_lengths))]
fn block_by_block<F: Fn(&[u8; 176], [u8; 16], [u8; 16]) -> ([u8; 16], [u8; 16])>(
    step: F,
    key: &[u8],
    iv: &[u8],
    input: &[u8],
    output: &mut [u8],
) -> Result<(), Refusal>
    requires { F.IsAlwaysCallable step }
    ensures { OfBlocks (λ w carried block given. (p : _) × (p.now ≡ w) × F.post step p carried block given)
        key.now iv.now input.now output.old (answer_of result) output.new }
{
    if !cbc_lengths(key.len(), iv.len(), input.len(), output.len()) {
        return Err(Refusal::GeneralError);
    }
    let w = aes::expand_key(key.try_into().unwrap());
    let mut carried = iv.try_into().unwrap();
    let (whole, _) = input.as_chunks::<16>();
    // The output is written at its places, and not cut into chunks too: of chunks that it lends for writing the library does not say
    // what the whole is afterwards.
    for (i, block) in whole.iter().enumerate() {
        let (written, next) = step(&w, carried, *block);
        output[16 * i..16 * i + 16].copy_from_slice(&written);
        carried = next;
    }
    Ok(())
}

#[tactic(auto, unfolding(crate::specs::Answer::outcome, crate::specs::Cbc::cbc_encrypt, aes::specs::Cipher::cipher))]
pub fn cbc_encrypt(key: &[u8], iv: &[u8], input: &[u8], output: &mut [u8]) -> Result<(), Refusal>
    ensures value { answer_of result ≡ (cbc_encryption key.now iv.now input.now output.old).answer }
    ensures output_after { output.new ≡ (cbc_encryption key.now iv.now input.now output.old).output }
{
    block_by_block(
        |w, previous, p|
            ensures { result ≡ (chained (cipher_with w.now) previous p, chained (cipher_with w.now) previous p) }
        {
            let c = aes::encrypt_with(w, add(p, previous));
            (c, c)
        },
        key,
        iv,
        input,
        output,
    )
}

#[tactic(auto, unfolding(crate::specs::Answer::outcome, crate::specs::Cbc::cbc_decrypt, aes::specs::Cipher::inv_cipher))]
pub fn cbc_decrypt(key: &[u8], iv: &[u8], input: &[u8], output: &mut [u8]) -> Result<(), Refusal>
    ensures value { answer_of result ≡ (cbc_decryption key.now iv.now input.now output.old).answer }
    ensures output_after { output.new ≡ (cbc_decryption key.now iv.now input.now output.old).output }
{
    block_by_block(
        |w, previous, c|
            ensures { result ≡ (unchained (inv_cipher_with w.now) previous c, c) }
        {
            let p = add(aes::decrypt_with(w, c), previous);
            (p, c)
        },
        key,
        iv,
        input,
        output,
    )
}

// ---- CMAC

// A block shifted to the left by one bit.
fn shift_left(x: [u8; 16]) -> [u8; 16]
    ensures { result ≡ shift_left x }
{
    array::from_fn(|i| x[i] << 1 | basics::byte_at(&x, i + 1) >> 7)
}

// What is added where a bit falls out: x^7 + x^2 + x + 1, which is x^128 in the field.
const R_128: [u8; 16] = [0, 0, 0, 0, 0, 0, 0, 0, 0, 0, 0, 0, 0, 0, 0, 0x87];

// A block times x in GF(2^128).
#[tactic(auto, using(crate::proofs::Subkeys::doubled))]
fn double(x: [u8; 16]) -> [u8; 16]
    ensures { result ≡ double x }
{
    let shifted = shift_left(x);
    if x[0] < 128 {
        return shifted;
    }
    add(shifted, R_128)
}

// The two subkeys, under any schedule.
#[tactic(auto, unfolding(crate::specs::Cmac::k1))]
pub fn subkey_1(w: &[u8; 176]) -> [u8; 16]
    ensures { result ≡ k1 (cipher_with w.now) }
{
    double(aes::encrypt_with(w, [0u8; 16]))
}

#[tactic(auto, unfolding(crate::specs::Cmac::k2))]
pub fn subkey_2(w: &[u8; 176]) -> [u8; 16]
    ensures { result ≡ k2 (cipher_with w.now) }
{
    double(subkey_1(w))
}

// The first t bits of a byte, a 1, and zeros: the bit after them is the lowest that is left by the shift to the right.
#[tactic(auto, using(crate::proofs::Padding::cut_by_shifts))]
fn cut_byte(t: usize, b: u8) -> u8
    requires { t < 8 }
    ensures { result ≡ cut t b }
{
    (b >> (7 - t) | 1) << (7 - t)
}

// The first r bits of a block, a 1, and zeros.
#[tactic(auto, using(crate::proofs::Padding::padded_block))]
fn pad(r: usize, x: [u8; 16]) -> [u8; 16]
    requires { r < 128 }
    ensures { result ≡ padded r x }
{
    let whole = r / 8;
    let mut p = [0u8; 16];
    p[..whole].copy_from_slice(&x[..whole]);
    p[whole] = cut_byte(r % 8, x[whole]);
    p
}

// What stands for the last block of a message, r bits of which count: complete with K1, or padded with K2.
#[tactic(auto, unfolding(crate::specs::Cmac::last_block))]
fn last_block(w: &[u8; 176], r: usize, x: [u8; 16]) -> [u8; 16]
    requires { r ≤ 128 }
    ensures { result ≡ last_block (cipher_with w.now) r x }
{
    if r == 128 {
        return add(subkey_1(w), x);
    }
    add(subkey_2(w), pad(r, x))
}

// All blocks of a text chained from a start, under any schedule: the last block of its CBC ciphertext, and nothing else of it is
// kept.
#[tactic(auto, using(crate::proofs::Folds::folded))]
fn chain(w: &[u8; 176], start: [u8; 16], text: &[u8]) -> [u8; 16]
    ensures { result ≡ foldl (chained (cipher_with w.now)) start (blocks text.now) }
{
    carry(
        |before, block|
            ensures { result ≡ chained (cipher_with w.entry.now) before block }
        { aes::encrypt_with(w, add(block, before)) },
        start,
        text,
    )
}

fn block_count(bits: u64) -> usize
    requires { bits ≤ 524288 }
    ensures { result ≡ block_count bits }
{
    (bits as usize).div_ceil(128).max(1)
}

#[tactic(auto, unfolding(crate::specs::Answer::cmac_lengths))]
pub fn cmac_lengths(key: usize, bits: u64, message: usize, output: usize) -> bool
    ensures { result ≡ cmac_lengths key bits message output }
{
    key == 16 && bits <= 524288 && message == 16 * block_count(bits) && output == 16
}

// The MAC from what the blocks before the last gave, and the last, r bits of which count.
fn finish(w: &[u8; 176], c: [u8; 16], r: usize, x: [u8; 16]) -> [u8; 16]
    requires { r ≤ 128 }
    ensures { result ≡ chained (cipher_with w.now) c (last_block (cipher_with w.now) r x) }
{
    aes::encrypt_with(w, add(last_block(w, r, x), c))
}

// The MAC of a message in whole blocks, of which so many bits count.
#[tactic(auto, using(crate::proofs::MacSteps::mac_whole))]
fn mac(w: &[u8; 176], bits: u64, message: &[u8]) -> [u8; 16]
    requires { (bits ≤ 524288) × (length message.now ≡ 16 * block_count bits) }
    ensures { result ≡ cmac (cipher_with w.now) bits message.now }
{
    let at = message.len() - 16;
    let c = chain(w, [0u8; 16], &message[..at]);
    let last = message[at..].try_into().unwrap();
    finish(w, c, bits as usize - 8 * at, last)
}

#[tactic(auto, using(aes::proofs::Rounds::ciphers), unfolding(crate::specs::Answer::cmac_lengths, crate::specs::Answer::outcome))]
pub fn cmac(key: &[u8], bits: u64, message: &[u8], output: &mut [u8]) -> Result<(), Refusal>
    ensures value { answer_of result ≡ (authentication key.now bits message.now output.old).answer }
    ensures output_after { output.new ≡ (authentication key.now bits message.now output.old).output }
{
    if !cmac_lengths(key.len(), bits, message.len(), output.len()) {
        return Err(Refusal::GeneralError);
    }
    let w = aes::expand_key(key.try_into().unwrap());
    let result = mac(&w, bits, message);
    output.copy_from_slice(&result);
    Ok(())
}

// The MAC of a first block and of a text of whole bytes after it, of any length, which is read where it lies.
#[tactic(auto, using(crate::proofs::TextMac::text_macs), unfolding(aes::specs::Cipher::cipher))]
pub fn text_mac(key: [u8; 16], first: [u8; 16], text: &[u8]) -> [u8; 16]
    ensures { result ≡ text_mac (cipher key) (first ++ text.now) }
{
    let w = aes::expand_key(key);
    if text.len() == 0 {
        return finish(&w, [0u8; 16], 128, first);
    }
    let at = (text.len() - 1) / 16 * 16;
    let c = chain(&w, chain(&w, [0u8; 16], &first), &text[..at]);
    finish(
        &w,
        c,
        8 * (text.len() - at),
        basics::block_at(&text[at..], 0),
    )
}

// ---- compression and key derivation

// One block more: what is carried on is the key of the next.
fn compress_block(out: [u8; 16], x: [u8; 16]) -> [u8; 16]
    ensures { result ≡ compressed out x }
{
    add(add(aes::encrypt(out, x), x), out)
}

#[tactic(auto, unfolding(crate::specs::Answer::compress_lengths, laws::specs::Lengths::right_lengths))]
fn compress_lengths(start: usize, text: usize, output: usize) -> bool
    ensures { result ≡ compress_lengths start text output }
{
    (start == 16) & (text % 16 == 0) & (output == 16)
}

// The compression of a text in whole blocks, carried on from a start, which is an earlier output or zero.
#[tactic(auto, using(crate::proofs::Folds::folded), unfolding(crate::specs::Compression::compress_from, crate::specs::Answer::compress_lengths, crate::specs::Answer::outcome, laws::specs::Lengths::right_lengths))]
pub fn compress(start: &[u8], text: &[u8], output: &mut [u8]) -> Result<(), Refusal>
    ensures value { answer_of result ≡ (compression start.now text.now output.old).answer }
    ensures output_after { output.new ≡ (compression start.now text.now output.old).output }
{
    if !compress_lengths(start.len(), text.len(), output.len()) {
        return Err(Refusal::GeneralError);
    }
    let result = carry(compress_block, start.try_into().unwrap(), text);
    output.copy_from_slice(&result);
    Ok(())
}

// Two blocks, from zero.
#[tactic(auto, using(crate::proofs::Compression::two_compressed))]
fn compress_two(a: [u8; 16], b: [u8; 16]) -> [u8; 16]
    ensures { result ≡ compress (a ++ b) }
{
    compress_block(compress_block([0u8; 16], a), b)
}

// The key that is derived from a key and any constant.
#[tactic(auto, unfolding(crate::specs::Answer::outcome, crate::specs::Compression::kdf))]
pub fn kdf(key: &[u8], constant: &[u8], output: &mut [u8]) -> Result<(), Refusal>
    ensures value { answer_of result ≡ (derivation key.now constant.now output.old).answer }
    ensures output_after { output.new ≡ (derivation key.now constant.now output.old).output }
{
    of_two_blocks(compress_two, key, constant, output)
}

// The specification's constants by their names there, without the ending _C.
#[derive(Clone, Copy)]
pub enum Constant {
    KeyUpdateEnc,
    KeyUpdateMac,
    DebugKey,
    PrngKey,
    PrngSeedKey,
    PrngExtension,
}

pub fn constant_of(name: Constant) -> [u8; 16]
    ensures { result ≡ constant_of name }
{
    let table = &constants::CONSTANTS;
    match name {
        Constant::KeyUpdateEnc => table[0],
        Constant::KeyUpdateMac => table[1],
        Constant::DebugKey => table[2],
        Constant::PrngKey => table[3],
        Constant::PrngSeedKey => table[4],
        Constant::PrngExtension => table[5],
    }
}

// The key that is derived from a key and one of the constants.
#[tactic(auto, unfolding(crate::specs::Compression::kdf))]
pub fn derive(key: [u8; 16], name: Constant) -> [u8; 16]
    ensures { result ≡ kdf key (constant_of name) }
{
    compress_two(key, constant_of(name))
}

// A seed or a random state, extended by entropy.
#[tactic(auto, using(crate::proofs::Compression::three_compressed))]
pub fn extend(seed: [u8; 16], entropy: [u8; 16]) -> [u8; 16]
    ensures { result ≡ compress (seed ++ (entropy ++ constant_of Constant.PrngExtension)) }
{
    compress_block(
        compress_two(seed, entropy),
        constant_of(Constant::PrngExtension),
    )
}
