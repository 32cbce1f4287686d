// The commands that need no key message, with making, reset and the bench call. Each takes the device by value, and one that
// changes it hands the changed one back.
//
// Every command decides first, on numbers alone, by the order of the checks in its account, and a refusal leaves
// the device as it came in, with no buffer touched. Only then is a key used.
//
// The proofs see into the account of each command, and use what a check that found no fault tells of the lengths.
#![tactic(auto, using(crate::proofs::Passed::passed, device::proofs::Account::first_checks), unfolding(laws::specs::Lengths::right_lengths, modes::specs::Answer::outcome, device::specs::Account::perform, device::specs::Outcome::by_answer, crate::specs::Commands::make, crate::specs::Commands::reset, crate::specs::Commands::attach_debugger, crate::specs::Commands::enc_ecb, crate::specs::Commands::dec_ecb, crate::specs::Commands::enc_cbc, crate::specs::Commands::dec_cbc, crate::specs::Commands::generate_mac, crate::specs::Commands::mac_agrees, crate::specs::Commands::verify_mac, crate::specs::Commands::load_plain_key, crate::specs::Commands::init_rng, crate::specs::Commands::extend_seed, crate::specs::Commands::rnd, crate::specs::Commands::get_status, crate::specs::Commands::identity, crate::specs::Commands::get_id))]

ghost use Rattle.std.specs.Prelude.{◌≡◌, IfOk, OnOk, length, false, ◌∷◌, [], ◌++◌, ◌<◌};
ghost use Rattle.std.specs.Result.{result_unwrap_or};
ghost use mir.Val.{bool_byte};
ghost use Rattle.basics.specs.Answers.{answer_of};
ghost use Rattle.device.specs.Account.{perform, answer_by};
ghost use Rattle.device.specs.Made.{blank};
ghost use Rattle.device.specs.Outcome.{outcome};
ghost use Rattle.device.specs.Record.{key_at};
ghost use Rattle.commands.specs.Checks.{slot_checks};
ghost use Rattle.commands.specs.Commands.{make_answer, make, reset, attach_debugger, enc_ecb, dec_ecb, enc_cbc, dec_cbc, generate_mac, mac_agrees, verify_mac, load_plain_key, init_rng, extend_seed, rnd, get_status, identity, id_mac, get_id};

use basics::{ON, Refusal};
use device::{DEBUGGER_MARK, Device, PLAIN_MARK, RNG_MARK, Slot};
use message::Role;
use modes::Constant;

// ---- making, reset, the bench call

#[tactic(auto, unfolding(crate::specs::Commands::make_answer, laws::specs::Lengths::right_lengths))]
fn check_make(uid: &[u8], secret: usize, seed: usize) -> Result<(), Refusal>
    ensures answer { answer_of result ≡ make_answer uid.now secret seed }
    ensures long { OnOk result ((length uid.now ≡ 15) × (secret ≡ 16) × (seed ≡ 16)) }
{
    let lengths = (uid.len() == 15) & (secret == 16) & (seed == 16);
    if !lengths {
        return Err(Refusal::GeneralError);
    }
    if basics::is_same(uid, &[0; 15]) {
        return Err(Refusal::GeneralError);
    }
    Ok(())
}

// A device with a UID, a SECRET_KEY and a seed.
#[tactic(auto, using(basics::proofs::Bytes::block_whole, basics::proofs::Bytes::uid_whole), unfolding(device::specs::Outcome::by_answer, crate::specs::Commands::make))]
pub fn make(uid: &[u8], secret: &[u8], seed: &[u8]) -> Result<Device, Refusal>
    ensures { outcome (answer_of result) (result_unwrap_or result blank) 0 [] ≡ make uid.now secret.now seed.now }
{
    check_make(uid, secret.len(), seed.len())?;
    Ok(Device::fresh(
        uid.try_into().unwrap(),
        secret.try_into().unwrap(),
        seed.try_into().unwrap(),
    ))
}

// Power is lost: slot 14, the random numbers, the debugger and what the boot check found go.
pub fn reset(device: Device) -> Result<Device, Refusal>
    ensures { outcome (answer_of result) (result_unwrap_or result device) 0 [] ≡ perform reset device }
{
    device.check(true)?;
    let mut after = Device {
        state: [0; 16],
        rngkey: [0; 16],
        ..device
    };
    after.renew_marks();
    after.put_slot(device::RAM_KEY, Slot::emptied());
    Ok(after)
}

pub fn attach_debugger(device: Device) -> Result<Device, Refusal>
    ensures { outcome (answer_of result) (result_unwrap_or result device) 0 [] ≡ perform attach_debugger device }
{
    device.check(true)?;
    let mut after = device;
    after.marks[DEBUGGER_MARK] = ON;
    Ok(after)
}

// ---- using a key

// A slot's key for a role, after the checks of a command that uses it: they see no key, but that an empty slot must be zero.
#[tactic(auto, unfolding(device::specs::Account::answer_by))]
fn key_for(device: &Device, lengths: bool, slot: u8, role: Role) -> Result<[u8; 16], Refusal>
    ensures answer { answer_of result ≡ answer_by device.now lengths (slot_checks device.now slot role) }
    ensures key { IfOk result (λ key. key ≡ key_at device.now slot) }
{
    device.check(lengths)?;
    if !message::has_role(slot, role) {
        return Err(Refusal::KeyInvalid);
    }
    if device.is_empty(slot) {
        return Err(Refusal::KeyEmpty);
    }
    if device.is_locked(slot) {
        return Err(Refusal::KeyNotAvailable);
    }
    if !device::usage_fits(slot, device.flags_at(slot), role) {
        return Err(Refusal::KeyInvalid);
    }
    Ok(device.key_at(slot))
}

pub fn enc_ecb(device: Device, slot: u8, input: &[u8], output: &mut [u8]) -> Result<(), Refusal>
    ensures { outcome (answer_of result) device 0 (output.new ∷ []) ≡ perform (enc_ecb slot input.now output.old) device }
{
    let lengths = modes::three_blocks(16, input.len(), output.len());
    let key = key_for(&device, lengths, slot, Role::Cipher)?;
    modes::ecb_encrypt(&key, input, output)
}

pub fn dec_ecb(device: Device, slot: u8, input: &[u8], output: &mut [u8]) -> Result<(), Refusal>
    ensures { outcome (answer_of result) device 0 (output.new ∷ []) ≡ perform (dec_ecb slot input.now output.old) device }
{
    let lengths = modes::three_blocks(16, input.len(), output.len());
    let key = key_for(&device, lengths, slot, Role::Cipher)?;
    modes::ecb_decrypt(&key, input, output)
}

pub fn enc_cbc(
    device: Device,
    slot: u8,
    iv: &[u8],
    input: &[u8],
    output: &mut [u8],
) -> Result<(), Refusal>
    ensures { outcome (answer_of result) device 0 (output.new ∷ []) ≡ perform (enc_cbc slot iv.now input.now output.old) device }
{
    let lengths = modes::cbc_lengths(16, iv.len(), input.len(), output.len());
    let key = key_for(&device, lengths, slot, Role::Cipher)?;
    modes::cbc_encrypt(&key, iv, input, output)
}

pub fn dec_cbc(
    device: Device,
    slot: u8,
    iv: &[u8],
    input: &[u8],
    output: &mut [u8],
) -> Result<(), Refusal>
    ensures { outcome (answer_of result) device 0 (output.new ∷ []) ≡ perform (dec_cbc slot iv.now input.now output.old) device }
{
    let lengths = modes::cbc_lengths(16, iv.len(), input.len(), output.len());
    let key = key_for(&device, lengths, slot, Role::Cipher)?;
    modes::cbc_decrypt(&key, iv, input, output)
}

// The MAC of so many bits of a message.
pub fn generate_mac(
    device: Device,
    slot: u8,
    bits: u64,
    message: &[u8],
    mac: &mut [u8],
) -> Result<(), Refusal>
    ensures { outcome (answer_of result) device 0 (mac.new ∷ []) ≡ perform (generate_mac slot bits message.now mac.old) device }
{
    let lengths = modes::cmac_lengths(16, bits, message.len(), mac.len());
    let key = key_for(&device, lengths, slot, Role::GenerateMac)?;
    modes::cmac(&key, bits, message, mac)
}

// Whether two MACs agree in their first bits, most significant first; 0 stands for all 128.
fn mac_agrees(bits: u8, a: [u8; 16], b: [u8; 16]) -> bool
    requires { bits < 128 }
    ensures { result ≡ mac_agrees bits a b }
{
    if bits == 0 {
        return basics::is_same(&a, &b);
    }
    let whole = usize::from(bits / 8);
    let rest = 8 - bits % 8;
    let first = basics::is_same(&a[..whole], &b[..whole]);
    first & (u16::from(a[whole]) >> rest == u16::from(b[whole]) >> rest)
}

// Whether a MAC is that of so many bits of a message, in its first bits.
pub fn verify_mac(
    device: Device,
    slot: u8,
    bits: u64,
    message: &[u8],
    mac: &[u8],
    macbits: u8,
) -> Result<bool, Refusal>
    ensures { outcome (answer_of result) device (bool_byte (result_unwrap_or result false)) [] ≡ perform (verify_mac slot bits message.now mac.now macbits) device }
{
    let lengths = modes::cmac_lengths(16, bits, message.len(), mac.len()) & (macbits <= 127);
    let key = key_for(&device, lengths, slot, Role::VerifyMac)?;
    let mut expected = [0; 16];
    modes::cmac(&key, bits, message, &mut expected)?;
    Ok(mac_agrees(macbits, expected, mac.try_into().unwrap()))
}

// Sixteen bytes into slot 14, not empty, plain.
pub fn load_plain_key(device: Device, key: &[u8]) -> Result<Device, Refusal>
    ensures { outcome (answer_of result) (result_unwrap_or result device) 0 [] ≡ perform (load_plain_key key.now) device }
{
    device.check(key.len() == 16)?;
    let mut after = device;
    after.marks[PLAIN_MARK] = ON;
    after.put_slot(device::RAM_KEY, Slot::holding(key.try_into().unwrap()));
    Ok(after)
}

// ---- random numbers

// Once per reset: the seed moves on, so that no two power cycles begin alike.
pub fn init_rng(device: Device) -> Result<Device, Refusal>
    ensures { outcome (answer_of result) (result_unwrap_or result device) 0 [] ≡ perform init_rng device }
{
    device.check(true)?;
    if device.is_marked(RNG_MARK) {
        return Err(Refusal::SequenceError);
    }
    let secret = device.key_at(device::SECRET_KEY);
    let seed = aes::encrypt(modes::derive(secret, Constant::PrngSeedKey), device.seed);
    let rngkey = modes::derive(secret, Constant::PrngKey);
    let mut after = Device {
        seed,
        state: seed,
        rngkey,
        ..device
    };
    after.marks[RNG_MARK] = ON;
    Ok(after)
}

pub fn extend_seed(device: Device, entropy: &[u8]) -> Result<Device, Refusal>
    ensures { outcome (answer_of result) (result_unwrap_or result device) 0 [] ≡ perform (extend_seed entropy.now) device }
{
    device.check(entropy.len() == 16)?;
    if !device.is_marked(RNG_MARK) {
        return Err(Refusal::RngSeed);
    }
    let more = entropy.try_into().unwrap();
    let state = modes::extend(device.state, more);
    let seed = modes::extend(device.seed, more);
    Ok(Device {
        state,
        seed,
        ..device
    })
}

pub fn rnd(device: Device, output: &mut [u8]) -> Result<Device, Refusal>
    ensures { outcome (answer_of result) (result_unwrap_or result device) 0 (output.new ∷ []) ≡ perform (rnd output.old) device }
{
    device.check(output.len() == 16)?;
    if !device.is_marked(RNG_MARK) {
        return Err(Refusal::RngSeed);
    }
    let state = aes::encrypt(device.rngkey, device.state);
    output.copy_from_slice(&state);
    Ok(Device { state, ..device })
}

// ---- status and identity

pub fn get_status(device: Device) -> Result<u8, Refusal>
    ensures { outcome (answer_of result) device (result_unwrap_or result 0) [] ≡ perform get_status device }
{
    device.check(true)?;
    Ok(device.status())
}

// UID and status.
fn identity(device: &Device) -> [u8; 16]
    ensures { result ≡ identity device.now }
{
    let mut block = [device.status(); 16];
    block[..15].copy_from_slice(&device.uid);
    block
}

// The MAC under MASTER_ECU_KEY, and zeros while that is empty.
#[tactic(auto, using(basics::proofs::Bytes::block_long), unfolding(crate::specs::Commands::id_mac, modes::specs::Answer::outcome, modes::specs::Answer::cmac_lengths))]
fn id_mac(device: &Device, challenge: [u8; 16], own: [u8; 16]) -> [u8; 16]
    ensures { result ≡ id_mac device.now (challenge ++ own) }
{
    let mut mac = [0; 16];
    if !device.is_empty(device::MASTER_ECU_KEY) {
        let key = device.key_at(device::MASTER_ECU_KEY);
        modes::cmac(&key, 256, [challenge, own].as_flattened(), &mut mac).unwrap();
    }
    mac
}

// UID and status, with a MAC of them and of a challenge.
pub fn get_id(device: Device, challenge: &[u8], output: &mut [u8]) -> Result<(), Refusal>
    ensures { outcome (answer_of result) device 0 (output.new ∷ []) ≡ perform (get_id challenge.now output.old) device }
{
    let lengths = (challenge.len() == 16) & (output.len() == 32);
    device.check(lengths)?;
    if device.is_locked(device::MASTER_ECU_KEY) {
        return Err(Refusal::KeyNotAvailable);
    }
    let own = identity(&device);
    let mac = id_mac(&device, challenge.try_into().unwrap(), own);
    output.copy_from_slice([own, mac].as_flattened());
    Ok(())
}
