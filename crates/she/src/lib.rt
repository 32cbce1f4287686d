// What C calls: the routines on lent buffers, the writer of key messages, and every command of the device, with the record lent and
// changed in place. `include/she.h` declares them.
//
// Numbers come in wider than the core takes them, and a number too wide is the largest of its place and never its last digits. The
// promises don't speak of that: each is the core's own definition, of the number as it came in. So slot 0x104 is no slot here.
#![tactic(auto, using(crate::proofs::Wide::wide_laws, crate::proofs::Making::made_over))]

ghost use Rattle.std.specs.Prelude.{◌≡◌, ◌∷◌, []};
ghost use Rattle.basics.specs.Wide.{saturated};
ghost use Rattle.modes.specs.Routines.{ecb_encryption, ecb_decryption, cbc_encryption, cbc_decryption, authentication, derivation};
ghost use Rattle.message.specs.Flags.{flag_count};
ghost use Rattle.message.specs.Writer.{messages, full_form, short_form, fleet_sheet, proof, proof_form};
ghost use Rattle.device.specs.Account.{perform};
ghost use Rattle.device.specs.Outcome.{outcome};
ghost use Rattle.boot.specs.Boot.{secure_boot, boot_failure, boot_ok};
ghost use Rattle.commands.specs.Commands.{reset, attach_debugger, enc_ecb, dec_ecb, enc_cbc, dec_cbc, generate_mac, verify_mac, load_plain_key, init_rng, extend_seed, rnd, get_status, get_id};
ghost use Rattle.load.specs.Load.{load_key};
ghost use Rattle.load.specs.Export.{export_ram_key};
ghost use Rattle.she.specs.She.{make_anew};

use basics::{answer_of, store, to_byte};
use device::Device;
use message::Update;

// A counter as the core takes it.
#[tactic(auto, unfolding(basics::specs::Wide::saturated))]
fn to_counter(number: u64) -> u32
    ensures { result ≡ saturated 0xffffffff number }
{
    u32::try_from(number).unwrap_or(u32::MAX)
}

// ---- algorithms

#[unsafe(no_mangle)]
pub extern "C" fn she_aes_encrypt(key: &[u8], block: &[u8], output: &mut [u8]) -> u8
    ensures value { result ≡ (ecb_encryption key.now block.now output.old).answer }
    ensures output_after { output.new ≡ (ecb_encryption key.now block.now output.old).output }
{
    answer_of(modes::ecb_encrypt(key, block, output))
}

#[unsafe(no_mangle)]
pub extern "C" fn she_aes_decrypt(key: &[u8], block: &[u8], output: &mut [u8]) -> u8
    ensures value { result ≡ (ecb_decryption key.now block.now output.old).answer }
    ensures output_after { output.new ≡ (ecb_decryption key.now block.now output.old).output }
{
    answer_of(modes::ecb_decrypt(key, block, output))
}

#[unsafe(no_mangle)]
pub extern "C" fn she_cbc_encrypt(key: &[u8], iv: &[u8], input: &[u8], output: &mut [u8]) -> u8
    ensures value { result ≡ (cbc_encryption key.now iv.now input.now output.old).answer }
    ensures output_after { output.new ≡ (cbc_encryption key.now iv.now input.now output.old).output }
{
    answer_of(modes::cbc_encrypt(key, iv, input, output))
}

#[unsafe(no_mangle)]
pub extern "C" fn she_cbc_decrypt(key: &[u8], iv: &[u8], input: &[u8], output: &mut [u8]) -> u8
    ensures value { result ≡ (cbc_decryption key.now iv.now input.now output.old).answer }
    ensures output_after { output.new ≡ (cbc_decryption key.now iv.now input.now output.old).output }
{
    answer_of(modes::cbc_decrypt(key, iv, input, output))
}

#[unsafe(no_mangle)]
pub extern "C" fn she_cmac(key: &[u8], bits: u64, message: &[u8], output: &mut [u8]) -> u8
    ensures value { result ≡ (authentication key.now bits message.now output.old).answer }
    ensures output_after { output.new ≡ (authentication key.now bits message.now output.old).output }
{
    answer_of(modes::cmac(key, bits, message, output))
}

#[unsafe(no_mangle)]
pub extern "C" fn she_kdf(key: &[u8], constant: &[u8], output: &mut [u8]) -> u8
    ensures value { result ≡ (derivation key.now constant.now output.old).answer }
    ensures output_after { output.new ≡ (derivation key.now constant.now output.old).output }
{
    answer_of(modes::kdf(key, constant, output))
}

// ---- key messages, for the sender

#[unsafe(no_mangle)]
pub extern "C" fn she_write_key(
    uid: &[u8],
    target: u32,
    authority: u32,
    authkey: &[u8],
    counter: u64,
    flags: u32,
    key: &[u8],
    m1: &mut [u8],
    m2: &mut [u8],
    m3: &mut [u8],
) -> u8
    ensures { messages result m1.new m2.new m3.new ≡ full_form uid.now target authority authkey.now counter flags key.now m1.old m2.old m3.old }
{
    let update = Update {
        uid,
        target: to_byte(target),
        authority: to_byte(authority),
        authkey,
        counter: to_counter(counter),
        flags: to_byte(flags),
        key,
    };
    answer_of(update.write(m1, m2, m3))
}

#[unsafe(no_mangle)]
pub extern "C" fn she_write_key_short(
    uid: &[u8],
    target: u32,
    authority: u32,
    authkey: &[u8],
    counter: u64,
    key: &[u8],
    m1: &mut [u8],
    m2: &mut [u8],
    m3: &mut [u8],
) -> u8
    ensures { messages result m1.new m2.new m3.new ≡ short_form uid.now target authority authkey.now counter key.now m1.old m2.old m3.old }
{
    answer_of(message::write_key_short(
        uid,
        to_byte(target),
        to_byte(authority),
        authkey,
        to_counter(counter),
        key,
        m1,
        m2,
        m3,
    ))
}

#[unsafe(no_mangle)]
pub extern "C" fn she_fleet_sheet(
    target: u32,
    authority: u32,
    authkey: &[u8],
    counter: u64,
    key: &[u8],
    m1: &mut [u8],
    m2: &mut [u8],
    m3: &mut [u8],
) -> u8
    ensures { messages result m1.new m2.new m3.new ≡ fleet_sheet target authority authkey.now counter key.now m1.old m2.old m3.old }
{
    answer_of(message::fleet_sheet(
        to_byte(target),
        to_byte(authority),
        authkey,
        to_counter(counter),
        key,
        m1,
        m2,
        m3,
    ))
}

#[unsafe(no_mangle)]
pub extern "C" fn she_write_proof(
    uid: &[u8],
    target: u32,
    authority: u32,
    counter: u64,
    key: &[u8],
    m4: &mut [u8],
    m5: &mut [u8],
) -> u8
    ensures { proof result m4.new m5.new ≡ proof_form uid.now target authority counter key.now m4.old m5.old }
{
    answer_of(message::write_proof(
        uid,
        to_byte(target),
        to_byte(authority),
        to_counter(counter),
        key,
        m4,
        m5,
    ))
}

// ---- the device in place: each calls the command once on what the record holds, stores what it hands back, and answers

// Where making is refused the record stays, and is not blanked.
#[unsafe(no_mangle)]
pub extern "C" fn she_make(device: &mut Device, uid: &[u8], secret: &[u8], seed: &[u8]) -> u8
    ensures { outcome result device.new 0 [] ≡ make_anew device.old uid.now secret.now seed.now }
{
    store(device, commands::make(uid, secret, seed))
}

#[unsafe(no_mangle)]
pub extern "C" fn she_reset(device: &mut Device) -> u8
    ensures { outcome result device.new 0 [] ≡ perform reset device.old }
{
    store(device, commands::reset(*device))
}

#[unsafe(no_mangle)]
pub extern "C" fn she_attach_debugger(device: &mut Device) -> u8
    ensures { outcome result device.new 0 [] ≡ perform attach_debugger device.old }
{
    store(device, commands::attach_debugger(*device))
}

#[unsafe(no_mangle)]
pub extern "C" fn she_enc_ecb(device: &mut Device, slot: u32, input: &[u8], output: &mut [u8]) -> u8
    ensures { outcome result device.new 0 (output.new ∷ []) ≡ perform (enc_ecb slot input.now output.old) device.old }
{
    answer_of(commands::enc_ecb(*device, to_byte(slot), input, output))
}

#[unsafe(no_mangle)]
pub extern "C" fn she_dec_ecb(device: &mut Device, slot: u32, input: &[u8], output: &mut [u8]) -> u8
    ensures { outcome result device.new 0 (output.new ∷ []) ≡ perform (dec_ecb slot input.now output.old) device.old }
{
    answer_of(commands::dec_ecb(*device, to_byte(slot), input, output))
}

#[unsafe(no_mangle)]
pub extern "C" fn she_enc_cbc(
    device: &mut Device,
    slot: u32,
    iv: &[u8],
    input: &[u8],
    output: &mut [u8],
) -> u8
    ensures { outcome result device.new 0 (output.new ∷ []) ≡ perform (enc_cbc slot iv.now input.now output.old) device.old }
{
    answer_of(commands::enc_cbc(*device, to_byte(slot), iv, input, output))
}

#[unsafe(no_mangle)]
pub extern "C" fn she_dec_cbc(
    device: &mut Device,
    slot: u32,
    iv: &[u8],
    input: &[u8],
    output: &mut [u8],
) -> u8
    ensures { outcome result device.new 0 (output.new ∷ []) ≡ perform (dec_cbc slot iv.now input.now output.old) device.old }
{
    answer_of(commands::dec_cbc(*device, to_byte(slot), iv, input, output))
}

#[unsafe(no_mangle)]
pub extern "C" fn she_generate_mac(
    device: &mut Device,
    slot: u32,
    bits: u64,
    message: &[u8],
    mac: &mut [u8],
) -> u8
    ensures { outcome result device.new 0 (mac.new ∷ []) ≡ perform (generate_mac slot bits message.now mac.old) device.old }
{
    answer_of(commands::generate_mac(*device, to_byte(slot), bits, message, mac))
}

#[unsafe(no_mangle)]
pub extern "C" fn she_verify_mac(
    device: &mut Device,
    slot: u32,
    bits: u64,
    message: &[u8],
    mac: &[u8],
    macbits: u32,
    verdict: &mut u8,
) -> u8
    ensures { outcome result device.new verdict.new [] ≡ perform (verify_mac slot bits message.now mac.now macbits) device.old }
{
    *verdict = 0;
    store(
        verdict,
        commands::verify_mac(*device, to_byte(slot), bits, message, mac, to_byte(macbits)).map(
            u8::from,
        ),
    )
}

#[unsafe(no_mangle)]
pub extern "C" fn she_load_key(
    device: &mut Device,
    m1: &[u8],
    m2: &[u8],
    m3: &[u8],
    m4: &mut [u8],
    m5: &mut [u8],
) -> u8
    ensures { outcome result device.new 0 (m4.new ∷ m5.new ∷ []) ≡ perform (load_key flag_count m1.now m2.now m3.now m4.old m5.old) device.old }
{
    store(device, load::load_key(*device, m1, m2, m3, m4, m5))
}

#[unsafe(no_mangle)]
pub extern "C" fn she_load_plain_key(device: &mut Device, key: &[u8]) -> u8
    ensures { outcome result device.new 0 [] ≡ perform (load_plain_key key.now) device.old }
{
    store(device, commands::load_plain_key(*device, key))
}

#[unsafe(no_mangle)]
pub extern "C" fn she_export_ram_key(
    device: &mut Device,
    m1: &mut [u8],
    m2: &mut [u8],
    m3: &mut [u8],
    m4: &mut [u8],
    m5: &mut [u8],
) -> u8
    ensures { outcome result device.new 0 (m1.new ∷ m2.new ∷ m3.new ∷ m4.new ∷ m5.new ∷ []) ≡ perform (export_ram_key flag_count m1.old m2.old m3.old m4.old m5.old) device.old }
{
    answer_of(load::export_ram_key(*device, m1, m2, m3, m4, m5))
}

#[unsafe(no_mangle)]
pub extern "C" fn she_init_rng(device: &mut Device) -> u8
    ensures { outcome result device.new 0 [] ≡ perform init_rng device.old }
{
    store(device, commands::init_rng(*device))
}

#[unsafe(no_mangle)]
pub extern "C" fn she_extend_seed(device: &mut Device, entropy: &[u8]) -> u8
    ensures { outcome result device.new 0 [] ≡ perform (extend_seed entropy.now) device.old }
{
    store(device, commands::extend_seed(*device, entropy))
}

#[unsafe(no_mangle)]
pub extern "C" fn she_rnd(device: &mut Device, output: &mut [u8]) -> u8
    ensures { outcome result device.new 0 (output.new ∷ []) ≡ perform (rnd output.old) device.old }
{
    store(device, commands::rnd(*device, output))
}

#[unsafe(no_mangle)]
pub extern "C" fn she_get_status(device: &mut Device, status: &mut u8) -> u8
    ensures { outcome result device.new status.new [] ≡ perform get_status device.old }
{
    *status = 0;
    store(status, commands::get_status(*device))
}

#[unsafe(no_mangle)]
pub extern "C" fn she_get_id(device: &mut Device, challenge: &[u8], output: &mut [u8]) -> u8
    ensures { outcome result device.new 0 (output.new ∷ []) ≡ perform (get_id challenge.now output.old) device.old }
{
    answer_of(commands::get_id(*device, challenge, output))
}

#[unsafe(no_mangle)]
pub extern "C" fn she_secure_boot(device: &mut Device, bootloader: &[u8]) -> u8
    ensures { outcome result device.new 0 [] ≡ perform (secure_boot bootloader.now) device.old }
{
    store(device, boot::secure_boot(*device, bootloader))
}

#[unsafe(no_mangle)]
pub extern "C" fn she_boot_failure(device: &mut Device) -> u8
    ensures { outcome result device.new 0 [] ≡ perform boot_failure device.old }
{
    store(device, boot::boot_failure(*device))
}

#[unsafe(no_mangle)]
pub extern "C" fn she_boot_ok(device: &mut Device) -> u8
    ensures { outcome result device.new 0 [] ≡ perform boot_ok device.old }
{
    store(device, boot::boot_ok(*device))
}
