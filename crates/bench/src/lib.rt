// What `make bench` measures beside what firmware calls: the engine on whole arrays, with a schedule that is kept.
#![tactic(auto)]

ghost use Rattle.std.specs.Prelude.{◌≡◌};
ghost use Rattle.aes.specs.Schedule.{key_expansion};
ghost use Rattle.aes.specs.Cipher.{cipher_with, inv_cipher_with, cipher};

#[unsafe(no_mangle)]
pub extern "C" fn bench_schedule(key: &[u8; 16], w: &mut [u8; 176])
    ensures { w.new ≡ key_expansion key.now }
{
    *w = aes::expand_key(*key);
}

#[unsafe(no_mangle)]
pub extern "C" fn bench_encrypt(w: &[u8; 176], block: &[u8; 16], out: &mut [u8; 16])
    ensures { out.new ≡ cipher_with w.now block.now }
{
    *out = aes::encrypt_with(w, *block);
}

#[unsafe(no_mangle)]
pub extern "C" fn bench_decrypt(w: &[u8; 176], block: &[u8; 16], out: &mut [u8; 16])
    ensures { out.new ≡ inv_cipher_with w.now block.now }
{
    *out = aes::decrypt_with(w, *block);
}

#[unsafe(no_mangle)]
pub extern "C" fn bench_encrypt_keyed(key: &[u8; 16], block: &[u8; 16], out: &mut [u8; 16])
    ensures { out.new ≡ cipher key.now block.now }
{
    *out = aes::encrypt(*key, *block);
}
