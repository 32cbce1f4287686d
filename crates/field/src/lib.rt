// GF(2^8) of FIPS 197 as the block cipher uses it: the two S-boxes as tables, and the doubling of a byte.
//
// A table is lent from where it lies among the program's data, and nobody copies it.
#![tactic(auto)]

mod inv_sbox;
mod sbox;

ghost use Rattle.std.specs.Prelude.{◌≡◌, get_or};
ghost use Rattle.field.specs.Field.{xtime};
ghost use Rattle.field.specs.Sbox.{sbox, inv_sbox, table};

use inv_sbox::INV_SBOX;
use sbox::SBOX;

// The S-box, whole.
pub fn sbox_table() -> &'static [u8; 256]
    ensures { result.now ≡ table sbox }
{
    &SBOX
}

// The inverse S-box, whole.
pub fn inv_sbox_table() -> &'static [u8; 256]
    ensures { result.now ≡ table inv_sbox }
{
    &INV_SBOX
}

// The entry of a lent table for a byte. A byte is never past its end.
pub fn look_up(table: &[u8; 256], byte: u8) -> u8
    ensures { result ≡ get_or table.now byte 0 }
{
    table[byte as usize]
}

// The byte times x: a shift, and {1b} is added if a bit fell out. There is no branch: that bit, 0 or 1, is multiplied by {1b}.
#[tactic(auto, using(crate::proofs::Laws::doubling))]
pub fn double(byte: u8) -> u8
    ensures { result ≡ xtime byte }
{
    let reduction = (byte >> 7) * 0x1b;
    byte << 1 ^ reduction
}
