// Key messages: the slots and what each may do, the building of M1 to M5 on the sender's side, and their opening on the
// device's.
//
// A slot number is a byte from 0 to 255, and nothing here cuts bits from it: 15 to 255 are no slot. Whoever asks for one is
// refused, and a refusal writes nothing. `authkey` is the authority's key throughout, and `key` the new one.
#![tactic(auto)]

ghost use Rattle.std.specs.Prelude.{◌≡◌, ◌++◌, ◌∷◌, [], ◌+◌, ◌≤◌, ◌<◌, ◌^◌, eqb, length, IsTrue, IfOk, OnOk};
ghost use Rattle.laws.specs.Lengths.{right_lengths};
ghost use Rattle.aes.specs.Cipher.{cipher};
ghost use Rattle.basics.specs.Answers.{answer_of};
ghost use Rattle.message.specs.Flags.{flag_count};
ghost use Rattle.message.specs.FirstBlock.{first_block, counter_of, flags_of, filler_of, max_counter};
ghost use Rattle.message.specs.Messages.{enc_key, slot_byte, target_in, authority_in, m2, m3, m5};
ghost use Rattle.message.specs.Opening.{open_lengths, opened, opened_as, opened_text};
ghost use Rattle.message.specs.Slots.{kind_of, has_role, flags_kept, counter_kept, allowed};
ghost use Rattle.message.specs.Writer.{message_lengths, writer_answer, messages, full_form, short_form, fleet_sheet, proof_lengths, proof, proof_form};

use basics::Refusal;
use modes::Constant;

// The largest counter, of 28 bits.
pub const MAX_COUNTER: u32 = 0xfffffff;

// The flags in a number of flags, and all of them. It stays a number, since a sender may hand in any, and one above 31 is refused.
pub const WRITE: u8 = 16;

pub const BOOT: u8 = 8;

pub const DEBUGGER: u8 = 4;

pub const KEY_USAGE: u8 = 2;

pub const WILDCARD: u8 = 1;

pub const ALL_FLAGS: u8 = 31;

// What the short form writes.
const SHORT_FLAGS: u8 = 0;

// ---- slots

#[derive(Clone, Copy, Debug, PartialEq, Eq)]
pub enum Kind {
    SecretKey,
    MasterEcuKey,
    BootMacKey,
    BootMac,
    KeyN,
    RamKey,
    NoSlot,
}

impl From<u8> for Kind {
    ghost from_gives = { λ slot kind. kind ≡ kind_of slot };

    #[tactic(auto, unfolding(crate::specs::Slots::kind_of, laws::specs::Ranges::row_of))]
    fn from(slot: u8) -> Kind {
        match slot {
            0 => Kind::SecretKey,
            1 => Kind::MasterEcuKey,
            2 => Kind::BootMacKey,
            3 => Kind::BootMac,
            4..=13 => Kind::KeyN,
            14 => Kind::RamKey,
            _ => Kind::NoSlot,
        }
    }
}

// What a command uses a key for: ECB and CBC, GENERATE_MAC, VERIFY_MAC.
#[derive(Clone, Copy, Debug, PartialEq, Eq)]
pub enum Role {
    Cipher,
    GenerateMac,
    VerifyMac,
}

// Whether a slot can ever have a role. Which of the first two a slot from 4 to 13 has is said by its KEY_USAGE.
#[tactic(auto, unfolding(crate::specs::Slots::has_role, laws::specs::Ranges::row_of))]
pub fn has_role(slot: u8, role: Role) -> bool
    ensures { result ≡ has_role slot role }
{
    match slot {
        2 => role == Role::VerifyMac,
        4..=13 => true,
        14 => true,
        _ => false,
    }
}

// The flags that a slot keeps; it stores any other as 0.
#[tactic(auto, unfolding(crate::specs::Slots::flags_kept, laws::specs::Ranges::row_of))]
pub fn flags_kept(slot: u8) -> u8
    ensures { result ≡ flags_kept slot }
{
    match slot {
        1 => WRITE | BOOT | DEBUGGER | WILDCARD,
        2..=3 => WRITE | DEBUGGER | WILDCARD,
        4..=13 => WRITE | BOOT | DEBUGGER | WILDCARD | KEY_USAGE,
        _ => 0,
    }
}

// A counter as a slot keeps it: a slot that has none keeps 0.
#[tactic(auto, unfolding(crate::specs::Slots::counter_kept, laws::specs::Ranges::row_of))]
pub fn counter_kept(slot: u8, counter: u32) -> u32
    ensures { result ≡ counter_kept slot counter }
{
    match slot {
        1..=13 => counter,
        _ => 0,
    }
}

// Whether a target may be loaded by an authority.
#[tactic(auto, unfolding(crate::specs::Slots::allowed, laws::specs::Ranges::row_of))]
pub fn is_allowed(target: u8, authority: u8) -> bool
    ensures { result ≡ allowed target authority }
{
    match target {
        1 => authority == 1,
        2..=3 => matches!(authority, 1 | 2),
        4..=13 => authority == 1 || authority == target,
        14 => matches!(authority, 0 | 4..=13),
        _ => false,
    }
}

// ---- bytes

// One text after another, N bytes in all.
fn join<const N: usize>(front: &[u8], back: &[u8]) -> [u8; N]
    requires { length front.now + length back.now ≡ N }
    ensures { result ≡ front.now ++ back.now }
{
    let mut whole = [0u8; N];
    let (start, end) = whole.split_at_mut(front.len());
    start.copy_from_slice(front);
    end.copy_from_slice(back);
    whole
}

// ---- the first block of M2

// What the block carries: a counter of 28 bits, and five flags.
#[derive(Clone, Copy)]
struct Head {
    counter: u32,
    flags: u8,
    ghost counter_fits: { counter ≤ max_counter },
    ghost flags_fit: { flags < 2 ^ flag_count },
}

impl Head {
    // In 33 bits from the left: the last four bits of the counter share byte 3 with four flags, and the fifth flag is the highest
    // bit of byte 4.
    #[tactic(auto, using(crate::proofs::FiveFlags::packed))]
    fn block(self) -> [u8; 16]
        ensures { result ≡ first_block flag_count self.counter self.flags }
    {
        let mut block = [0u8; 16];
        block[..4].copy_from_slice(&(self.counter << 4).to_be_bytes());
        block[3] |= self.flags >> 1;
        block[4] = self.flags << 7;
        block
    }

    fn read(block: [u8; 16]) -> Self
        ensures counter { result.counter ≡ counter_of block }
        ensures flags { result.flags ≡ flags_of flag_count block }
    {
        Self {
            counter: u32::from_be_bytes([block[0], block[1], block[2], block[3]]) >> 4,
            flags: (block[3] & 15) << 1 | block[4] >> 7,
        }
    }
}

// The 95 bits after the flags.
fn filler_is_zero(block: [u8; 16]) -> bool
    ensures { result ≡ eqb (filler_of flag_count block) 0 }
{
    let rest = basics::is_same(&block[5..], &[0u8; 11]);
    (block[4] & 127 == 0) & rest
}

// ---- the messages

// Target and authority as M1 and M4 have them, and each of them again. They are four bits each there.
fn slot_byte(target: u8, authority: u8) -> u8
    requires { (target < 16) × (authority < 16) }
    ensures { result ≡ slot_byte target authority }
{
    target << 4 | authority
}

pub fn target_of(slots: u8) -> u8
    ensures { result ≡ target_in slots }
{
    slots >> 4
}

pub fn authority_of(slots: u8) -> u8
    ensures { result ≡ authority_in slots }
{
    slots & 15
}

// UID and slots: this is M1, and M4 begins so.
fn build_m1(uid: [u8; 15], slots: u8) -> [u8; 16]
    ensures { result ≡ uid ++ (slots ∷ []) }
{
    join(&uid, &[slots])
}

fn build_m2(authkey: [u8; 16], head: Head, key: [u8; 16]) -> [u8; 32]
    ensures { result ≡ m2 flag_count authkey head.counter head.flags key }
{
    let k1 = modes::derive(authkey, Constant::KeyUpdateEnc);
    let clear: [u8; 32] = join(&head.block(), &key);
    let mut text = [0u8; 32];
    modes::cbc_encrypt(&k1, &[0u8; 16], &clear, &mut text).unwrap();
    text
}

fn build_m3(authkey: [u8; 16], first: [u8; 16], second: [u8; 32]) -> [u8; 16]
    ensures { result ≡ m3 authkey first second }
{
    let k2 = modes::derive(authkey, Constant::KeyUpdateMac);
    modes::text_mac(k2, first, &second)
}

fn build_m4(uid: [u8; 15], slots: u8, head: Head, key: [u8; 16]) -> [u8; 32]
    ensures { result ≡ (uid ++ (slots ∷ [])) ++ cipher (enc_key key) (first_block flag_count head.counter head.flags) }
{
    let k3 = modes::derive(key, Constant::KeyUpdateEnc);
    let proof = aes::encrypt(k3, head.block());
    join(&build_m1(uid, slots), &proof)
}

fn build_m5(key: [u8; 16], fourth: [u8; 32]) -> [u8; 16]
    ensures { result ≡ m5 key fourth }
{
    let k4 = modes::derive(key, Constant::KeyUpdateMac);
    let (head, proof) = fourth.split_at(16);
    modes::text_mac(k4, head.try_into().unwrap(), proof)
}

// ---- the writer

#[tactic(auto, unfolding(laws::specs::Lengths::right_lengths))]
fn message_lengths(
    uid: usize,
    authkey: usize,
    key: usize,
    first: usize,
    second: usize,
    third: usize,
) -> bool
    ensures value { result ≡ right_lengths (message_lengths uid authkey key first second third) }
    ensures each { IsTrue result → (uid ≡ 15) × (authkey ≡ 16) × (key ≡ 16) × (first ≡ 16) × (second ≡ 32) × (third ≡ 16) }
{
    (uid == 15) & (authkey == 16) & (key == 16) & (first == 16) & (second == 32) & (third == 16)
}

#[tactic(auto, using(crate::proofs::Slots::pair_slots), unfolding(crate::specs::Writer::writer_answer))]
fn check_writer(
    lengths: bool,
    counter: u32,
    flags: u8,
    target: u8,
    authority: u8,
) -> Result<Head, Refusal>
    ensures answer { answer_of result ≡ writer_answer lengths counter flags target authority }
    ensures head { IfOk result (λ head. (head.counter ≡ counter) × (head.flags ≡ flags)) }
    ensures ok { OnOk result (IsTrue lengths × (target < 16) × (authority < 16)) }
{
    if !lengths {
        return Err(Refusal::GeneralError);
    }
    if counter > MAX_COUNTER {
        return Err(Refusal::GeneralError);
    }
    if flags > ALL_FLAGS {
        return Err(Refusal::GeneralError);
    }
    if !is_allowed(target, authority) {
        return Err(Refusal::KeyInvalid);
    }
    Ok(Head { counter, flags })
}

// What M1 to M3 are to carry, to one device or with a UID of zeros to all: a key for the slot `target` with its counter and flags,
// under `authkey`, the key of the slot `authority`. Any of it may be wrong until `write` has looked at it.
#[derive(Clone, Copy)]
pub struct Update<'a> {
    pub uid: &'a [u8],
    pub target: u8,
    pub authority: u8,
    pub authkey: &'a [u8],
    pub counter: u32,
    pub flags: u8,
    pub key: &'a [u8],
}

impl Update<'_> {
    // M1 to M3. A refusal writes nothing.
    #[tactic(auto, using(crate::proofs::Written::messages_left), unfolding(crate::specs::Messages::m1))]
    pub fn write(&self, m1: &mut [u8], m2: &mut [u8], m3: &mut [u8]) -> Result<(), Refusal>
        ensures { messages (answer_of result) m1.new m2.new m3.new
            ≡ full_form self.now.uid.now self.now.target self.now.authority self.now.authkey.now self.now.counter self.now.flags
            self.now.key.now m1.old m2.old m3.old }
    {
        let lengths = message_lengths(
            self.uid.len(),
            self.authkey.len(),
            self.key.len(),
            m1.len(),
            m2.len(),
            m3.len(),
        );
        let head = check_writer(
            lengths,
            self.counter,
            self.flags,
            self.target,
            self.authority,
        )?;
        let uid = self.uid.try_into().unwrap();
        let authkey = self.authkey.try_into().unwrap();
        let key = self.key.try_into().unwrap();
        let first = build_m1(uid, slot_byte(self.target, self.authority));
        let second = build_m2(authkey, head, key);
        let third = build_m3(authkey, first, second);
        m1.copy_from_slice(&first);
        m2.copy_from_slice(&second);
        m3.copy_from_slice(&third);
        Ok(())
    }
}

// Without flags.
pub fn write_key_short(
    uid: &[u8],
    target: u8,
    authority: u8,
    authkey: &[u8],
    counter: u32,
    key: &[u8],
    m1: &mut [u8],
    m2: &mut [u8],
    m3: &mut [u8],
) -> Result<(), Refusal>
    ensures { messages (answer_of result) m1.new m2.new m3.new
        ≡ short_form uid.now target authority authkey.now counter key.now m1.old m2.old m3.old }
{
    let update = Update {
        uid,
        target,
        authority,
        authkey,
        counter,
        flags: SHORT_FLAGS,
        key,
    };
    update.write(m1, m2, m3)
}

// One message for many boards.
pub fn fleet_sheet(
    target: u8,
    authority: u8,
    authkey: &[u8],
    counter: u32,
    key: &[u8],
    m1: &mut [u8],
    m2: &mut [u8],
    m3: &mut [u8],
) -> Result<(), Refusal>
    ensures { messages (answer_of result) m1.new m2.new m3.new
        ≡ fleet_sheet target authority authkey.now counter key.now m1.old m2.old m3.old }
{
    write_key_short(
        &[0u8; 15], target, authority, authkey, counter, key, m1, m2, m3,
    )
}

#[tactic(auto, unfolding(laws::specs::Lengths::right_lengths))]
fn proof_lengths(uid: usize, key: usize, fourth: usize, fifth: usize) -> bool
    ensures value { result ≡ right_lengths (proof_lengths uid key fourth fifth) }
    ensures each { IsTrue result → (uid ≡ 15) × (key ≡ 16) × (fourth ≡ 32) × (fifth ≡ 16) }
{
    (uid == 15) & (key == 16) & (fourth == 32) & (fifth == 16)
}

// The M4 and M5 with which a device of this UID proves that it has taken a message with this counter: it names the counter as the
// target keeps it.
#[tactic(auto, using(crate::proofs::Written::proof_left), unfolding(crate::specs::Messages::m4, crate::specs::Messages::m1))]
pub fn write_proof(
    uid: &[u8],
    target: u8,
    authority: u8,
    counter: u32,
    key: &[u8],
    m4: &mut [u8],
    m5: &mut [u8],
) -> Result<(), Refusal>
    ensures { proof (answer_of result) m4.new m5.new ≡ proof_form uid.now target authority counter key.now m4.old m5.old }
{
    let lengths = proof_lengths(uid.len(), key.len(), m4.len(), m5.len());
    let head = check_writer(lengths, counter, 0, target, authority)?;
    let uid = uid.try_into().unwrap();
    let key = key.try_into().unwrap();
    // A 1 bit after the counter, and zeros after that: so stands the first flag alone.
    let stored = Head {
        counter: counter_kept(target, head.counter),
        flags: WRITE,
    };
    let fourth = build_m4(uid, slot_byte(target, authority), stored, key);
    let fifth = build_m5(key, fourth);
    m4.copy_from_slice(&fourth);
    m5.copy_from_slice(&fifth);
    Ok(())
}

// ---- opening

// What M1 to M3 hold where M3 is the MAC of M1 and M2: the counter, the flags, whether the filler after them is all zeros, and
// the new key.
#[derive(Clone, Copy, Default)]
pub struct Contents {
    pub counter: u32,
    pub flags: u8,
    pub zerofill: bool,
    pub key: [u8; 16],
}

#[tactic(auto, unfolding(laws::specs::Lengths::right_lengths))]
fn open_lengths(authkey: usize, first: usize, second: usize, third: usize) -> bool
    ensures value { result ≡ right_lengths (open_lengths authkey first second third) }
    ensures each { IsTrue result → (authkey ≡ 16) × (first ≡ 16) × (second ≡ 32) × (third ≡ 16) }
{
    (authkey == 16) & (first == 16) & (second == 32) & (third == 16)
}

#[tactic(auto, unfolding(crate::specs::Opening::opened_text))]
fn read_clear(clear: [u8; 32]) -> Contents
    ensures value { opened_as (Some result) ≡ opened_text flag_count clear }
    ensures counter_le_max_counter { result.counter ≤ max_counter }
{
    let (front, back) = clear.split_at(16);
    let first = front.try_into().unwrap();
    let head = Head::read(first);
    Contents {
        counter: head.counter,
        flags: head.flags,
        zerofill: filler_is_zero(first),
        key: back.try_into().unwrap(),
    }
}

// Opens M1 to M3 under the authority's key; they hold nothing where a length or M3 is wrong. M2 is deciphered only where M3 is
// right.
#[tactic(auto, using(crate::proofs::Opening::stays_closed))]
pub fn open(authkey: &[u8], m1: &[u8], m2: &[u8], m3: &[u8]) -> Option<Contents>
    ensures value { opened_as result ≡ opened flag_count authkey.now m1.now m2.now m3.now }
    ensures counter_le_max_counter { (opened_as result).counter ≤ max_counter }
{
    if !open_lengths(authkey.len(), m1.len(), m2.len(), m3.len()) {
        return None;
    }
    let authkey = authkey.try_into().unwrap();
    let expected = build_m3(authkey, m1.try_into().unwrap(), m2.try_into().unwrap());
    if !basics::is_same(m3, &expected) {
        return None;
    }
    let k1 = modes::derive(authkey, Constant::KeyUpdateEnc);
    let mut clear = [0u8; 32];
    modes::cbc_decrypt(&k1, &[0u8; 16], m2, &mut clear).unwrap();
    Some(read_clear(clear))
}
