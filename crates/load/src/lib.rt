// LOAD_KEY and EXPORT_RAM_KEY: key messages in, and out.
//
// The checks stand in the order of `specs/Load.antt`. Up to the six that guard the authority no key is used; the message is opened
// only then, and the proof M4 and M5 is written only when all ten have passed.
#![tactic(auto)]

ghost use Rattle.std.specs.Prelude.{true, ◌≡◌, ◌∷◌, [], Some, IsTrue, OnOk};
ghost use Rattle.std.specs.Result.{result_unwrap_or};
ghost use Rattle.laws.specs.Lengths.{right_lengths};
ghost use Rattle.basics.specs.Answers.{answer_of};
ghost use Rattle.message.specs.Flags.{flag_count};
ghost use Rattle.message.specs.Opening.{opened_as};
ghost use Rattle.message.specs.Slots.{allowed};
ghost use Rattle.device.specs.Account.{perform, answer_by};
ghost use Rattle.device.specs.Outcome.{outcome};
ghost use Rattle.load.specs.Export.{export_checks, export_ram_key};
ghost use Rattle.load.specs.Load.{five_lengths, pair_checks, opened_answer, load_key};
ghost use Rattle.load.specs.Rules.{authority_key, is_for_us, counter_rises, plain_after, loaded};

use basics::{OFF, Refusal};
use device::{Device, PLAIN_MARK, RAM_KEY, SECRET_KEY, Slot};
use message::{Contents, Update};

// M1 to M5.
#[tactic(auto, unfolding(laws::specs::Lengths::right_lengths))]
fn five_lengths(first: usize, second: usize, third: usize, fourth: usize, fifth: usize) -> bool
    ensures value { result ≡ right_lengths (five_lengths first second third fourth fifth) }
    ensures each { IsTrue result → (first ≡ 16) × (second ≡ 32) × (third ≡ 16) × (fourth ≡ 32) × (fifth ≡ 16) }
{
    (first == 16) & (second == 32) & (third == 16) & (fourth == 32) & (fifth == 16)
}

// ---- the rules of a load

// The key under which an authority's messages are written: sixteen times FF while it is empty, so that a slot can take its first
// key from itself.
#[tactic(auto, unfolding(crate::specs::Rules::authority_key))]
fn authority_key(device: &Device, authority: u8) -> [u8; 16]
    ensures { result ≡ authority_key device.now authority }
{
    if device.is_empty(authority) {
        return [0xff; 16];
    }
    device.key_at(authority)
}

// Whether a message with this UID is for the device: its own, or the wildcard where the target takes it.
#[tactic(auto, unfolding(crate::specs::Rules::is_for_us))]
fn is_for_us(device: &Device, target: u8, uid: [u8; 15]) -> bool
    ensures { result ≡ is_for_us device.now target uid }
{
    let forbidden = device::has_flag(device.flags_at(target), message::WILDCARD);
    basics::is_same(&uid, &device.uid)
        | basics::is_same(&uid, &[0; 15]) & ((target == RAM_KEY) | !forbidden)
}

// Slot 14 keeps no counter, and takes any.
#[tactic(auto, unfolding(crate::specs::Rules::counter_rises))]
fn counter_rises(device: &Device, target: u8, counter: u32) -> bool
    ensures { result ≡ counter_rises device.now target counter }
{
    (target == RAM_KEY) | (device.counter_at(target) < counter)
}

// The plain mark after a load: what comes into slot 14 by a message is not plain.
#[tactic(auto, unfolding(crate::specs::Rules::plain_after))]
fn plain_after(target: u8, plain: u8) -> u8
    ensures { result ≡ plain_after target plain }
{
    if target == RAM_KEY { OFF } else { plain }
}

// What was opened comes into the target, as that keeps it.
#[tactic(auto, unfolding(crate::specs::Rules::loaded))]
fn put_loaded(device: &mut Device, target: u8, new: Contents)
    ensures { device.new ≡ loaded device.old target new.counter new.flags new.key }
{
    device.marks[PLAIN_MARK] = plain_after(target, device.marks[PLAIN_MARK]);
    // By itself: an array that goes from one record right into another gets no proof.
    let key = new.key;
    let slot = Slot {
        key,
        counter: message::counter_kept(target, new.counter),
        flags: device::kept(target, new.flags),
        empty: OFF,
    };
    device.put_slot(target, slot);
}

// ---- LOAD_KEY

// The checks before the message is opened.
#[tactic(auto, using(device::proofs::Account::first_checks), unfolding(device::specs::Account::answer_by))]
fn check_guard(device: &Device, lengths: bool, target: u8, authority: u8) -> Result<(), Refusal>
    ensures answer { answer_of result ≡ answer_by device.now lengths (pair_checks device.now target authority) }
    ensures ok { OnOk result (IsTrue lengths × (allowed target authority ≡ true)) }
{
    device.check(lengths)?;
    if !message::is_allowed(target, authority) {
        return Err(Refusal::KeyInvalid);
    }
    if device::has_flag(device.flags_at(target), message::WRITE) {
        return Err(Refusal::KeyWriteProtected);
    }
    if device.is_empty(authority) & (authority != target) {
        return Err(Refusal::KeyEmpty);
    }
    if device.is_locked(authority) {
        return Err(Refusal::KeyNotAvailable);
    }
    Ok(())
}

// The checks of what was opened, after the one that it opens at all.
#[tactic(auto, unfolding(crate::specs::Load::opened_answer))]
fn check_opened(device: &Device, target: u8, uid: [u8; 15], new: Contents) -> Result<(), Refusal>
    ensures { answer_of result ≡ opened_answer device.now target uid (opened_as (Some new)) }
{
    if !is_for_us(device, target, uid) {
        return Err(Refusal::KeyUpdateError);
    }
    if !new.zerofill {
        return Err(Refusal::KeyUpdateError);
    }
    if !counter_rises(device, target, new.counter) {
        return Err(Refusal::KeyUpdateError);
    }
    Ok(())
}

// A key by its messages M1 to M3; M4 and M5 prove that it was taken.
#[tactic(auto, using(crate::proofs::Loading::loading), unfolding(device::specs::Account::perform, device::specs::Outcome::by_answer, crate::specs::Load::load_key))]
pub fn load_key(
    device: Device,
    m1: &[u8],
    m2: &[u8],
    m3: &[u8],
    m4: &mut [u8],
    m5: &mut [u8],
) -> Result<Device, Refusal>
    ensures { outcome (answer_of result) (result_unwrap_or result device) 0 (m4.new ∷ m5.new ∷ [])
        ≡ perform (load_key flag_count m1.now m2.now m3.now m4.old m5.old) device }
{
    let lengths = five_lengths(m1.len(), m2.len(), m3.len(), m4.len(), m5.len());
    let slots = basics::byte_at(m1, 15);
    let target = message::target_of(slots);
    let authority = message::authority_of(slots);
    check_guard(&device, lengths, target, authority)?;
    let authkey = authority_key(&device, authority);
    let new = message::open(&authkey, m1, m2, m3).ok_or(Refusal::KeyUpdateError)?;
    check_opened(&device, target, basics::uid_from(m1), new)?;
    // The proof names the device itself, also where the message had the wildcard. What was checked makes it succeed.
    message::write_proof(
        &device.uid,
        target,
        authority,
        new.counter,
        &new.key,
        m4,
        m5,
    )?;
    let mut after = device;
    put_loaded(&mut after, target, new);
    Ok(after)
}

// ---- EXPORT_RAM_KEY

#[tactic(auto, using(device::proofs::Account::first_checks), unfolding(device::specs::Account::answer_by))]
fn check_export(device: &Device, lengths: bool) -> Result<(), Refusal>
    ensures answer { answer_of result ≡ answer_by device.now lengths (export_checks device.now) }
    ensures ok { OnOk result (IsTrue lengths) }
{
    device.check(lengths)?;
    if device.is_empty(RAM_KEY) {
        return Err(Refusal::KeyEmpty);
    }
    if !device.is_marked(PLAIN_MARK) {
        return Err(Refusal::KeyInvalid);
    }
    Ok(())
}

// Slot 14 as messages that this device takes again, under its SECRET_KEY.
#[tactic(auto, using(crate::proofs::Exporting::exporting), unfolding(device::specs::Account::perform, device::specs::Outcome::by_answer, crate::specs::Export::export_ram_key))]
pub fn export_ram_key(
    device: Device,
    m1: &mut [u8],
    m2: &mut [u8],
    m3: &mut [u8],
    m4: &mut [u8],
    m5: &mut [u8],
) -> Result<(), Refusal>
    ensures { outcome (answer_of result) device 0 (m1.new ∷ m2.new ∷ m3.new ∷ m4.new ∷ m5.new ∷ [])
        ≡ perform (export_ram_key flag_count m1.old m2.old m3.old m4.old m5.old) device }
{
    let lengths = five_lengths(m1.len(), m2.len(), m3.len(), m4.len(), m5.len());
    check_export(&device, lengths)?;
    let secret = device.key_at(SECRET_KEY);
    let key = device.key_at(RAM_KEY);
    let update = Update {
        uid: &device.uid,
        target: RAM_KEY,
        authority: SECRET_KEY,
        authkey: &secret,
        counter: 0,
        flags: 0,
        key: &key,
    };
    update.write(m1, m2, m3)?;
    message::write_proof(&device.uid, RAM_KEY, SECRET_KEY, 0, &key, m4, m5)
}
