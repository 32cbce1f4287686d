// The boot check: SECURE_BOOT, and BOOT_FAILURE and BOOT_OK, by which later stages of booting tell how they went. Each takes the
// device by value and hands it back, changed, where it isn't refused.
//
// As in the other commands, the checks come first, and nothing is changed before they have passed.
#![tactic(auto)]

ghost use Rattle.std.specs.Prelude.{true, ◌≡◌, ◌≤◌, [], OnOk};
ghost use Rattle.std.specs.Result.{result_unwrap_or};
ghost use Rattle.basics.specs.Answers.{answer_of};
ghost use Rattle.device.specs.Account.{perform, answer_by};
ghost use Rattle.device.specs.Outcome.{outcome};
ghost use Rattle.boot.specs.Boot.{size_block, boot_lengths, boot_checks, learnt, checked, secure_boot, stage_checks, boot_failure, boot_ok};

use basics::{OFF, ON, Refusal};
use device::{
    BOOT_FINISHED_MARK, BOOT_INIT_MARK, BOOT_MAC, BOOT_MAC_KEY, BOOT_OK_MARK, BOOTED_MARK, Device,
    SECURE_BOOT_MARK, Slot,
};

// ---- SECURE_BOOT

// What is MACed before the bootloader: 96 zero bits, and its size in bytes, the most significant byte first.
fn size_block(size: u32) -> [u8; 16]
    ensures { result ≡ size_block size }
{
    let mut block = [0u8; 16];
    block[12..].copy_from_slice(&size.to_be_bytes());
    block
}

#[tactic(auto, using(device::proofs::Account::first_checks), unfolding(device::specs::Account::answer_by))]
fn check_boot(device: &Device, size: usize) -> Result<(), Refusal>
    ensures answer { answer_of result ≡ answer_by device.now (boot_lengths size) (boot_checks device.now) }
    ensures fits { OnOk result (size ≤ 65536) }
{
    device.check((1..=65536).contains(&size))?;
    if device.is_marked(BOOTED_MARK) {
        return Err(Refusal::SequenceError);
    }
    if device.is_empty(BOOT_MAC_KEY) {
        return Err(Refusal::NoSecureBoot);
    }
    if device.is_locked(BOOT_MAC_KEY) | device.is_locked(BOOT_MAC) {
        return Err(Refusal::KeyNotAvailable);
    }
    Ok(())
}

// The first boot with a BOOT_MAC_KEY: the MAC becomes the BOOT_MAC.
#[tactic(auto, unfolding(crate::specs::Boot::learnt))]
fn learn(device: &mut Device, mac: [u8; 16])
    ensures { device.new ≡ learnt mac device.old }
{
    device.marks[BOOTED_MARK] = ON;
    device.marks[BOOT_INIT_MARK] = ON;
    device.put_slot(BOOT_MAC, Slot::holding(mac));
}

// Every later one: does the MAC agree? Both marks are written, so that a check that fails never leaves BOOT_OK on.
#[tactic(auto, unfolding(crate::specs::Boot::checked))]
fn check(device: &mut Device, agrees: bool)
    ensures { device.new ≡ checked agrees device.old }
{
    device.marks[BOOTED_MARK] = ON;
    device.marks[SECURE_BOOT_MARK] = ON;
    device.marks[BOOT_OK_MARK] = agrees as u8;
    device.marks[BOOT_FINISHED_MARK] = !agrees as u8;
}

// Once per reset: the bootloader is learnt, or checked against what was learnt or loaded.
#[tactic(auto, unfolding(device::specs::Account::perform, device::specs::Outcome::by_answer, crate::specs::Boot::secure_boot, crate::specs::Boot::measure))]
pub fn secure_boot(device: Device, bootloader: &[u8]) -> Result<Device, Refusal>
    ensures { outcome (answer_of result) (result_unwrap_or result device) 0 [] ≡ perform (secure_boot bootloader.now) device }
{
    check_boot(&device, bootloader.len())?;
    let mac = modes::text_mac(
        device.key_at(BOOT_MAC_KEY),
        size_block(bootloader.len() as u32),
        bootloader,
    );
    let mut after = device;
    if device.is_empty(BOOT_MAC) {
        learn(&mut after, mac);
    } else {
        let agrees = basics::is_same(&mac, &device.key_at(BOOT_MAC));
        check(&mut after, agrees);
    }
    Ok(after)
}

// ---- later stages

// The checks of the two commands by which later stages of booting tell how they ended.
#[tactic(auto, using(device::proofs::Account::first_checks), unfolding(device::specs::Account::answer_by))]
fn check_stage(device: &Device) -> Result<(), Refusal>
    ensures { answer_of result ≡ answer_by device.now true (stage_checks device.now) }
{
    device.check(true)?;
    if !device.is_marked(SECURE_BOOT_MARK) {
        return Err(Refusal::NoSecureBoot);
    }
    if device.is_marked(BOOT_FINISHED_MARK) {
        return Err(Refusal::SequenceError);
    }
    Ok(())
}

// A later stage found something bad: from here on it is as if the check had failed.
#[tactic(auto, unfolding(device::specs::Account::perform, device::specs::Outcome::by_answer, crate::specs::Boot::boot_failure))]
pub fn boot_failure(device: Device) -> Result<Device, Refusal>
    ensures { outcome (answer_of result) (result_unwrap_or result device) 0 [] ≡ perform boot_failure device }
{
    check_stage(&device)?;
    let mut after = device;
    after.marks[BOOT_FINISHED_MARK] = ON;
    after.marks[BOOT_OK_MARK] = OFF;
    Ok(after)
}

// All stages went well: BOOT_FAILURE is refused from here on.
#[tactic(auto, unfolding(device::specs::Account::perform, device::specs::Outcome::by_answer, crate::specs::Boot::boot_ok))]
pub fn boot_ok(device: Device) -> Result<Device, Refusal>
    ensures { outcome (answer_of result) (result_unwrap_or result device) 0 [] ≡ perform boot_ok device }
{
    check_stage(&device)?;
    let mut after = device;
    after.marks[BOOT_FINISHED_MARK] = ON;
    Ok(after)
}
