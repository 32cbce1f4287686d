// The device record and its rules: what a slot holds, when a record counts as made, and when a key may be used.
//
// A record is plain data that anyone could have filled, so nothing in it is believed before `is_made`. Slot numbers are bytes
// from 0 to 255 and stay so: to read what is no slot gives zeros, and to put something there changes nothing.
#![tactic(auto)]

ghost use Rattle.std.specs.Prelude.{◌≡◌, ◌≤◌, []};
ghost use Rattle.basics.specs.Answers.{answer_of};
ghost use Rattle.device.specs.Account.{answer_by};
ghost use Rattle.device.specs.Made.{is_zero, slot_fine, slots_fine, made, new_marks, unset, blank, fresh};
ghost use Rattle.device.specs.Record.{is_marked, key_at, counter_at, flags_at, is_empty, holding, emptied, slot_at, set_marks, put_slot, Shaped};
ghost use Rattle.device.specs.Rules.{has_flag, kept, boot_failed, locked, usage_fits, bit_where, status};

use basics::{OFF, ON, Refusal};
use message::Role;

// Slots that a rule names. A slot is a byte, since what is asked of one is answered for all 256.
pub const SECRET_KEY: u8 = 0;

pub const MASTER_ECU_KEY: u8 = 1;

pub const BOOT_MAC_KEY: u8 = 2;

pub const BOOT_MAC: u8 = 3;

pub const RAM_KEY: u8 = 14;

// The places of the marks: random numbers are initialised, slot 14 came in plain, a debugger is attached, the device is made,
// SECURE_BOOT succeeded since reset, and the four bits of the status about it. The other places are for marks to come: making and
// reset leave them off, and every other call leaves them as they are. They are numbers, since a mark can be asked for at any place.
pub const RNG_MARK: usize = 0;

pub const PLAIN_MARK: usize = 1;

pub const DEBUGGER_MARK: usize = 2;

pub const MADE_MARK: usize = 3;

pub const BOOTED_MARK: usize = 4;

pub const SECURE_BOOT_MARK: usize = 5;

pub const BOOT_INIT_MARK: usize = 6;

pub const BOOT_FINISHED_MARK: usize = 7;

pub const BOOT_OK_MARK: usize = 8;

const SLOTS: u8 = 15;

// ---- the record

#[repr(C)]
#[derive(Clone, Copy, PartialEq, Eq)]
pub struct Device {
    // Sixteen bytes a slot.
    pub keys: [u8; 240],
    // For each slot its counter, its flags as one number, and whether it is empty. Slots 0 and 14 keep no counter and no flags.
    pub counters: [u32; 15],
    pub flags: [u8; 15],
    pub empty: [u8; 15],
    pub uid: [u8; 15],
    // Random numbers: the seed outlives a reset, and the state and its key do not.
    pub seed: [u8; 16],
    pub state: [u8; 16],
    pub rngkey: [u8; 16],
    // As many as fill the record up to a multiple of four, so that C sees no byte in it that nothing settles.
    pub marks: [u8; 11],
}

// What one slot holds.
#[derive(Clone, Copy)]
pub struct Slot {
    pub key: [u8; 16],
    pub counter: u32,
    pub flags: u8,
    pub empty: u8,
}

impl Slot {
    // A slot that no message has filled: a key, and no counter and no flags.
    pub fn holding(key: [u8; 16]) -> Slot
        ensures { result ≡ holding key }
    {
        Slot {
            key,
            counter: 0,
            flags: 0,
            empty: OFF,
        }
    }

    pub fn emptied() -> Slot
        ensures { result ≡ emptied }
    {
        Slot {
            key: [0; 16],
            counter: 0,
            flags: 0,
            empty: ON,
        }
    }

    fn is_zero(&self) -> bool
        ensures { result ≡ is_zero self.now }
    {
        basics::is_same(&self.key, &[0; 16]) & (self.counter == 0) & (self.flags == 0)
    }

    // Whether it is what the slot of this number may hold: a mark, a counter and flags that it can keep, and nothing at all where
    // it is empty.
    #[tactic(auto, unfolding(crate::specs::Made::slot_fine))]
    fn is_fine(&self, number: u8) -> bool
        ensures { result ≡ slot_fine number self.now }
    {
        (self.empty <= ON)
            & (self.counter <= message::counter_kept(number, message::MAX_COUNTER))
            & (kept(number, self.flags) == self.flags)
            & ((self.empty != ON) | self.is_zero())
    }
}

// ---- flags

pub fn has_flag(flags: u8, flag: u8) -> bool
    ensures { result ≡ has_flag flags flag }
{
    flags & flag != 0
}

// Flags as a slot keeps them: one that it hasn't is 0.
#[tactic(auto, unfolding(crate::specs::Rules::kept))]
pub fn kept(slot: u8, flags: u8) -> u8
    ensures { result ≡ kept slot flags }
{
    flags & message::flags_kept(slot)
}

// Whether KEY_USAGE lets a slot have a role: it says which of KEY_1 to KEY_10 are for MACs.
#[tactic(auto, unfolding(crate::specs::Rules::usage_fits, laws::specs::Ranges::row_of))]
pub fn usage_fits(slot: u8, flags: u8, role: Role) -> bool
    ensures { result ≡ usage_fits slot flags role }
{
    let mac = matches!(role, Role::GenerateMac | Role::VerifyMac);
    let usage = has_flag(flags, message::KEY_USAGE);
    match slot {
        4..=13 => mac == usage,
        _ => true,
    }
}

impl Device {
    // ---- what it holds

    pub fn is_marked(&self, place: usize) -> bool
        ensures { result ≡ is_marked self.now place }
    {
        basics::byte_at(&self.marks, place) == ON
    }

    pub fn key_at(&self, slot: u8) -> [u8; 16]
        ensures { result ≡ key_at self.now slot }
    {
        basics::block_at(&self.keys, slot)
    }

    pub fn counter_at(&self, slot: u8) -> u32
        ensures { result ≡ counter_at self.now slot }
    {
        basics::item_at(&self.counters, slot as usize, 0)
    }

    pub fn flags_at(&self, slot: u8) -> u8
        ensures { result ≡ flags_at self.now slot }
    {
        basics::byte_at(&self.flags, slot as usize)
    }

    pub fn is_empty(&self, slot: u8) -> bool
        ensures { result ≡ is_empty self.now slot }
    {
        basics::byte_at(&self.empty, slot as usize) == ON
    }

    fn slot_at(&self, slot: u8) -> Slot
        ensures { result ≡ slot_at self.now slot }
    {
        Slot {
            key: self.key_at(slot),
            counter: self.counter_at(slot),
            flags: self.flags_at(slot),
            empty: basics::byte_at(&self.empty, slot as usize),
        }
    }

    // Puts what one slot holds anew.
    #[tactic(auto, unfolding(crate::specs::Record::put_slot))]
    pub fn put_slot(&mut self, slot: u8, new: Slot)
        ensures { self.new ≡ put_slot slot new self.old }
    {
        if slot > RAM_KEY {
            return;
        }
        let n = slot as usize;
        self.keys = basics::put_block(self.keys, slot, new.key);
        self.counters[n] = new.counter;
        self.flags[n] = new.flags;
        self.empty[n] = new.empty;
    }

    // ---- rules

    // Whether the bootloader was checked and is not the right one, or was found bad later.
    fn boot_failed(&self) -> bool
        ensures { result ≡ boot_failed self.now }
    {
        self.is_marked(SECURE_BOOT_MARK) & !self.is_marked(BOOT_OK_MARK)
    }

    // Whether the debugger or a failed boot check keeps a slot from being used.
    #[tactic(auto, unfolding(crate::specs::Rules::locked))]
    pub fn is_locked(&self, slot: u8) -> bool
        ensures { result ≡ locked self.now slot }
    {
        let flags = self.flags_at(slot);
        self.is_marked(DEBUGGER_MARK) & has_flag(flags, message::DEBUGGER)
            | self.boot_failed() & has_flag(flags, message::BOOT)
    }

    // What a mark adds to the status.
    fn bit_where(&self, place: usize, bit: u8) -> u8
        ensures value { result ≡ bit_where self.now place bit }
        ensures upper_bound { result ≤ bit }
    {
        if self.is_marked(place) { bit } else { 0 }
    }

    #[tactic(auto, unfolding(crate::specs::Rules::status))]
    pub fn status(&self) -> u8
        ensures { result ≡ status self.now }
    {
        self.bit_where(SECURE_BOOT_MARK, 2)
            + self.bit_where(BOOT_INIT_MARK, 4)
            + self.bit_where(BOOT_FINISHED_MARK, 8)
            + self.bit_where(BOOT_OK_MARK, 16)
            + self.bit_where(RNG_MARK, 32)
            + self.bit_where(DEBUGGER_MARK, 64)
    }

    // ---- made

    // By value: of a value alone its type tells a proof that the keys are bytes.
    fn slots_fine(self) -> bool
        ensures value { result ≡ slots_fine self }
        ensures shaped { Shaped self }
    {
        (0..SLOTS).all(|slot| self.slot_at(slot).is_fine(slot))
    }

    // Whether a record is one that making and the commands can have left. That every record has the shape which theorems ask of it
    // is promised here too.
    #[tactic(auto, unfolding(crate::specs::Made::made, crate::specs::Made::marks_fine))]
    pub fn is_made(&self) -> bool
        ensures value { result ≡ made self.now }
        ensures shaped { Shaped self.now }
    {
        let named = !basics::is_same(&self.uid, &[0; 15]);
        let at_rest = basics::is_same(&self.state, &[0; 16])
            & basics::is_same(&self.rngkey, &[0; 16]);
        self.is_marked(MADE_MARK)
            & named
            & !self.is_empty(SECRET_KEY)
            & self.slots_fine()
            & (!self.is_empty(RAM_KEY) | !self.is_marked(PLAIN_MARK))
            & (self.is_marked(RNG_MARK) | at_rest)
            & basics::are_marks(&self.marks)
    }

    // What is checked before anything else that a command checks: the record, and the lengths of what was lent.
    #[tactic(auto, unfolding(crate::specs::Account::answer_by))]
    pub fn check(&self, lengths: bool) -> Result<(), Refusal>
        ensures { answer_of result ≡ answer_by self.now lengths [] }
    {
        if !(self.is_made() & lengths) {
            return Err(Refusal::GeneralError);
        }
        Ok(())
    }

    // ---- new records

    // Nothing but a UID, a seed and what every slot's empty mark is.
    fn unset(uid: [u8; 15], seed: [u8; 16], empty: u8) -> Device
        ensures { result ≡ unset uid seed empty }
    {
        Device {
            keys: [0; 240],
            counters: [0; 15],
            flags: [0; 15],
            empty: [empty; 15],
            uid,
            seed,
            state: [0; 16],
            rngkey: [0; 16],
            marks: [OFF; 11],
        }
    }

    // Gives it the marks of a new one: it is made, and nothing else.
    pub fn renew_marks(&mut self)
        ensures { self.new ≡ set_marks new_marks self.old }
    {
        self.marks = [OFF; 11];
        self.marks[MADE_MARK] = ON;
    }

    // The blank device: all zero, and not made.
    pub fn blank() -> Device
        ensures { result ≡ blank }
    {
        Device::unset([0; 15], [0; 16], OFF)
    }

    // A new device: SECRET_KEY is put into a key store of zeros, and all other slots are empty.
    pub fn fresh(uid: [u8; 15], secret: [u8; 16], seed: [u8; 16]) -> Device
        ensures { result ≡ fresh uid secret seed }
    {
        let mut device = Device::unset(uid, seed, ON);
        device.renew_marks();
        device.put_slot(SECRET_KEY, Slot::holding(secret));
        device
    }
}
