// Plays cases of the device: reads lines, does what each says, and writes it with what came of it. So a case is added as data.
//
// Nothing here knows what a call should answer. What the program must write is in the file stdout, which a second program has
// written from the same lines. After an answer of 0 stands what the command put out and, where it may change the device, each
// field of the record that it changed, by name and with its new bytes; after any other stands whether the lent buffers are as they
// were, as a refusal brings no other device. A line that makes the device anew writes the fields in which it differs from the one
// before.
//
// A line is a name and up to twelve numbers; the words between them are for the reader, and have no digits. A number that is
// left out is larger than any, and a length that is larger than a buffer stands for all of it. A line that starts with # is a
// heading. There is one device, and one book of the foreman's about it, which each line leaves to the next. The names, with their
// numbers:
//
//     MAKE uid, its length, of SECRET_KEY, of the seed, a bit of SECRET_KEY that is changed
//     DEVICE last, flags                   makes the device, and loads slots 1 to the last by slot 1 with counter 1
//     SET field, place, value              changes a byte or a counter of the record, whose fields are counted from 0: keys,
//                                          counters, flags, empty marks, UID, seed, random state, random key, marks
//     RECORD from, to                      these of the record's 35 rows, the last left out
//     RESET, DEBUGGER, INIT_RNG, GET_STATUS, BOOT_FAILURE, BOOT_OK
//     SECURE_BOOT length, a bit that is changed
//     EXTEND_SEED length
//     RND length
//     LOAD_PLAIN_KEY slot, length          with the key of a slot
//     GET_ID length in, out
//     ENC_ECB slot, length in, out         and DEC_ECB
//     ENC_CBC slot, length in, out, IV     and DEC_CBC; the last block is shown
//     GENERATE_MAC slot, length in, out, bits
//     VERIFY_MAC slot, length in, of the MAC, bits, MAC length, a bit of the MAC and one of the message that are changed
//     ROLES to                             the answers of these six, in this order, for the slots below
//     LOAD_KEY target, authority, counter, flags, uid, a bit of the first block and one of the messages that are changed, and
//                                          the lengths of M1 to M5; with no number the last messages again
//     PAIRS                                the slot bytes of M1 that LOAD_KEY takes
//     EXPORT_RAM_KEY lengths of M1 to M5
//     BOOK lengths of UID, keys, marks, counters, and a field, place, value
//                                          opens the book with what the device holds, or would hold after SET with the last three
//     LETTER target, authority, flags, lengths of the new key and of M1 to M3
//                                          the book writes over the last messages, so that LOAD_KEY with no number loads them
//     RECEIPT target, a bit that is changed, lengths of M4 and M5
//                                          the book judges the last M4 and M5
//
// The key of a slot is made of its number. UID 0 is the wildcard, 1 the device's own, 2 another. VERIFY_MAC takes the block
// that the last of the five before it put out. Bits are counted from the most significant of the first byte, through M1, M2 and
// M3, and through M4 and M5. A letter brings the key of its target.
//
// After a line of the book stands what is new in it: which slots are held once it is opened, the counter of a letter, and what a
// yes has put in. A book that could not be opened is blank. After a refused letter stands whether the messages are as they were.
// After a no, and after a refused receipt, always stands that nothing changed: no other book comes, and M4 and M5 are only read.
//
// The fields that are written where they changed, with an example of those that hold several things:
//
//     key 4                                and so for each slot
//     slot 4 000000010d00                  a counter of 1, flags 0d, and 00 as it is not empty
//     UID, seed, state, random key         the last two are those of the random numbers
//     marks 0100000101010000010000         initialised, not plain, no debugger, made, booted since reset, and of the status
//                                          SECURE_BOOT, no BOOT_INIT, no BOOT_FINISHED, BOOT_OK; the last two have no meaning yet
#![tactic(auto)]

use arrayvec::ArrayVec;
use basics::Refusal;
use device::Device;
use garage::Book;
use modes::Constant;
use std::io;
use std::io::{Read, Stdout, Write};

// How much of the input is read.
const MOST: usize = 65536;

// SECRET_KEY, seed and entropy are those of AUTOSAR TR 948, 4.13.2.6 and 4.13.2.9. The bytes after the right length are there
// for wrong ones.
const SECRET: [u8; 17] = *b"\x2b\x7e\x15\x16\x28\xae\xd2\xa6\xab\xf7\x15\x88\x09\xcf\x4f\x3c+";

const SEED: [u8; 17] = *b"\x6b\xc1\xbe\xe2\x2e\x40\x9f\x96\xe9\x3d\x7e\x11\x73\x93\x17\x2a+";

const ENTROPY: [u8; 17] = *b"\xae\x2d\x8a\x57\x1e\x03\xac\x9c\x9e\xb7\x6f\xac\x45\xaf\x8e\x51+";

const UID: [u8; 16] = *b"\xa0\xa1\xa2\xa3\xa4\xa5\xa6\xa7\xa8\xa9\xaa\xab\xac\xad\xae+";

const OTHER_UID: [u8; 16] = *b"\x00\x00\x00\x00\x00\x00\x00\x00\x00\x00\x00\x00\x00\x00\x01+";

// What is enciphered, signed and booted, and what fills a buffer before a call, so that a write to it is seen.
const TEXT: u8 = 0xa5;

const FILLER: u8 = 0x5a;

// A block more than the most bytes that CBC takes, a MAC covers and a bootloader has.
const ROOM: usize = 65552;

// A number that a line hasn't.
const ABSENT: u64 = u64::MAX;

// Of 16 bytes, in the record.
const ROWS: u8 = 35;

// ---- answers

fn name_of<T>(answer: &Result<T, Refusal>) -> &'static str {
    match answer {
        Ok(_) => "NO_ERROR",
        Err(Refusal::SequenceError) => "SEQUENCE_ERROR",
        Err(Refusal::KeyNotAvailable) => "KEY_NOT_AVAILABLE",
        Err(Refusal::KeyInvalid) => "KEY_INVALID",
        Err(Refusal::KeyEmpty) => "KEY_EMPTY",
        Err(Refusal::NoSecureBoot) => "NO_SECURE_BOOT",
        Err(Refusal::KeyWriteProtected) => "KEY_WRITE_PROTECTED",
        Err(Refusal::KeyUpdateError) => "KEY_UPDATE_ERROR",
        Err(Refusal::RngSeed) => "RNG_SEED",
        Err(Refusal::GeneralError) => "GENERAL_ERROR",
    }
}

// ---- bytes

// Changes a bit, where there is one of this number.
fn flip(text: &mut [u8], bit: u64) {
    if let Some(byte) = text.get_mut((bit / 8) as usize) {
        *byte ^= 128 >> bit % 8;
    }
}

// The first n bytes, or all, to be written.
fn front_mut(bytes: &mut [u8], n: u64) -> &mut [u8] {
    let end = text::front_size(bytes, n);
    &mut bytes[..end]
}

fn is_filler(buffer: &[u8]) -> bool {
    buffer.iter().all(|byte| *byte == FILLER)
}

// A block with more after it, with a bit changed.
fn block_with(block: [u8; 16], bit: u64) -> [u8; 32] {
    let mut changed = [TEXT; 32];
    changed[..16].copy_from_slice(&block);
    flip(&mut changed, bit);
    changed
}

// The text, with a bit changed.
fn text_with(bit: u64) -> [u8; ROOM] {
    let mut text = [TEXT; ROOM];
    flip(&mut text, bit);
    text
}

// M1 to M5, each in its place.
fn parts_of(messages: &mut [u8; 112]) -> (&mut [u8], &mut [u8], &mut [u8], &mut [u8], &mut [u8]) {
    let (m1, after_1) = messages.split_at_mut(16);
    let (m2, after_2) = after_1.split_at_mut(32);
    let (m3, after_3) = after_2.split_at_mut(16);
    let (m4, m5) = after_3.split_at_mut(32);
    (m1, m2, m3, m4, m5)
}

// ---- reading

// A number with a digit more, of which the last four bits are its value. A number that would be too large begins anew.
fn with_digit(number: u64, digit: u8) -> u64 {
    let units = (digit % 16) as u64;
    if number < 0x1999999999999998 {
        10 * number + units
    } else {
        units
    }
}

// The numbers of a line. After the twelfth comes the first again.
fn numbers_of(line: &[u8]) -> [u64; 12] {
    let mut numbers = [ABSENT; 12];
    let groups = line
        .split(|c| !c.is_ascii_digit())
        .filter(|group| !group.is_empty());
    for (i, group) in groups.enumerate() {
        numbers[i % 12] = group
            .iter()
            .fold(numbers[i % 12], |number, c| with_digit(number, *c));
    }
    numbers
}

// The first four numbers of a line that has no more.
fn given(first: [u64; 4]) -> [u64; 12] {
    let mut n = [ABSENT; 12];
    n[..4].copy_from_slice(&first);
    n
}

// ---- writing

// Up to as many bytes as M1 to M5 have, which is the most that a line shows.
fn write_hex(mut out: Stdout, name: &str, bytes: &[u8]) -> io::Result<()> {
    let mut digits = [0u8; 224];
    let n = text::to_hex(bytes, &mut digits);
    write!(out, "{name}")?;
    out.write_all(text::front(&digits, n as u64))
}

fn write_answer<T: Copy>(mut out: Stdout, answer: &Result<T, Refusal>) -> io::Result<()> {
    let number = basics::answer_of(*answer);
    let name = name_of(answer);
    write!(out, ": {number} {name}")
}

// Whether all is as it was that a refusal, or a no, should leave.
fn write_kept(mut out: Stdout, kept: bool) -> io::Result<()> {
    let words = if kept { "nothing changed" } else { "CHANGED" };
    write!(out, ", {words}")
}

// ---- the record, in rows of 16 bytes: for each slot its key, and then counter, flags and empty mark; UID, seed, random state,
// random key, and the marks

fn slot_row(device: Device, slot: u8) -> [u8; 16] {
    let mut row = [0u8; 16];
    row[..4].copy_from_slice(&text::bytes_of(device.counter_at(slot)));
    row[4] = device.flags_at(slot);
    row[5] = basics::byte_at(&device.empty, slot as usize);
    row
}

fn row_of(device: Device, row: u8) -> [u8; 16] {
    match row {
        0..30 if row % 2 == 0 => device.key_at(row / 2),
        0..30 => slot_row(device, row / 2),
        30 => basics::block_at(&device.uid, 0),
        31 => device.seed,
        32 => device.state,
        33 => device.rngkey,
        34 => basics::block_at(&device.marks, 0),
        _ => [0; 16],
    }
}

fn write_rows(mut out: Stdout, device: Device, from: u8, to: u8) -> io::Result<()> {
    for row in from..to {
        write!(out, "row {row}")?;
        write_hex(out, ": ", &row_of(device, row))?;
        writeln!(out)?;
    }
    Ok(())
}

// What a row holds: its name, and those of its bytes that mean something.
fn write_field(mut out: Stdout, row: u8, bytes: &[u8; 16]) -> io::Result<()> {
    let slot = row / 2;
    match row {
        0..30 if row % 2 == 0 => {
            write!(out, ", key {slot}")?;
            write_hex(out, " ", bytes)
        }
        0..30 => {
            write!(out, ", slot {slot}")?;
            write_hex(out, " ", &bytes[..6])
        }
        30 => write_hex(out, ", UID ", &bytes[..15]),
        31 => write_hex(out, ", seed ", bytes),
        32 => write_hex(out, ", state ", bytes),
        33 => write_hex(out, ", random key ", bytes),
        _ => write_hex(out, ", marks ", &bytes[..11]),
    }
}

// The fields in which a device differs from the one before.
fn write_change(mut out: Stdout, before: Device, after: Device) -> io::Result<()> {
    if before == after {
        return write!(out, ", no change");
    }
    for row in 0..ROWS {
        let bytes = row_of(after, row);
        if bytes != row_of(before, row) {
            write_field(out, row, &bytes)?;
        }
    }
    Ok(())
}

// ---- commands that use the key of a slot

// Those that make an output of a text.
#[derive(Clone, Copy)]
enum Cipher {
    EncEcb,
    DecEcb,
    EncCbc,
    DecCbc,
    GenerateMac,
}

const CIPHERS: [Cipher; 5] = [
    Cipher::EncEcb,
    Cipher::DecEcb,
    Cipher::EncCbc,
    Cipher::DecCbc,
    Cipher::GenerateMac,
];

// A function of its own, so that the proof of the next one has no list of so many bytes in it.
fn filled() -> [u8; ROOM] {
    [FILLER; ROOM]
}

// What such a command left: the last block of its output, and whether all of that is as it was.
#[derive(Drop)]
struct Tried {
    answer: Result<(), Refusal>,
    clean: bool,
    block: [u8; 16],
}

impl Cipher {
    fn run(
        self,
        device: Device,
        n: [u64; 12],
        text: &[u8],
        output: &mut [u8],
    ) -> Result<(), Refusal> {
        let slot = text::byte_of(n[0]);
        let input = text::front(text, n[1]);
        let iv = text::front(text, n[3]);
        match self {
            Cipher::EncEcb => commands::enc_ecb(device, slot, input, output),
            Cipher::DecEcb => commands::dec_ecb(device, slot, input, output),
            Cipher::EncCbc => commands::enc_cbc(device, slot, iv, input, output),
            Cipher::DecCbc => commands::dec_cbc(device, slot, iv, input, output),
            Cipher::GenerateMac => commands::generate_mac(device, slot, n[3], input, output),
        }
    }

    fn tried(self, device: Device, n: [u64; 12]) -> Tried {
        let mut room = filled();
        let output = front_mut(&mut room, n[2]);
        let answer = self.run(device, n, &[TEXT; ROOM], output);
        Tried {
            answer,
            clean: is_filler(output),
            block: basics::block_at(text::last(output, 16), 0),
        }
    }
}

fn verified(device: Device, block: [u8; 16], n: [u64; 12]) -> Result<u8, Refusal> {
    let message = text_with(n[6]);
    let mac = block_with(block, n[5]);
    commands::verify_mac(
        device,
        text::byte_of(n[0]),
        n[3],
        text::front(&message, n[1]),
        text::front(&mac, n[2]),
        text::byte_of(n[4]),
    )
    .map(u8::from)
}

fn write_role<T: Copy>(mut out: Stdout, answer: &Result<T, Refusal>, kept: bool) -> io::Result<()> {
    let number = basics::answer_of(*answer);
    let words = if kept { "" } else { " CHANGED" };
    write!(out, " {number}{words}")
}

fn write_roles(mut out: Stdout, device: Device, to: u8) -> io::Result<()> {
    for slot in 0..to {
        let mut n = given([slot as u64, 16, 16, 16]);
        n[4] = 0;
        write!(out, "slot {slot}")?;
        for cipher in CIPHERS {
            let tried = cipher.tried(device, n);
            write_role(out, &tried.answer, tried.clean || tried.answer.is_ok())?;
        }
        write_role(out, &verified(device, [TEXT; 16], n), true)?;
        writeln!(out)?;
    }
    Ok(())
}

// ---- key messages

// The key that the cases give to a slot: one of unlike bytes, and another for each.
fn slot_key(slot: u8) -> [u8; 16] {
    aes::encrypt(basics::block_at(&SEED, 0), [slot; 16])
}

// The key under which the sender writes. It knows whether the authority is still empty.
fn sender_key(device: Device, authority: u8) -> [u8; 16] {
    if device.is_empty(authority) {
        [0xff; 16]
    } else if authority == device::SECRET_KEY {
        basics::block_at(&SECRET, 0)
    } else {
        slot_key(authority)
    }
}

fn uid_of(number: u64) -> [u8; 16] {
    match number {
        0 => [0; 16],
        2 => OTHER_UID,
        _ => UID,
    }
}

// 28 bits of counter, five flags, and zeros, with a bit changed.
fn first_block(counter: u64, flags: u64, bit: u64) -> [u8; 16] {
    let top = counter % 0x10000000 * 32 + flags % 32;
    let mut block = [0u8; 16];
    block[..8].copy_from_slice(&(top << 31).to_be_bytes());
    flip(&mut block, bit);
    block
}

// M2.
fn enciphered(authkey: [u8; 16], first: [u8; 16], key: [u8; 16]) -> [u8; 32] {
    let k1 = modes::derive(authkey, Constant::KeyUpdateEnc);
    let mut m2 = [0u8; 32];
    let _ = modes::cbc_encrypt(&k1, &[0u8; 16], [first, key].as_flattened(), &mut m2);
    m2
}

// M3.
fn signature(authkey: [u8; 16], signed: &[u8]) -> [u8; 16] {
    let k2 = modes::derive(authkey, Constant::KeyUpdateMac);
    let mut m3 = [0u8; 16];
    let _ = modes::cmac(&k2, 384, signed, &mut m3);
    m3
}

// The messages that a line asks for, without a bit of them changed. M1 to M3 are made by hand: the writer of key messages would
// refuse some of them.
fn written(device: Device, n: [u64; 12]) -> [u8; 112] {
    let target = text::byte_of(n[0]) % 16;
    let authority = text::byte_of(n[1]) % 16;
    let authkey = sender_key(device, authority);
    let first = first_block(n[2], n[3], n[5]);
    let mut messages = [0u8; 112];
    let (signed, after) = messages.split_at_mut(48);
    let (m1, m2) = signed.split_at_mut(16);
    m1.copy_from_slice(&uid_of(n[4]));
    m1[15] = 16 * target + authority;
    m2.copy_from_slice(&enciphered(authkey, first, slot_key(target)));
    after[..16].copy_from_slice(&signature(authkey, signed));
    messages
}

// LOAD_KEY of M1 to M3, which puts M4 and M5 behind them.
fn load(device: Device, messages: &mut [u8; 112], n: [u64; 12]) -> Result<Device, Refusal> {
    let (m1, m2, m3, m4, m5) = parts_of(messages);
    m4.fill(FILLER);
    m5.fill(FILLER);
    load::load_key(
        device,
        text::front(m1, n[7]),
        text::front(m2, n[8]),
        text::front(m3, n[9]),
        front_mut(m4, n[10]),
        front_mut(m5, n[11]),
    )
}

fn export(device: Device, messages: &mut [u8; 112], n: [u64; 12]) -> Result<(), Refusal> {
    let (m1, m2, m3, m4, m5) = parts_of(messages);
    load::export_ram_key(
        device,
        front_mut(m1, n[0]),
        front_mut(m2, n[1]),
        front_mut(m3, n[2]),
        front_mut(m4, n[3]),
        front_mut(m5, n[4]),
    )
}

fn write_pairs(mut out: Stdout, device: Device) -> io::Result<()> {
    for slots in 0..=255 {
        let target = message::target_of(slots) as u64;
        let authority = message::authority_of(slots) as u64;
        let n = given([target, authority, 2, 0]);
        if load(device, &mut written(device, n), n).is_ok() {
            write_hex(out, " ", &[slots])?;
        }
    }
    writeln!(out)
}

// ---- devices

fn made(n: [u64; 12]) -> Result<Device, Refusal> {
    let mut secret = SECRET;
    flip(&mut secret, n[4]);
    commands::make(
        text::front(&uid_of(n[0]), n[1]),
        text::front(&secret, n[2]),
        text::front(&SEED, n[3]),
    )
}

fn prepared(last: u8, flags: u64) -> Device {
    let mut device = made(given([1, 15, 16, 16])).unwrap_or(Device::blank());
    for slot in 1..=last {
        let n = given([slot as u64, 1, 1, flags]);
        device = load(device, &mut written(device, n), n).unwrap_or(device);
    }
    device
}

// The record with one byte or counter changed. A place past the end of a field is counted from its front again.
fn with_field(device: Device, field: u64, place: u64, value: u64) -> Device {
    let at = place as usize;
    let byte = text::byte_of(value);
    let mut after = device;
    match field {
        0 => after.keys[at % 240] = byte,
        1 => after.counters[at % 15] = (value % 0x100000000) as u32,
        2 => after.flags[at % 15] = byte,
        3 => after.empty[at % 15] = byte,
        4 => after.uid[at % 15] = byte,
        5 => after.seed[at % 16] = byte,
        6 => after.state[at % 16] = byte,
        7 => after.rngkey[at % 16] = byte,
        _ => after.marks[at % 11] = byte,
    }
    after
}

// ---- the book

// A mark for each slot, on where it is not empty, and one more for a wrong length. An empty mark that is neither on nor off gives
// another such.
fn held_marks(device: Device) -> [u8; 16] {
    let mut marks = [1u8; 16];
    for (mark, empty) in marks.iter_mut().zip(device.empty) {
        *mark ^= empty;
    }
    marks
}

// What the foreman is told of the device, which may be something else than it holds.
fn told(device: Device, n: [u64; 12]) -> Device {
    if n[4] == ABSENT {
        device
    } else {
        with_field(device, n[4], n[5], n[6])
    }
}

fn opened(device: Device, n: [u64; 12]) -> Result<Book, Refusal> {
    let mut keys = [0u8; 256];
    keys[..240].copy_from_slice(&device.keys);
    // Of slots 1 to 14, which is one more than the book has.
    let counters = &device.counters[1..];
    garage::open(
        text::front(&basics::block_at(&device.uid, 0), n[0]),
        text::front(&keys, n[1]),
        text::front(&held_marks(device), n[2]),
        counters.get(..n[3] as usize).unwrap_or(counters),
    )
}

fn posted(book: Book, messages: &mut [u8; 112], n: [u64; 12]) -> Result<Book, Refusal> {
    let (m1, m2, m3, _, _) = parts_of(messages);
    garage::write(
        book,
        text::word_of(n[0]),
        text::word_of(n[1]),
        text::word_of(n[2]),
        text::front(&slot_key(text::byte_of(n[0])), n[3]),
        front_mut(m1, n[4]),
        front_mut(m2, n[5]),
        front_mut(m3, n[6]),
    )
}

fn judged(book: Book, proof: &[u8; 48], n: [u64; 12]) -> Result<Option<Book>, Refusal> {
    let m4 = text::front(&proof[..32], n[2]);
    let m5 = text::front(&proof[32..], n[3]);
    garage::judge(book, text::word_of(n[0]), m4, m5)
}

// ---- lines

// What a line leaves to the next: the device, the book, the last M1 to M5, and the block that a cipher or GENERATE_MAC put out
// last.
#[derive(Drop)]
struct Bench {
    out: Stdout,
    device: Device,
    book: Book,
    messages: [u8; 112],
    block: [u8; 16],
}

impl Bench {
    // The end of the line of a command. What it put out is shown, or is to be as it was; one that may change the device gives the
    // one that it leaves.
    fn finish_with(
        &mut self,
        answer: Result<Option<Device>, Refusal>,
        clean: bool,
        shown: &[u8],
    ) -> io::Result<()> {
        write_answer(self.out, &answer)?;
        if answer.is_err() {
            write_kept(self.out, clean)?;
        } else if !shown.is_empty() {
            write_hex(self.out, ", ", shown)?;
        }
        match answer {
            Ok(Some(after)) => self.finish_new(after),
            _ => writeln!(self.out),
        }
    }

    // Of one that has no output besides the device.
    fn finish(&mut self, answer: Result<Device, Refusal>) -> io::Result<()> {
        self.finish_with(answer.map(Some), true, &[])
    }

    // Of one that gives a number.
    fn finish_number(&mut self, answer: Result<u8, Refusal>) -> io::Result<()> {
        write_answer(self.out, &answer)?;
        match answer {
            Ok(number) => write!(self.out, ", gives {number}")?,
            Err(_) => write!(self.out, ", gives 0, nothing changed")?,
        }
        writeln!(self.out)
    }

    // Of one that makes the device anew.
    fn finish_new(&mut self, device: Device) -> io::Result<()> {
        write_change(self.out, self.device, device)?;
        self.device = device;
        writeln!(self.out)
    }

    fn make(&mut self, n: [u64; 12]) -> io::Result<()> {
        let answer = made(n);
        write_answer(self.out, &answer)?;
        self.finish_new(answer.unwrap_or(Device::blank()))
    }

    fn prepare(&mut self, n: [u64; 12]) -> io::Result<()> {
        write!(self.out, ": made")?;
        self.finish_new(prepared(text::byte_of(n[0]), n[1]))
    }

    fn rnd(&mut self, n: [u64; 12]) -> io::Result<()> {
        let mut room = [FILLER; 32];
        let output = front_mut(&mut room, n[0]);
        let answer = commands::rnd(self.device, output);
        self.finish_with(answer.map(Some), is_filler(output), output)
    }

    fn load_plain_key(&mut self, n: [u64; 12]) -> io::Result<()> {
        let key = block_with(slot_key(text::byte_of(n[0])), ABSENT);
        self.finish(commands::load_plain_key(self.device, text::front(&key, n[1])))
    }

    fn secure_boot(&mut self, n: [u64; 12]) -> io::Result<()> {
        let bootloader = text_with(n[1]);
        self.finish(boot::secure_boot(self.device, text::front(&bootloader, n[0])))
    }

    fn get_status(&mut self) -> io::Result<()> {
        self.finish_number(commands::get_status(self.device))
    }

    fn get_id(&mut self, n: [u64; 12]) -> io::Result<()> {
        let mut room = [FILLER; 48];
        let output = front_mut(&mut room, n[1]);
        let answer = commands::get_id(self.device, text::front(&[TEXT; 32], n[0]), output);
        self.finish_with(answer.map(|()| None), is_filler(output), output)
    }

    fn use_slot(&mut self, cipher: Cipher, n: [u64; 12]) -> io::Result<()> {
        let tried = cipher.tried(self.device, n);
        self.block = tried.block;
        self.finish_with(tried.answer.map(|()| None), tried.clean, &tried.block)
    }

    // With no number the last messages are loaded again.
    fn load_key(&mut self, n: [u64; 12]) -> io::Result<()> {
        let mut messages = self.messages;
        if n[0] != ABSENT {
            messages = written(self.device, n);
            flip(&mut messages, n[6]);
        }
        let answer = load(self.device, &mut messages, n);
        self.messages = messages;
        let proof = &messages[64..];
        self.finish_with(answer.map(Some), is_filler(proof), proof)
    }

    fn export_ram_key(&mut self, n: [u64; 12]) -> io::Result<()> {
        let mut messages = [FILLER; 112];
        let answer = export(self.device, &mut messages, n);
        self.messages = messages;
        self.finish_with(answer.map(|()| None), is_filler(&messages), &messages)
    }

    fn open_book(&mut self, n: [u64; 12]) -> io::Result<()> {
        let answer = opened(told(self.device, n), n);
        write_answer(self.out, &answer)?;
        self.book = answer.unwrap_or(Book::blank());
        match answer {
            Ok(book) => write_hex(self.out, ", held ", &book.held)?,
            Err(_) => write!(self.out, ", blank book")?,
        }
        writeln!(self.out)
    }

    fn letter(&mut self, n: [u64; 12]) -> io::Result<()> {
        let mut messages = self.messages;
        let answer = posted(self.book, &mut messages, n);
        write_answer(self.out, &answer)?;
        match answer {
            Ok(book) => {
                let counter = basics::item_at(&book.newcounters, text::byte_of(n[0]) as usize, 0);
                write_hex(self.out, ", ", text::front(&messages, 64))?;
                write!(self.out, ", counter {counter}")?;
                self.book = book;
            }
            Err(_) => write_kept(self.out, messages == self.messages)?,
        }
        self.messages = messages;
        writeln!(self.out)
    }

    fn receipt(&mut self, n: [u64; 12]) -> io::Result<()> {
        let mut proof: [u8; 48] = self.messages[64..].try_into().unwrap();
        flip(&mut proof, n[1]);
        let answer = judged(self.book, &proof, n);
        write_answer(self.out, &answer)?;
        match answer {
            Ok(Some(book)) => {
                let slot = text::byte_of(n[0]) as usize;
                let held = basics::byte_at(&book.held, slot);
                let counter = basics::item_at(&book.counters, slot, 0);
                write!(self.out, ", gives 1, held {held}, counter {counter}")?;
                self.book = book;
            }
            _ => write!(self.out, ", gives 0, nothing changed")?,
        }
        writeln!(self.out)
    }

    // A line that is no command of the device or of the book.
    fn run_other(&mut self, name: &[u8], n: [u64; 12]) -> io::Result<()> {
        writeln!(self.out)?;
        match name {
            b"SET" => {
                self.device = with_field(self.device, n[0], n[1], n[2]);
                Ok(())
            }
            b"RECORD" => write_rows(
                self.out,
                self.device,
                text::byte_of(n[0]),
                text::byte_of(n[1]),
            ),
            b"ROLES" => write_roles(self.out, self.device, text::byte_of(n[0])),
            b"PAIRS" => write_pairs(self.out, self.device),
            _ => writeln!(self.out, "no such command"),
        }
    }

    fn run_command(&mut self, name: &[u8], n: [u64; 12]) -> io::Result<()> {
        match name {
            b"MAKE" => self.make(n),
            b"DEVICE" => self.prepare(n),
            b"RESET" => self.finish(commands::reset(self.device)),
            b"DEBUGGER" => self.finish(commands::attach_debugger(self.device)),
            b"INIT_RNG" => self.finish(commands::init_rng(self.device)),
            b"EXTEND_SEED" => self.finish(commands::extend_seed(
                self.device,
                text::front(&ENTROPY, n[0]),
            )),
            b"RND" => self.rnd(n),
            b"GET_STATUS" => self.get_status(),
            b"GET_ID" => self.get_id(n),
            b"SECURE_BOOT" => self.secure_boot(n),
            b"BOOT_FAILURE" => self.finish(boot::boot_failure(self.device)),
            b"BOOT_OK" => self.finish(boot::boot_ok(self.device)),
            b"LOAD_PLAIN_KEY" => self.load_plain_key(n),
            b"LOAD_KEY" => self.load_key(n),
            b"EXPORT_RAM_KEY" => self.export_ram_key(n),
            b"ENC_ECB" => self.use_slot(Cipher::EncEcb, n),
            b"DEC_ECB" => self.use_slot(Cipher::DecEcb, n),
            b"ENC_CBC" => self.use_slot(Cipher::EncCbc, n),
            b"DEC_CBC" => self.use_slot(Cipher::DecCbc, n),
            b"GENERATE_MAC" => self.use_slot(Cipher::GenerateMac, n),
            b"VERIFY_MAC" => self.finish_number(verified(self.device, self.block, n)),
            b"BOOK" => self.open_book(n),
            b"LETTER" => self.letter(n),
            b"RECEIPT" => self.receipt(n),
            _ => self.run_other(name, n),
        }
    }

    fn run_line(&mut self, line: &[u8]) -> io::Result<()> {
        self.out.write_all(line)?;
        match line {
            [] | [0 | b'#', ..] => writeln!(self.out),
            _ => self.run_command(text::before(line, b' '), numbers_of(line)),
        }
    }
}

fn run(out: Stdout, lines: &[u8]) -> io::Result<()> {
    let mut bench = Bench {
        out,
        device: Device::blank(),
        book: Book::blank(),
        messages: [0; 112],
        block: [0; 16],
    };
    for line in lines.split_inclusive(|c| *c == b'\n') {
        bench.run_line(text::before(line, b'\n'))?;
    }
    Ok(())
}

fn main(rt: HostRuntime) -> io::Result<()> {
    let mut input = ArrayVec::<u8, MOST>::new();
    io::copy(&mut rt.stdin().take(MOST as u64), &mut input)?;
    run(rt.stdout(), &input)
}
