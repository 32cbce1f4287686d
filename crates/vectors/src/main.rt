// Runs vectors through the proved routines and writes what comes out, for the gate to compare with what was published.
//
// A line of the input is a letter that names the routine, and then its operands in hexadecimal with a slash between two of
// them, and spaces wherever one likes. A line that starts with # is a heading, and is written as it is. So a vector is added as
// data: a line of stdin, and in stdout the lines that it must give. Bytes are written 16 a line.
//
//     K key                            the key schedule
//     E key / block                    the block enciphered
//     D key / block                    the block deciphered
//     S key                            the two subkeys of CMAC
//     N key / number                   the key derived with the constant of this number, 1 to 5
//     X seed / entropy                 the seed extended
//
// The routines on lent buffers take operands of any length. The last is the buffer for the result; it is written as the
// routine leaves it, after the answer.
//
//     e key / block / output           ECB
//     d key / block / output           ECB, back
//     C key / iv / text / output       CBC
//     c key / iv / text / output       CBC, back
//     L key / iv / block / count       CBC of a text that is so many times the block; the output is as long, begins as the
//                                      text, and only its last block is written
//     M key / bits / message / output  CMAC of the first bits of the message, their number in up to 8 bytes
//     R key / bits / block / count / output    the same, of a message that is so many times the block
//     H state / text / output          the compression carried on from a state
//     F key / constant / output        KDF
//
// Key messages, with numbers in up to 8 bytes; a number that is too large for its parameter is taken as the largest there is.
// The writer leaves an answer and M1, M2, M3, or M4 and M5.
//
//     W uid / target / authority / authkey / counter / flags / key / m1 / m2 / m3  the full form
//     w the same                       the short form, which has no flags
//     f the same                       the fleet sheet, which has no uid and no flags
//     A uid / target / authority / counter / key / m4 / m5    the proof that the key was taken
//     O authkey / m1 / m2 / m3         opened: whether M3 is right, counter, flags, whether the filler is zero, key
//     P target / authority             the target's kind, its three roles, the flags that it keeps, 1 as it keeps a counter;
//                                      whether the pair is allowed
//     B byte                           target and authority of a slot byte
#![tactic(auto)]

use arrayvec::ArrayVec;
use basics::Refusal;
use message::{Contents, Update};
use modes::Constant;
use std::io::{Read, Stdout, Write};
use std::{array, io};

// How much of the input is read.
const MOST: usize = 65536;

// How many bytes an operand can have: one of a routine on lent buffers, and one of a key message.
const ROOM: usize = 8192;

const MESSAGE_ROOM: usize = 64;

// How many bytes a block makes that is repeated, 4100 times.
const REPEATED: usize = 65600;

// Where a vector is written, and the text of its line after the letter: operands with a slash between two of them. An operand
// that it hasn't is empty.
#[derive(Clone, Copy)]
struct Vector<'a> {
    out: Stdout,
    operands: &'a [u8],
}

// ---- operands

impl<'a> Vector<'a> {
    fn text(self, n: usize) -> &'a [u8] {
        let left = (0..n).fold(self.operands, |left, _| text::after(left, b'/'));
        text::before(left, b'/')
    }

    // The bytes of an operand, as far as there is room for them: the front of the room that is lent.
    fn bytes(self, n: usize, room: &mut [u8]) -> &mut [u8] {
        let digits = text::from_hex(self.text(n), room);
        let end = text::front_size(room, digits as u64 / 2);
        &mut room[..end]
    }

    // An operand that has 16 bytes, no more and no fewer.
    fn block(self, n: usize) -> Option<[u8; 16]> {
        let mut bytes = [0u8; 16];
        let digits = text::from_hex(self.text(n), &mut bytes);
        (digits == 32).then_some(bytes)
    }

    // A number of up to 8 bytes, the most significant first.
    fn number(self, n: usize) -> u64 {
        self.bytes(n, &mut [0u8; 8])
            .iter()
            .fold(0, |value, byte| value << 8 ^ *byte as u64)
    }

    // How many bytes a block has that is repeated as often as operand 3 says.
    fn size(self) -> u64 {
        16 * self.number(3).min(4100)
    }

    fn byte(self, n: usize) -> u8 {
        text::byte_of(self.number(n))
    }

    fn word(self, n: usize) -> u32 {
        text::word_of(self.number(n))
    }
}

// ---- writing

impl Vector<'_> {
    // Up to sixteen bytes as a line.
    fn write_row(mut self, row: &[u8]) -> io::Result<()> {
        let mut line = [b'\n'; 33];
        let n = text::to_hex(row, &mut line);
        self.out.write_all(text::front(&line, n as u64 + 1))
    }

    fn write_bytes(self, bytes: &[u8]) -> io::Result<()> {
        for row in bytes.chunks(16) {
            self.write_row(row)?;
        }
        Ok(())
    }

    // The answer of a routine on lent buffers, and its buffer.
    fn write_outcome(self, answer: Result<(), Refusal>, output: &[u8]) -> io::Result<()> {
        self.write_bytes(&[basics::answer_of(answer)])?;
        self.write_bytes(output)
    }

    fn no_such_vector(mut self) -> io::Result<()> {
        writeln!(self.out, "no such vector")
    }
}

// ---- the routines on blocks

fn constant(number: u64) -> Option<Constant> {
    match number {
        1 => Some(Constant::KeyUpdateEnc),
        2 => Some(Constant::KeyUpdateMac),
        3 => Some(Constant::DebugKey),
        4 => Some(Constant::PrngKey),
        5 => Some(Constant::PrngSeedKey),
        _ => None,
    }
}

impl Vector<'_> {
    fn schedule(self) -> io::Result<()> {
        let Some(key) = self.block(0) else {
            return self.no_such_vector();
        };
        self.write_bytes(&aes::expand_key(key))
    }

    fn subkeys(self) -> io::Result<()> {
        let Some(key) = self.block(0) else {
            return self.no_such_vector();
        };
        let w = aes::expand_key(key);
        self.write_bytes(&modes::subkey_1(&w))?;
        self.write_bytes(&modes::subkey_2(&w))
    }

    // What takes two blocks: enciphering, deciphering, and the extension of a seed.
    fn of_two_blocks<F: Fn([u8; 16], [u8; 16]) -> [u8; 16]>(self, routine: F) -> io::Result<()>
        requires { F.IsAlwaysCallable routine }
    {
        let (Some(a), Some(b)) = (self.block(0), self.block(1)) else {
            return self.no_such_vector();
        };
        self.write_bytes(&routine(a, b))
    }

    fn derived(self) -> io::Result<()> {
        let (Some(key), Some(name)) = (self.block(0), constant(self.number(1))) else {
            return self.no_such_vector();
        };
        self.write_bytes(&modes::derive(key, name))
    }
}

// ---- the routines on lent buffers

// A text of one block again and again, as many as there is room for.
fn repeated(block: [u8; 16]) -> [u8; REPEATED] {
    array::from_fn(|i| block[i % 16])
}

impl Vector<'_> {
    fn of_three_buffers<F: Fn(&[u8], &[u8], &mut [u8]) -> Result<(), Refusal>>(
        self,
        routine: F,
    ) -> io::Result<()>
        requires { F.IsAlwaysCallable routine }
    {
        let (mut a, mut b, mut c) = ([0u8; ROOM], [0u8; ROOM], [0u8; ROOM]);
        let output = self.bytes(2, &mut c);
        let answer = routine(self.bytes(0, &mut a), self.bytes(1, &mut b), output);
        self.write_outcome(answer, output)
    }

    fn cbc<F: Fn(&[u8], &[u8], &[u8], &mut [u8]) -> Result<(), Refusal>>(
        self,
        routine: F,
    ) -> io::Result<()>
        requires { F.IsAlwaysCallable routine }
    {
        let (mut a, mut b, mut c, mut d) = ([0u8; ROOM], [0u8; ROOM], [0u8; ROOM], [0u8; ROOM]);
        let key = self.bytes(0, &mut a);
        let iv = self.bytes(1, &mut b);
        let input = self.bytes(2, &mut c);
        let output = self.bytes(3, &mut d);
        let answer = routine(key, iv, input, output);
        self.write_outcome(answer, output)
    }

    fn cbc_repeated(self) -> io::Result<()> {
        let Some(block) = self.block(2) else {
            return self.no_such_vector();
        };
        let (mut a, mut b) = ([0u8; ROOM], [0u8; ROOM]);
        let key = self.bytes(0, &mut a);
        let iv = self.bytes(1, &mut b);
        let input = repeated(block);
        let mut room = repeated(block);
        let end = text::front_size(&room, self.size());
        let output = &mut room[..end];
        let answer = modes::cbc_encrypt(key, iv, &input[..end], output);
        self.write_outcome(answer, text::last(output, 16))
    }

    // The key and the output are operands 0 and `last`, the message is lent.
    fn mac(self, last: usize, message: &[u8]) -> io::Result<()> {
        let (mut a, mut b) = ([0u8; ROOM], [0u8; ROOM]);
        let output = self.bytes(last, &mut b);
        let answer = modes::cmac(self.bytes(0, &mut a), self.number(1), message, output);
        self.write_outcome(answer, output)
    }

    fn cmac(self) -> io::Result<()> {
        self.mac(3, self.bytes(2, &mut [0u8; ROOM]))
    }

    fn cmac_repeated(self) -> io::Result<()> {
        let Some(block) = self.block(2) else {
            return self.no_such_vector();
        };
        self.mac(4, text::front(&repeated(block), self.size()))
    }
}

// ---- key messages

fn full_form(u: &Update, m1: &mut [u8], m2: &mut [u8], m3: &mut [u8]) -> Result<(), Refusal> {
    u.write(m1, m2, m3)
}

fn short_form(u: &Update, m1: &mut [u8], m2: &mut [u8], m3: &mut [u8]) -> Result<(), Refusal> {
    message::write_key_short(
        u.uid,
        u.target,
        u.authority,
        u.authkey,
        u.counter,
        u.key,
        m1,
        m2,
        m3,
    )
}

fn fleet_sheet(u: &Update, m1: &mut [u8], m2: &mut [u8], m3: &mut [u8]) -> Result<(), Refusal> {
    message::fleet_sheet(
        u.target,
        u.authority,
        u.authkey,
        u.counter,
        u.key,
        m1,
        m2,
        m3,
    )
}

impl Vector<'_> {
    // The three forms of the writer, with the buffers for the messages lent.
    fn messages<F: Fn(&Update, &mut [u8], &mut [u8], &mut [u8]) -> Result<(), Refusal>>(
        self,
        writer: F,
    ) -> io::Result<()>
        requires { F.IsAlwaysCallable writer }
    {
        let [mut u, mut a, mut k, mut first, mut second, mut third] = [[0u8; MESSAGE_ROOM]; 6];
        let m1 = self.bytes(7, &mut first);
        let m2 = self.bytes(8, &mut second);
        let m3 = self.bytes(9, &mut third);
        let update = Update {
            uid: self.bytes(0, &mut u),
            target: self.byte(1),
            authority: self.byte(2),
            authkey: self.bytes(3, &mut a),
            counter: self.word(4),
            flags: self.byte(5),
            key: self.bytes(6, &mut k),
        };
        let answer = writer(&update, m1, m2, m3);
        self.write_outcome(answer, m1)?;
        self.write_bytes(m2)?;
        self.write_bytes(m3)
    }

    fn proof(self) -> io::Result<()> {
        let [mut u, mut k, mut fourth, mut fifth] = [[0u8; MESSAGE_ROOM]; 4];
        let m4 = self.bytes(5, &mut fourth);
        let m5 = self.bytes(6, &mut fifth);
        let answer = message::write_proof(
            self.bytes(0, &mut u),
            self.byte(1),
            self.byte(2),
            self.word(3),
            self.bytes(4, &mut k),
            m4,
            m5,
        );
        self.write_outcome(answer, m4)?;
        self.write_bytes(m5)
    }

    fn open(self) -> io::Result<()> {
        let [mut a, mut first, mut second, mut third] = [[0u8; MESSAGE_ROOM]; 4];
        let opened = message::open(
            self.bytes(0, &mut a),
            self.bytes(1, &mut first),
            self.bytes(2, &mut second),
            self.bytes(3, &mut third),
        );
        self.write_bytes(&[opened.is_some() as u8])?;
        // What M3 does not vouch for is written as zeros.
        let contents = opened.unwrap_or_default();
        self.write_bytes(&text::bytes_of(contents.counter))?;
        self.write_bytes(&[contents.flags, contents.zerofill as u8])?;
        self.write_bytes(&contents.key)
    }

    fn slots(self) -> io::Result<()> {
        let target = self.byte(0);
        self.write_bytes(&[
            // A kind is written by its place among the kinds.
            message::Kind::from(target) as u8,
            message::has_role(target, message::Role::Cipher) as u8,
            message::has_role(target, message::Role::GenerateMac) as u8,
            message::has_role(target, message::Role::VerifyMac) as u8,
            message::flags_kept(target),
            (message::counter_kept(target, 1) % 256) as u8,
            message::is_allowed(target, self.byte(1)) as u8,
        ])
    }

    fn slot_byte(self) -> io::Result<()> {
        let byte = self.byte(0);
        self.write_bytes(&[message::target_of(byte), message::authority_of(byte)])
    }
}

// ---- lines

fn run_line(mut out: Stdout, line: &[u8]) -> io::Result<()> {
    let (routine, vector) = match line {
        [] | [b'#', ..] => {
            out.write_all(line)?;
            return writeln!(out);
        }
        [routine, operands @ ..] => (*routine, Vector { out, operands }),
    };
    match routine {
        b'K' => vector.schedule(),
        b'S' => vector.subkeys(),
        b'N' => vector.derived(),
        b'E' => vector.of_two_blocks(aes::encrypt),
        b'D' => vector.of_two_blocks(aes::decrypt),
        b'X' => vector.of_two_blocks(modes::extend),
        b'e' => vector.of_three_buffers(modes::ecb_encrypt),
        b'd' => vector.of_three_buffers(modes::ecb_decrypt),
        b'H' => vector.of_three_buffers(modes::compress),
        b'F' => vector.of_three_buffers(modes::kdf),
        b'C' => vector.cbc(modes::cbc_encrypt),
        b'c' => vector.cbc(modes::cbc_decrypt),
        b'L' => vector.cbc_repeated(),
        b'M' => vector.cmac(),
        b'R' => vector.cmac_repeated(),
        b'W' => vector.messages(full_form),
        b'w' => vector.messages(short_form),
        b'f' => vector.messages(fleet_sheet),
        b'A' => vector.proof(),
        b'O' => vector.open(),
        b'P' => vector.slots(),
        b'B' => vector.slot_byte(),
        _ => vector.no_such_vector(),
    }
}

fn run(out: Stdout, lines: &[u8]) -> io::Result<()> {
    for line in lines.split_inclusive(|c| *c == b'\n') {
        run_line(out, text::before(line, b'\n'))?;
    }
    Ok(())
}

fn main(rt: HostRuntime) -> io::Result<()> {
    let mut input = ArrayVec::<u8, MOST>::new();
    io::copy(&mut rt.stdin().take(MOST as u64), &mut input)?;
    run(rt.stdout(), &input)
}
