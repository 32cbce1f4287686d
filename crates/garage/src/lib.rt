// The foreman's book about one bus: opened with what is known of the bus, it writes the key messages and judges the proofs that
// come back. The three calls take the book by value, and again in place; crate `garage_c` hands the latter to C.
//
// A book is plain data that anyone could have filled, so nothing in it is believed before `is_open`. Numbers come in as wide as C
// has them, and one that is too wide is the largest of its place and never its last digits: the promises are of the number as it
// came in. So target 0x11 is no target here.
#![tactic(auto)]

ghost use Rattle.std.specs.Prelude.{◌≡◌, cond, not, ◌∷◌, [], leb, length, get_or, replicate, true, IfOk};
ghost use Rattle.std.specs.Result.{result_unwrap_or};
ghost use Rattle.std.proofs.Math.Seq.{paste};
ghost use Rattle.laws.specs.All.{all};
ghost use Rattle.laws.specs.Lengths.{right_lengths};
ghost use Rattle.aes.specs.State.{byte};
ghost use Rattle.basics.specs.Answers.{general_error, answer_of, first_fault};
ghost use Rattle.basics.specs.Marks.{is_on};
ghost use Rattle.message.specs.FirstBlock.{max_counter};
ghost use Rattle.garage.specs.Book.{line_at, is_held, put_line, Shaped};
ghost use Rattle.garage.specs.Calls.{write_answer, writing, judge_answer, is_proof, taken, judging, judged};
ghost use Rattle.garage.specs.Open.{waiting_fine, line_fine, lines_fine, is_open, unwritten, blank, open_answer, held_keys, opening};
ghost use Rattle.garage.specs.Outcome.{outcome};
ghost use Rattle.garage.specs.Rules.{next_counter, secret_of, pair_answer};

use basics::{OFF, ON, Refusal, store, to_byte};
use message::{MAX_COUNTER, Update};
use std::array;

const SLOTS: u8 = 15;

const LAST_SLOT: u8 = 14;

// ---- the book

#[repr(C)]
#[derive(Clone, Copy, PartialEq, Eq)]
pub struct Book {
    // Sixteen bytes a slot: the key that is held, and the one that a waiting message brings.
    pub keys: [u8; 240],
    pub newkeys: [u8; 240],
    // For each slot its last counter, and the counter of the message that waits. Slots 0 and 14 have none.
    pub counters: [u32; 15],
    pub newcounters: [u32; 15],
    // Whether its key is held, whether a message waits for its proof, and by whose key that one was written.
    pub held: [u8; 15],
    pub waits: [u8; 15],
    pub authorities: [u8; 15],
    pub uid: [u8; 15],
    // The first is on in an open book. As many as fill the record up to a multiple of four, so that C sees no byte in it that
    // nothing settles.
    pub marks: [u8; 4],
}

// What the book says of one slot. (Public, as what is said of book and board together names it.)
#[derive(Clone, Copy, PartialEq, Eq)]
pub struct Line {
    pub key: [u8; 16],
    pub held: u8,
    pub counter: u32,
    pub waits: u8,
    pub authority: u8,
    pub newcounter: u32,
    pub newkey: [u8; 16],
}

// Whether each length is what stands beside it.
#[tactic(auto, using(crate::proofs::AllRight::right_decided))]
fn right_lengths(rows: &[(usize, usize)]) -> bool
    ensures { result ≡ right_lengths rows.now }
{
    rows.iter().all(|row| row.0 == row.1)
}

impl Book {
    // ---- lines

    // A slot that there isn't has a line of zeros.
    fn line_at(&self, slot: u8) -> Line
        ensures { result ≡ line_at self.now slot }
    {
        let n = slot as usize;
        Line {
            key: basics::block_at(&self.keys, slot),
            held: basics::byte_at(&self.held, n),
            counter: basics::item_at(&self.counters, n, 0),
            waits: basics::byte_at(&self.waits, n),
            authority: basics::byte_at(&self.authorities, n),
            newcounter: basics::item_at(&self.newcounters, n, 0),
            newkey: basics::block_at(&self.newkeys, slot),
        }
    }

    // Puts anew what the book says of one slot. A slot that there isn't changes nothing.
    #[tactic(auto, unfolding(crate::specs::Book::put_line))]
    fn put_line(&mut self, slot: u8, line: Line)
        ensures { self.new ≡ put_line slot line self.old }
    {
        if slot > LAST_SLOT {
            return;
        }
        let n = slot as usize;
        self.keys = basics::put_block(self.keys, slot, line.key);
        self.newkeys = basics::put_block(self.newkeys, slot, line.newkey);
        self.counters[n] = line.counter;
        self.newcounters[n] = line.newcounter;
        self.held[n] = line.held;
        self.waits[n] = line.waits;
        self.authorities[n] = line.authority;
    }

    fn is_held(&self, slot: u8) -> bool
        ensures { result ≡ is_held self.now slot }
    {
        basics::byte_at(&self.held, slot as usize) == ON
    }

    // ---- rules

    // What a message is written under: the authority's key, or what an empty slot counts as.
    #[tactic(auto, unfolding(crate::specs::Rules::secret_of))]
    fn secret_of(&self, authority: u8) -> [u8; 16]
        ensures { result ≡ secret_of self.now authority }
    {
        if self.is_held(authority) {
            basics::block_at(&self.keys, authority)
        } else {
            [0xffu8; 16]
        }
    }

    // The counter of a new message for a target by an authority, or why there can be none.
    #[tactic(auto, using(crate::proofs::Next::next_laws), unfolding(crate::specs::Rules::pair_answer, crate::specs::Rules::next_counter))]
    fn counter_for(&self, target: u8, authority: u8) -> Result<u32, Refusal>
        ensures answer { answer_of result ≡ pair_answer self.now target authority }
        ensures counter { IfOk result (λ counter. counter ≡ next_counter self.now target) }
    {
        if !message::is_allowed(target, authority) {
            return Err(Refusal::KeyInvalid);
        }
        if !self.is_held(authority) & (authority != target) {
            return Err(Refusal::KeyEmpty);
        }
        // A last counter that no next one fits after is past the largest too.
        let next = basics::item_at(&self.counters, target as usize, 0).saturating_add(1);
        let counter = message::counter_kept(target, next);
        if counter > MAX_COUNTER {
            return Err(Refusal::KeyUpdateError);
        }
        Ok(counter)
    }

    // ---- open

    // What a line may say of a message: nothing where none waits, and else one that could be written now, with the same counter.
    #[tactic(auto, unfolding(crate::specs::Open::waiting_fine))]
    fn waiting_fine(&self, slot: u8, line: &Line) -> bool
        ensures { result ≡ waiting_fine self.now slot line.now }
    {
        if line.waits != ON {
            let none = basics::is_same(&line.newkey, &[0u8; 16]);
            return (line.authority == 0) & (line.newcounter == 0) & none;
        }
        self.counter_for(slot, line.authority)
            .is_ok_and(|counter| line.newcounter == counter)
    }

    #[tactic(auto, unfolding(crate::specs::Open::line_fine))]
    fn line_fine(&self, slot: u8) -> bool
        ensures { result ≡ line_fine self.now slot (line_at self.now slot) }
    {
        let line = self.line_at(slot);
        let counted = line.counter <= message::counter_kept(slot, MAX_COUNTER);
        let marked = (line.held <= ON) & (line.waits <= ON);
        let none = basics::is_same(&line.key, &[0u8; 16]);
        let waiting = self.waiting_fine(slot, &line);
        counted & (marked & ((line.held == ON) | none) & waiting)
    }

    fn lines_fine(&self) -> bool
        ensures { result ≡ lines_fine self.now }
    {
        (0..SLOTS).all(|slot| self.line_fine(slot))
    }

    // Whether a book is one that opening and the calls can have left. That every book has the shape which theorems ask of it is
    // promised here too.
    #[tactic(auto, unfolding(crate::specs::Open::is_open))]
    pub fn is_open(&self) -> bool
        ensures value { result ≡ is_open self.now }
        ensures shaped { Shaped self.now }
    {
        let marked = basics::is_same(&self.marks, &[ON, OFF, OFF, OFF]);
        let named = !basics::is_same(&self.uid, &[0u8; 15]);
        marked & named & self.lines_fine()
    }

    // A book in which nothing waits.
    fn unwritten(
        uid: [u8; 15],
        keys: [u8; 240],
        held: [u8; 15],
        counters: [u32; 15],
        marks: [u8; 4],
    ) -> Book
        ensures { result ≡ unwritten uid keys held counters marks }
    {
        Book {
            keys,
            newkeys: [0; 240],
            counters,
            newcounters: [0; 15],
            held,
            waits: [OFF; 15],
            authorities: [0; 15],
            uid,
            marks,
        }
    }

    // All zero, and not open: what is kept where opening is refused.
    pub fn blank() -> Book
        ensures { result ≡ blank }
    {
        Book::unwritten([0; 15], [0; 240], [OFF; 15], [0; 15], [OFF; 4])
    }

    // ---- what the calls check, in their order

    // That the book is open, and then the lengths of what was lent.
    fn check(&self, lengths: bool) -> Result<(), Refusal>
        ensures { answer_of result ≡ first_fault ((not (is_open self.now), general_error) ∷ (not lengths, general_error) ∷ []) }
    {
        if !(self.is_open() & lengths) {
            return Err(Refusal::GeneralError);
        }
        Ok(())
    }

    #[tactic(auto, using(basics::proofs::Faults::two_refuse, basics::proofs::Faults::two_pass), unfolding(crate::specs::Calls::write_answer, crate::specs::Rules::pair_answer))]
    fn check_write(
        &self,
        lengths: bool,
        flags: u8,
        target: u8,
        authority: u8,
    ) -> Result<u32, Refusal>
        ensures answer { answer_of result ≡ write_answer self.now lengths flags target authority }
        ensures counter { IfOk result (λ counter. counter ≡ next_counter self.now target) }
    {
        self.check(lengths)?;
        if flags > message::ALL_FLAGS {
            return Err(Refusal::GeneralError);
        }
        self.counter_for(target, authority)
    }

    #[tactic(auto, using(basics::proofs::Faults::two_refuse, basics::proofs::Faults::two_pass), unfolding(crate::specs::Calls::judge_answer))]
    fn check_judge(&self, lengths: bool, target: u32) -> Result<(), Refusal>
        ensures { answer_of result ≡ judge_answer self.now lengths target }
    {
        self.check(lengths)?;
        if !(1..=LAST_SLOT as u32).contains(&target) {
            return Err(Refusal::KeyInvalid);
        }
        Ok(())
    }

    // ---- proofs

    // Whether these are the M4 and M5 of the message that waits for a target. All bytes are looked at.
    #[tactic(auto, using(crate::proofs::Called::waiting_proof), unfolding(crate::specs::Calls::is_proof))]
    fn is_proof(&self, target: u8, fourth: &[u8], fifth: &[u8]) -> bool
        requires { is_open self.now ≡ true }
        ensures { result ≡ is_proof self.now target fourth.now fifth.now }
    {
        let line = self.line_at(target);
        if line.waits != ON {
            return false;
        }
        let mut m4 = [0u8; 32];
        let mut m5 = [0u8; 16];
        message::write_proof(
            &self.uid,
            target,
            line.authority,
            line.newcounter,
            &line.newkey,
            &mut m4,
            &mut m5,
        )
        .unwrap();
        let same4 = basics::is_same(fourth, &m4);
        let same5 = basics::is_same(fifth, &m5);
        same4 & same5
    }

    // The book after a yes: key and counter of what waited are in it, and nothing waits.
    fn take(&mut self, target: u8)
        ensures { self.new ≡ taken self.old target }
    {
        let line = self.line_at(target);
        // By itself: an array that goes from one record right into another gets no proof.
        let key = line.newkey;
        self.put_line(
            target,
            Line {
                key,
                held: ON,
                counter: line.newcounter,
                waits: OFF,
                authority: 0,
                newcounter: 0,
                newkey: [0; 16],
            },
        );
    }
}

// ---- opening

#[tactic(auto, using(laws::proofs::AllOf::all_decided))]
fn are_counters(counters: &[u32]) -> bool
    ensures { result ≡ all (length counters.now) (λ i. leb (get_or counters.now i 0) max_counter) }
{
    counters.iter().all(|counter| *counter <= MAX_COUNTER)
}

#[tactic(auto, using(crate::proofs::Called::long_of), unfolding(crate::specs::Open::open_answer))]
fn check_open(uid: &[u8], keys: &[u8], held: &[u8], counters: &[u32]) -> Result<(), Refusal>
    ensures { answer_of result ≡ open_answer uid.now keys.now held.now counters.now }
{
    let lengths = right_lengths(&[
        (uid.len(), 15),
        (keys.len(), 240),
        (held.len(), 15),
        (counters.len(), 13),
    ]);
    if !lengths {
        return Err(Refusal::GeneralError);
    }
    if basics::is_same(uid, &[0u8; 15]) {
        return Err(Refusal::GeneralError);
    }
    if !basics::are_marks(held) {
        return Err(Refusal::GeneralError);
    }
    if !are_counters(counters) {
        return Err(Refusal::GeneralError);
    }
    Ok(())
}

// A byte of a key as the book keeps it.
fn where_held(mark: u8, byte: u8) -> u8
    ensures { result ≡ cond (is_on mark) byte 0 }
{
    if mark == ON { byte } else { 0 }
}

// The keys that are held, each in its place, and zeros in the place of any other.
fn held_keys(keys: &[u8], held: &[u8]) -> [u8; 240]
    ensures { result ≡ held_keys keys.now held.now }
{
    array::from_fn(|i| where_held(basics::byte_at(held, i / 16), basics::byte_at(keys, i)))
}

// The counters of slots 1 to 13, each in its place.
fn counters_by_slot(counters: &[u32]) -> [u32; 15]
    requires { length counters.now ≡ 13 }
    ensures { result ≡ paste (replicate 15 0) 1 counters.now 13 }
{
    let mut store = [0u32; 15];
    store[1..14].copy_from_slice(counters);
    store
}

// A book for the bus of this UID: the keys of slots 0 to 14 with a mark for each, on where it is held, and the last counters of
// slots 1 to 13. Where it is refused, what is to be kept is the blank book.
#[tactic(auto, using(crate::proofs::Called::opening_laws))]
pub fn open(uid: &[u8], keys: &[u8], held: &[u8], counters: &[u32]) -> Result<Book, Refusal>
    ensures { outcome (answer_of result) (result_unwrap_or result blank) 0 [] ≡ opening uid.now keys.now held.now counters.now }
{
    check_open(uid, keys, held, counters)?;
    Ok(Book::unwritten(
        uid.try_into().unwrap(),
        held_keys(keys, held),
        held.try_into().unwrap(),
        counters_by_slot(counters),
        [ON, OFF, OFF, OFF],
    ))
}

// ---- writing

// M1 to M3 for the bus of this book, with the next counter of the target. The message waits for its proof then, in place of one
// that waited.
#[tactic(auto, using(crate::proofs::Called::writing_laws), unfolding(crate::specs::Outcome::by_answer))]
pub fn write(
    mut book: Book,
    target: u32,
    authority: u32,
    flags: u32,
    newkey: &[u8],
    m1: &mut [u8],
    m2: &mut [u8],
    m3: &mut [u8],
) -> Result<Book, Refusal>
    ensures { outcome (answer_of result) (result_unwrap_or result book) 0 (m1.new ∷ m2.new ∷ m3.new ∷ []) ≡ writing book target authority flags newkey.now m1.old m2.old m3.old }
{
    let lengths = right_lengths(&[
        (newkey.len(), 16),
        (m1.len(), 16),
        (m2.len(), 32),
        (m3.len(), 16),
    ]);
    let slot = to_byte(target);
    let by = to_byte(authority);
    let few = to_byte(flags);
    let counter = book.check_write(lengths, few, slot, by)?;
    let secret = book.secret_of(by);
    let update = Update {
        uid: &book.uid,
        target: slot,
        authority: by,
        authkey: &secret,
        counter,
        flags: few,
        key: newkey,
    };
    update.write(m1, m2, m3).unwrap();
    let mut line = book.line_at(slot);
    line.waits = ON;
    line.authority = by;
    line.newcounter = counter;
    line.newkey = basics::block_at(newkey, 0);
    book.put_line(slot, line);
    Ok(book)
}

// ---- judging

// Whether M4 and M5 prove that the bus has taken the message that waits for a target: where they do, the book after it.
#[tactic(auto, using(crate::proofs::Called::judging_laws))]
pub fn judge(mut book: Book, target: u32, m4: &[u8], m5: &[u8]) -> Result<Option<Book>, Refusal>
    ensures { judged book result ≡ judging book target m4.now m5.now }
{
    let lengths = right_lengths(&[(m4.len(), 32), (m5.len(), 16)]);
    book.check_judge(lengths, target)?;
    let slot = to_byte(target);
    if !book.is_proof(slot, m4, m5) {
        return Ok(None);
    }
    book.take(slot);
    Ok(Some(book))
}

// ---- the same with the book in place

// Stores what a judgement hands back, and answers: a yes brings the book after it, and a no or a refusal leaves the book.
fn settle(book: &mut Book, reply: Result<Option<Book>, Refusal>, verdict: &mut u8) -> u8
    ensures { outcome result book.new verdict.new [] ≡ judged book.old reply }
{
    *verdict = matches!(reply, Ok(Some(_))) as u8;
    store(book, reply.map(|taken| taken.unwrap_or(*book)))
}

pub fn garage_open(book: &mut Book, uid: &[u8], keys: &[u8], held: &[u8], counters: &[u32]) -> u8
    ensures { outcome result book.new 0 [] ≡ opening uid.now keys.now held.now counters.now }
{
    // What the record held before counts for nothing.
    *book = Book::blank();
    store(book, open(uid, keys, held, counters))
}

pub fn garage_write(
    book: &mut Book,
    target: u32,
    authority: u32,
    flags: u32,
    newkey: &[u8],
    m1: &mut [u8],
    m2: &mut [u8],
    m3: &mut [u8],
) -> u8
    ensures { outcome result book.new 0 (m1.new ∷ m2.new ∷ m3.new ∷ []) ≡ writing book.old target authority flags newkey.now m1.old m2.old m3.old }
{
    store(
        book,
        write(*book, target, authority, flags, newkey, m1, m2, m3),
    )
}

pub fn garage_judge(book: &mut Book, target: u32, m4: &[u8], m5: &[u8], verdict: &mut u8) -> u8
    ensures { outcome result book.new verdict.new [] ≡ judging book.old target m4.now m5.now }
{
    settle(book, judge(*book, target, m4, m5), verdict)
}
