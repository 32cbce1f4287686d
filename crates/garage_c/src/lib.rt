// What C calls of the foreman's book: the three calls in place of `garage`, with their promises. `include/garage.h` declares them.
#![tactic(auto)]

ghost use Rattle.std.specs.Prelude.{◌≡◌, ◌∷◌, []};
ghost use Rattle.garage.specs.Calls.{writing, judging};
ghost use Rattle.garage.specs.Open.{opening};
ghost use Rattle.garage.specs.Outcome.{outcome};

use garage::Book;

#[unsafe(no_mangle)]
pub extern "C" fn garage_open(
    book: &mut Book,
    uid: &[u8],
    keys: &[u8],
    held: &[u8],
    counters: &[u32],
) -> u8
    ensures { outcome result book.new 0 [] ≡ opening uid.now keys.now held.now counters.now }
{
    garage::garage_open(book, uid, keys, held, counters)
}

#[unsafe(no_mangle)]
pub extern "C" fn garage_write(
    book: &mut Book,
    target: u32,
    authority: u32,
    flags: u32,
    newkey: &[u8],
    m1: &mut [u8],
    m2: &mut [u8],
    m3: &mut [u8],
) -> u8
    ensures { outcome result book.new 0 (m1.new ∷ m2.new ∷ m3.new ∷ []) ≡ writing book.old target authority flags newkey.now m1.old m2.old m3.old }
{
    garage::garage_write(book, target, authority, flags, newkey, m1, m2, m3)
}

#[unsafe(no_mangle)]
pub extern "C" fn garage_judge(
    book: &mut Book,
    target: u32,
    m4: &[u8],
    m5: &[u8],
    verdict: &mut u8,
) -> u8
    ensures { outcome result book.new verdict.new [] ≡ judging book.old target m4.now m5.now }
{
    garage::garage_judge(book, target, m4, m5, verdict)
}
