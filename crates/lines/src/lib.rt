// Text put behind what a vector of bytes holds. Whoever calls shows that there is room, so that nothing is ever cut. A write by std's fmt
// may fail, for all that its contract says; none of these does.
#![tactic(auto)]

ghost use Rattle.std.specs.Prelude.{◌++◌, ◌∷◌, [], ◌+◌, ◌≤◌, ◌<◌, length};
ghost use Rattle.lines.specs.Text.{ascii, decimal, hexadecimal, Adds};

use arrayvec::ArrayVec;

pub fn put_text<const N: usize>(out: &mut ArrayVec<u8, N>, text: &[u8])
    requires { length out.old.items + length text.now ≤ N }
    ensures { Adds out.old.items text.now (length text.now) out.new.items }
{
    out.try_extend_from_slice(text).unwrap();
}

// Text and the byte that ends it.
fn put_ended<const N: usize>(out: &mut ArrayVec<u8, N>, text: &[u8], end: u8)
    requires { length out.old.items + length text.now < N }
    ensures { Adds out.old.items (text.now ++ (end ∷ [])) (length text.now + 1) out.new.items }
{
    put_text(out, text);
    out.push(end);
}

// A number in decimal and the byte that ends it. 64 bits take at most 20 digits.
pub fn put_decimal<const N: usize>(out: &mut ArrayVec<u8, N>, n: u64, end: u8)
    requires { length out.old.items + 21 ≤ N }
    ensures { Adds out.old.items (decimal n ++ (end ∷ [])) 21 out.new.items }
{
    let mut digits = [0u8; 20];
    let k = io::decimal(n, &mut digits);
    put_ended(out, &digits[..k], end);
}

// The same in lower-case hexadecimal. 64 bits take at most 16 digits. A function of its own, since `io` has one for each base, with an array
// of its own length: what the two share is put_ended.
pub fn put_hexadecimal<const N: usize>(out: &mut ArrayVec<u8, N>, n: u64, end: u8)
    requires { length out.old.items + 17 ≤ N }
    ensures { Adds out.old.items (hexadecimal n ++ (end ∷ [])) 17 out.new.items }
{
    let mut digits = [0u8; 16];
    let k = io::hex(n, 1, &mut digits);
    put_ended(out, &digits[..k], end);
}

// A word, a number in decimal and the byte that ends it.
pub fn put_number<const N: usize>(out: &mut ArrayVec<u8, N>, word: &[u8], n: u64, end: u8)
    requires { length out.old.items + length word.now + 21 ≤ N }
    ensures { Adds out.old.items (word.now ++ decimal n ++ (end ∷ [])) (length word.now + 21) out.new.items }
{
    put_text(out, word);
    put_decimal(out, n, end);
}

// The same as a line.
pub fn put_line<const N: usize>(out: &mut ArrayVec<u8, N>, word: &[u8], n: u64)
    requires { length out.old.items + length word.now + 21 ≤ N }
    ensures { Adds out.old.items (word.now ++ decimal n ++ ascii "\n") (length word.now + 21) out.new.items }
{
    put_number(out, word, n, b'\n');
}
