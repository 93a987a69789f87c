// Marks: a bit for each number, 16 numbers a word. The codes of one context are marked;
// what another context shares with it is then counted by one test a code, in no order.

#![tactic(auto)]

ghost use Rattle.std.specs.Prelude.{◌≡◌, ◌*◌, ◌≤◌, ◌<◌, length};
ghost use Rattle.marks.specs.Marks.{code_words, HaveMarks, marks_of, with_mark, bit_of, is_marked, marked_count, marked_from};

use words::zero_from;

// How many words the marks of codes have.
pub const WORDS: usize = 256;

// Marks one number.
#[tactic(auto, using(crate::proofs::Bits::shifted_one), unfolding(crate::specs::Marks::with_mark))]
pub fn put_mark(marks: &mut [u16], x: u16)
    requires { x < 16 * length marks.old }
    ensures { marks.new ≡ with_mark marks.old x }
{
    marks[usize::from(x / 16)] |= 1 << (x % 16);
}

// Marks the codes of a context, and no others.
#[tactic(auto, using(crate::proofs::Loops::markings))]
pub fn mark(marks: &mut [u16], xs: &[u16])
    requires { (length marks.old ≡ code_words) × HaveMarks xs.now }
    ensures { marks.new ≡ marks_of code_words xs.now }
{
    zero_from(marks, 0);
    for &x in xs {
        put_mark(marks, x);
    }
}

// 1 if a number is marked, else 0.
#[tactic(auto, unfolding(crate::specs::Marks::bit_of))]
fn bit_of(marks: &[u16], x: u16) -> u16
    requires { x < 16 * length marks.now }
    ensures { result ≡ bit_of marks.now x }
{
    (marks[usize::from(x / 16)] >> (x % 16)) % 2
}

// Whether a number is marked.
#[tactic(auto, unfolding(crate::specs::Marks::is_marked))]
pub fn is_marked(marks: &[u16], x: u16) -> bool
    requires { x < 16 * length marks.now }
    ensures { result ≡ is_marked marks.now x }
{
    bit_of(marks, x) != 0
}

// How many codes of a context are marked.
#[tactic(auto, using(crate::proofs::Loops::countings))]
fn count(marks: &[u16], ys: &[u16]) -> u16
    requires marks_len { (length marks.now ≡ code_words) × HaveMarks ys.now }
    requires ys_len_bound { length ys.now ≤ 4096 }
    ensures { result ≡ marked_count marks.now ys.now }
{
    let mut n = 0;
    for &y in ys {
        n += bit_of(marks, y);
    }
    n
}

// The marked codes of a context, counted from code x on, if x is the first of them; else 0.
#[tactic(auto, using(crate::proofs::Loops::lookings))]
pub fn marked_from(marks: &[u16], ys: &[u16], x: u16) -> u16
    requires marks_len { (length marks.now ≡ code_words) × HaveMarks ys.now }
    requires ys_len_bound { length ys.now ≤ 4096 }
    ensures { result ≡ marked_from marks.now x ys.now }
{
    for (i, &y) in ys.iter().enumerate() {
        if is_marked(marks, y) {
            return if y == x { count(marks, &ys[i..]) } else { 0 };
        }
    }
    0
}
