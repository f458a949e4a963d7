ghost use Rattle.std.specs.Prelude.{◌≡◌, ℕ, ◌+◌, ◌*◌, ◌<◌, ◌≤◌, ◌&&◌, ◌||◌, not, true, length};
ghost use Rattle.pim_isa.specs.Steps.{majority};
ghost use Rattle.pim_io.specs.Lanes.{lane};
ghost use Rattle.pim_lanes.specs.inner.Rules.{Ruled, nor1_word, nor2_word, rm3_word};

use std::simd::prelude::*;

/// How many words are done at once.
const WIDTH: usize = 4;

/// Sets every lane to one. Linear in the words.
pub fn ones_into(t: &mut [u64])
    ensures { (r : ℕ) → r < 64 * length t.new → lane t.new r ≡ true }
{
    t.fill(u64::MAX);
}

/// Executes a NOR of one operand in every lane: `t = t and not a`. Linear in the words.
pub fn nor1_into(t: &mut [u64], a: &[u64])
    requires { length a.now ≡ length t.old }
    ensures { (r : ℕ) → lane t.new r ≡ (lane t.old r && not (lane a.now r)) }
{
    let done = nor1_vectors(t, a);
    nor1_words(t, a, done);
}

/// Executes a NOR of two operands in every lane: `t = t and not (a or b)`. Linear in the words.
pub fn nor2_into(t: &mut [u64], a: &[u64], b: &[u64])
    requires same_a { length a.now ≡ length t.old }
    requires same_b { length b.now ≡ length t.old }
    ensures { (r : ℕ) → lane t.new r ≡ (lane t.old r && not (lane a.now r || lane b.now r)) }
{
    let done = nor2_vectors(t, a, b);
    nor2_words(t, a, b, done);
}

/// Executes an RM3 in every lane: `z = maj(p, not q, z)`. Linear in the words.
pub fn rm3_into(z: &mut [u64], p: &[u64], q: &[u64])
    requires same_p { length p.now ≡ length z.old }
    requires same_q { length q.now ≡ length z.old }
    ensures { (r : ℕ) → lane z.new r ≡ majority (lane p.now r) (not (lane q.now r)) (lane z.old r) }
{
    let done = rm3_vectors(z, p, q);
    rm3_words(z, p, q, done);
}

/// Does the words that fill whole vectors, and says how many these are.
fn nor1_vectors(t: &mut [u64], a: &[u64]) -> usize
    requires { length a.now ≡ length t.old }
    ensures within { result ≤ length t.old }
    ensures ruled { Ruled nor1_word 0 result t.old a.now a.now t.new }
{
    let whole = t.len() / WIDTH;
    for i in 0..whole {
        nor1_vector(t, a, WIDTH * i);
    }
    WIDTH * whole
}

/// Does one vector of words.
fn nor1_vector(t: &mut [u64], a: &[u64], at: usize)
    requires within { at + WIDTH ≤ length t.old }
    requires same { length a.now ≡ length t.old }
    ensures { Ruled nor1_word at (at + WIDTH) t.old a.now a.now t.new }
{
    let one = u64x4::from_slice(&a[at..]);
    (u64x4::from_slice(&t[at..]) & !one).copy_to_slice(&mut t[at..]);
}

/// Does the words from a place on, one by one.
fn nor1_words(t: &mut [u64], a: &[u64], from: usize)
    requires within { from ≤ length t.old }
    requires same { length a.now ≡ length t.old }
    ensures { Ruled nor1_word from (length t.old) t.old a.now a.now t.new }
{
    for k in from..t.len() {
        t[k] &= !a[k];
    }
}

/// Does the words that fill whole vectors, and says how many these are.
fn nor2_vectors(t: &mut [u64], a: &[u64], b: &[u64]) -> usize
    requires same_a { length a.now ≡ length t.old }
    requires same_b { length b.now ≡ length t.old }
    ensures within { result ≤ length t.old }
    ensures ruled { Ruled nor2_word 0 result t.old a.now b.now t.new }
{
    let whole = t.len() / WIDTH;
    for i in 0..whole {
        nor2_vector(t, a, b, WIDTH * i);
    }
    WIDTH * whole
}

/// Does one vector of words.
fn nor2_vector(t: &mut [u64], a: &[u64], b: &[u64], at: usize)
    requires within { at + WIDTH ≤ length t.old }
    requires same_a { length a.now ≡ length t.old }
    requires same_b { length b.now ≡ length t.old }
    ensures { Ruled nor2_word at (at + WIDTH) t.old a.now b.now t.new }
{
    let one = u64x4::from_slice(&a[at..]) | u64x4::from_slice(&b[at..]);
    (u64x4::from_slice(&t[at..]) & !one).copy_to_slice(&mut t[at..]);
}

/// Does the words from a place on, one by one.
fn nor2_words(t: &mut [u64], a: &[u64], b: &[u64], from: usize)
    requires within { from ≤ length t.old }
    requires same_a { length a.now ≡ length t.old }
    requires same_b { length b.now ≡ length t.old }
    ensures { Ruled nor2_word from (length t.old) t.old a.now b.now t.new }
{
    for k in from..t.len() {
        t[k] &= !(a[k] | b[k]);
    }
}

/// Does the words that fill whole vectors, and says how many these are.
fn rm3_vectors(z: &mut [u64], p: &[u64], q: &[u64]) -> usize
    requires same_p { length p.now ≡ length z.old }
    requires same_q { length q.now ≡ length z.old }
    ensures within { result ≤ length z.old }
    ensures ruled { Ruled rm3_word 0 result z.old p.now q.now z.new }
{
    let whole = z.len() / WIDTH;
    for i in 0..whole {
        rm3_vector(z, p, q, WIDTH * i);
    }
    WIDTH * whole
}

/// Does one vector of words.
fn rm3_vector(z: &mut [u64], p: &[u64], q: &[u64], at: usize)
    requires within { at + WIDTH ≤ length z.old }
    requires same_p { length p.now ≡ length z.old }
    requires same_q { length q.now ≡ length z.old }
    ensures { Ruled rm3_word at (at + WIDTH) z.old p.now q.now z.new }
{
    let a = u64x4::from_slice(&p[at..]);
    let b = !u64x4::from_slice(&q[at..]);
    let old = u64x4::from_slice(&z[at..]);
    ((a & b) | (old & (a | b))).copy_to_slice(&mut z[at..]);
}

/// Does the words from a place on, one by one.
fn rm3_words(z: &mut [u64], p: &[u64], q: &[u64], from: usize)
    requires within { from ≤ length z.old }
    requires same_p { length p.now ≡ length z.old }
    requires same_q { length q.now ≡ length z.old }
    ensures { Ruled rm3_word from (length z.old) z.old p.now q.now z.new }
{
    for k in from..z.len() {
        z[k] = (p[k] & !q[k]) | (z[k] & (p[k] | !q[k]));
    }
}
