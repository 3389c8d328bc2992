// The ring of residues modulo T, on arrays of 16 words: n words below p, and zeros after them.
ghost use Rattle.std.specs.Prelude.{◌≡◌, ◌+◌, ◌-◌, ◌*◌, ◌/◌, ◌%◌, ◌≤◌, get_or, take, replicate};
ghost use Rattle.quotient.specs.Residue.{times_x, product, power, residue_of_x, substitute};
ghost use Rattle.array.specs.Array.{padded, Holds};
ghost use Rattle.residue.specs.Delayed.{reduced, Delayed, Stepped};

use crate::modulus::Modulus;
use crate::product::{multiply_into, multiply_times_x_into};
use modular::barrett::{Barrett, times};
use modular::word::add;

// A step of Horner's rule by itself: w becomes X·w. Its top word goes out as q·t, where q is the opposite of the top word modulo p; no other word is reduced.
fn step(t: &Modulus, q: u64, w: &mut [u64; 16])
    requires opposite { (q ≤ 2 * t.now.d.p) × ((q + get_or w.old (t.now.n - 1) 0) % t.now.d.p ≡ 0) }
    requires delayed { Delayed t.now.d.p t.now.n 16 (reduced t.now.d.p (take t.now.n w.old)) w.old }
    ensures { Stepped t.now.d.p t.now.n (take t.now.n t.now.words) 0 (take t.now.n t.now.words) w.old w.new }
{
    let mut carry = 0;
    for j in 0..t.n {
        let x = w[j];
        w[j] = carry + times(q, t.words[j]);
        carry = x;
    }
}

// Takes each word of w modulo p.
fn reduce(d: Barrett, n: usize, w: &mut [u64; 16])
    requires degree { n ≤ 16 }
    requires delayed { Delayed d.p n 17 (reduced d.p (take n w.old)) w.old }
    ensures { w.new ≡ padded (reduced d.p (take n w.old)) }
{
    for j in 0..n {
        w[j] = d.reduce(w[j]);
    }
}

// X·w modulo T in place of w.
pub fn times_x(t: &Modulus, w: &mut [u64; 16])
    requires { Holds t.now.d.p t.now.n w.old }
    ensures { w.new ≡ padded (times_x t.now.d.p (take t.now.n t.now.words) (take t.now.n w.old)) }
{
    let q = t.d.p - w[t.n - 1];
    step(t, q, w);
    reduce(t.d, t.n, w);
}

// u·v modulo T.
pub fn multiply(t: &Modulus, u: &[u64; 16], v: &[u64; 16]) -> [u64; 16]
    requires { Holds t.now.d.p t.now.n u.now × Holds t.now.d.p t.now.n v.now }
    ensures { result ≡ padded (product t.now.d.p (take t.now.n t.now.words) (take t.now.n u.now) (take t.now.n v.now)) }
{
    let mut w = [0; 16];
    multiply_into(t, u, v, &mut w);
    w
}

// X modulo T.
pub fn residue_of_x(t: &Modulus) -> [u64; 16]
    ensures { result ≡ padded (residue_of_x t.now.d.p (take t.now.n t.now.words)) }
{
    let n = t.n;
    let mut w = [0; 16];
    if n == 1 {
        w[0] = (t.d.p - 1) * t.words[0] % t.d.p;
    } else {
        w[1] = 1;
    }
    w
}

// u^e modulo T into w, which is 0, from the power to half the exponent: its square, and u times that where e is odd.
fn double(t: &Modulus, u: &[u64; 16], half: &[u64; 16], e: u64, w: &mut [u64; 16])
    requires holds { Holds t.now.d.p t.now.n u.now × (half.now ≡ padded (power t.now.d.p (take t.now.n t.now.words) (take t.now.n u.now) (e / 2))) }
    requires zeros { w.old ≡ replicate 16 0 }
    ensures { w.new ≡ padded (power t.now.d.p (take t.now.n t.now.words) (take t.now.n u.now) e) }
{
    if e % 2 == 0 {
        multiply_into(t, half, half, w);
        return;
    }
    let mut square = [0; 16];
    multiply_into(t, half, half, &mut square);
    multiply_into(t, u, &square, w);
}

// u^e modulo T into w, which is 0.
fn power_by_halving(t: &Modulus, u: &[u64; 16], e: u64, w: &mut [u64; 16])
    requires holds { Holds t.now.d.p t.now.n u.now }
    requires zeros { w.old ≡ replicate 16 0 }
    ensures { w.new ≡ padded (power t.now.d.p (take t.now.n t.now.words) (take t.now.n u.now) e) }
{
    if e == 0 {
        w[0] = 1;
        return;
    }
    if e == 1 {
        *w = *u;
        return;
    }
    let mut half = [0; 16];
    power_by_halving(t, u, e / 2, &mut half);
    double(t, u, &half, e, w);
}

// u^e modulo T.
pub fn power(t: &Modulus, u: &[u64; 16], e: u64) -> [u64; 16]
    requires { Holds t.now.d.p t.now.n u.now }
    ensures { result ≡ padded (power t.now.d.p (take t.now.n t.now.words) (take t.now.n u.now) e) }
{
    let mut w = [0; 16];
    power_by_halving(t, u, e, &mut w);
    w
}

// X^e modulo T into w, which is 0, from X^(e / 2): its square, and X times that where e is odd.
fn raise(t: &Modulus, half: &[u64; 16], e: u64, w: &mut [u64; 16])
    requires holds { half.now ≡ padded (power t.now.d.p (take t.now.n t.now.words) (residue_of_x t.now.d.p (take t.now.n t.now.words)) (e / 2)) }
    requires zeros { w.old ≡ replicate 16 0 }
    ensures { w.new ≡ padded (power t.now.d.p (take t.now.n t.now.words) (residue_of_x t.now.d.p (take t.now.n t.now.words)) e) }
{
    if e % 2 == 0 {
        multiply_into(t, half, half, w);
        return;
    }
    multiply_times_x_into(t, half, half, w);
}

// X^e modulo T into w, which is 0. An exponent below n needs no product.
fn power_of_x_by_halving(t: &Modulus, e: u64, w: &mut [u64; 16])
    requires { w.old ≡ replicate 16 0 }
    ensures { w.new ≡ padded (power t.now.d.p (take t.now.n t.now.words) (residue_of_x t.now.d.p (take t.now.n t.now.words)) e) }
{
    let n = t.n as u64;
    if e < n {
        w[e as usize] = 1;
        return;
    }
    let mut half = [0; 16];
    power_of_x_by_halving(t, e / 2, &mut half);
    raise(t, &half, e, w);
}

// X^p modulo T.
pub fn frobenius_of_x(t: &Modulus) -> [u64; 16]
    ensures { result ≡ padded (power t.now.d.p (take t.now.n t.now.words) (residue_of_x t.now.d.p (take t.now.n t.now.words)) t.now.d.p) }
{
    let mut w = [0; 16];
    power_of_x_by_halving(t, t.d.p, &mut w);
    w
}

// u(S) modulo T, by Horner's rule from the top word of u.
pub fn substitute(t: &Modulus, s: &[u64; 16], u: &[u64; 16]) -> [u64; 16]
    requires { Holds t.now.d.p t.now.n s.now × Holds t.now.d.p t.now.n u.now }
    ensures { result ≡ padded (substitute t.now.d.p (take t.now.n t.now.words) (take t.now.n s.now) (take t.now.n u.now)) }
{
    let mut w = [0; 16];
    w[0] = u[t.n - 1];
    for i in (0..t.n - 1).rev() {
        w = multiply(t, s, &w);
        w[0] = add(t.d.p, w[0], u[i]);
    }
    w
}
