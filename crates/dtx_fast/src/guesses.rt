//! Guesses of the errors, from the first syndromes, where few bytes are wrong. Nothing is proved of a guess: the caller
//! tests it by all syndromes.

ghost use Rattle.std.specs.Prelude.{◌≡◌, length};

use crate::wrong_byte::WrongByte;
use dtx_galois::{Gf, ORDER};
use dtx_laws::correcting::ROOM;

/// The tables by which guesses are made.
#[derive(Drop)]
pub struct Guesses {
    /// Entry y * y + y is one such y.
    halves: [u8; ORDER + 1],
    /// Entry z * z * z + z is one such z.
    thirds: [u8; ORDER + 1],
    ghost halves_long: { length halves ≡ 256 },
    ghost thirds_long: { length thirds ≡ 256 },
}

impl Guesses {
    /// The tables, which are the same for each code.
    pub fn new() -> Self {
        let mut halves = [0; ORDER + 1];
        let mut thirds = [0; ORDER + 1];
        for y in 0..ORDER + 1 {
            let root = Gf(y as u8);
            let square = root.mul(root);
            halves[square.add(root).0 as usize] = y as u8;
            thirds[square.mul(root).add(root).0 as usize] = y as u8;
        }
        Guesses { halves, thirds }
    }

    /// The error that gives the first two syndromes. Where none gives them, the answer is some other error.
    pub fn one(&self, syndromes: &[u8; ROOM]) -> WrongByte {
        let first = Gf(syndromes[0]).log();
        let second = Gf(syndromes[1]).log();
        WrongByte {
            error: first,
            place: ((second as usize + ORDER - first as usize) % ORDER) as u8,
        }
    }

    /// The two errors that give the first four syndromes, if there are two and the fifth fits. The powers of their
    /// places are the zeros of x * x + sum * x + product.
    pub fn two(&self, syndromes: &[u8; ROOM]) -> Option<(WrongByte, WrongByte)> {
        let [a, b, c, d, e, _, _] = first_seven(syndromes);
        let over = products(a, c, b, b).pow(254);
        let sum = products(a, d, b, c).mul(over);
        let product = products(b, d, c, c).mul(over);
        if products(sum, d, product, c).0 != e.0 {
            return None;
        }
        let over_sum = sum.pow(254);
        let half = self.halves[product.mul(over_sum).mul(over_sum).0 as usize];
        let first = sum.mul(Gf(half));
        let second = first.add(sum);
        let error = b.add(a.mul(second)).mul(over_sum);
        Some((wrong_byte(error, first), wrong_byte(a.add(error), second)))
    }

    /// The three errors that give the first six syndromes, if there are three and the seventh fits.
    pub fn three(&self, syndromes: &[u8; ROOM]) -> Option<(WrongByte, WrongByte, WrongByte)> {
        let [a, b, c, d, e, f, g] = first_seven(syndromes);
        let locator = locator_of_three(syndromes);
        let [p, q, r] = locator;
        if products(p, f, q, e).add(r.mul(d)).0 != g.0 {
            return None;
        }
        let [first, second, third] = self.zeros(&locator);
        let one = error_at(&locator, &[a, b, c], first);
        let two = error_at(&locator, &[a, b, c], second);
        Some((
            wrong_byte(one, first),
            wrong_byte(two, second),
            wrong_byte(a.add(one).add(two), third),
        ))
    }

    /// The zeros of x * x * x + p * x * x + q * x + r, where there are three. With x = p + scale * z the polynomial is
    /// a multiple of z * z * z + z + rest.
    fn zeros(&self, locator: &[Gf; 3]) -> [Gf; 3] {
        let [p, q, r] = *locator;
        let scale = p.mul(p).add(q).pow(128);
        let rest = p.mul(q).add(r).mul(scale.pow(252));
        let root = Gf(self.thirds[rest.0 as usize]);
        let half = self.halves[root.mul(root).add(Gf(1)).mul(root.pow(253)).0 as usize];
        let other = root.mul(Gf(half));
        [
            scale.mul(root).add(p),
            scale.mul(other).add(p),
            scale.mul(root.add(other)).add(p),
        ]
    }
}

/// The error that adds the element `error` at the place of the power `power`.
fn wrong_byte(error: Gf, power: Gf) -> WrongByte {
    WrongByte {
        error: error.log(),
        place: power.log(),
    }
}

/// The sum of the product of two elements and that of two others.
#[inline(always)]
fn products(first: Gf, by: Gf, second: Gf, times: Gf) -> Gf {
    first.mul(by).add(second.mul(times))
}

/// The first seven syndromes as elements.
fn first_seven(syndromes: &[u8; ROOM]) -> [Gf; 7] {
    [
        Gf(syndromes[0]),
        Gf(syndromes[1]),
        Gf(syndromes[2]),
        Gf(syndromes[3]),
        Gf(syndromes[4]),
        Gf(syndromes[5]),
        Gf(syndromes[6]),
    ]
}

/// The coefficients, below the highest one, of the polynomial that vanishes at the powers of three places. The highest
/// one is 1. By these coefficients each of three syndromes follows from the three before it: Cramer's rule solves these
/// equations.
fn locator_of_three(syndromes: &[u8; ROOM]) -> [Gf; 3] {
    let [a, b, c, d, e, f, _] = first_seven(syndromes);
    let one = products(c, c, b, d);
    let two = products(c, e, b, f);
    let three = products(d, e, c, f);
    let four = products(d, f, e, e);
    let five = products(c, d, b, e);
    let six = products(d, d, c, e);
    let over = products(c, one, b, five).add(a.mul(six)).pow(254);
    [
        products(d, one, b, two).add(a.mul(three)).mul(over),
        products(c, two, d, five).add(a.mul(four)).mul(over),
        products(c, three, b, four).add(d.mul(six)).mul(over),
    ]
}

/// The error at a zero of the locator, by the quotient x * x + u * x + v of the locator.
fn error_at(locator: &[Gf; 3], syndromes: &[Gf; 3], power: Gf) -> Gf {
    let u = locator[0].add(power);
    let v = locator[1].add(u.mul(power));
    let sum = syndromes[2]
        .add(u.mul(syndromes[1]))
        .add(v.mul(syndromes[0]));
    let value = power.add(u).mul(power).add(v);
    sum.mul(value.pow(254))
}
