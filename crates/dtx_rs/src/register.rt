//! Division byte by byte, for any number of parity bytes.

ghost use Rattle.std.specs.Prelude.{◌≡◌, ◌+◌, ◌-◌, ◌<◌, ◌≤◌, ◌++◌, length, replicate, take};
ghost use Rattle.dtx_galois.specs.Field.{AreBytes, scaled, sums};
ghost use Rattle.dtx_laws.specs.Register.{fed, register};

use dtx_galois::Gf;

/// Sets a word to the data, and then the register after all of them.
pub fn encode_by_register(divisor: &[u8], head: &[u8], word: &mut [u8])
    requires some { 0 < length divisor.now }
    requires long { length word.old ≡ length head.now + length divisor.now }
    ensures bytes { AreBytes head.now }
    ensures word { word.new ≡ head.now ++ register divisor.now (replicate (length divisor.now) 0) head.now }
{
    let (front, rest) = word.split_at_mut(head.len());
    front.copy_from_slice(head);
    divide(divisor, head, rest);
}

/// Replaces what stands behind a word's data by the register after all of them.
pub fn complete_by_register(divisor: &[u8], word: &mut [u8])
    requires some { 0 < length divisor.now }
    requires room { length divisor.now ≤ length word.old }
    ensures bytes { AreBytes word.old }
    ensures word { word.new ≡ take (length word.old - length divisor.now) word.old
        ++ register divisor.now (replicate (length divisor.now) 0)
        (take (length word.old - length divisor.now) word.old) }
{
    let count = word.len() - divisor.len();
    let (head, rest) = word.split_at_mut(count);
    divide(divisor, head, rest);
}

/// Sets `rest` to the register that began with zeros, after all the data.
fn divide(divisor: &[u8], head: &[u8], rest: &mut [u8])
    requires some { 0 < length divisor.now }
    requires long { length rest.old ≡ length divisor.now }
    ensures bytes { AreBytes head.now }
    ensures rest { rest.new ≡ register divisor.now (replicate (length divisor.now) 0) head.now }
{
    rest.fill(0);
    for byte in head {
        feed(rest, divisor, *byte);
    }
}

/// Moves the register on by one more byte.
pub fn feed(register: &mut [u8], divisor: &[u8], byte: u8)
    requires same { length register.old ≡ length divisor.now }
    requires some { 0 < length register.old }
    ensures { register.new ≡ fed divisor.now register.old byte }
{
    let factor = Gf(byte ^ register[0]);
    register.rotate_left(1);
    let last = register.len() - 1;
    register[last] = 0;
    add_scaled(register, divisor, factor);
}

fn add_scaled(register: &mut [u8], divisor: &[u8], factor: Gf)
    requires { length register.old ≡ length divisor.now }
    ensures { register.new ≡ sums register.old (scaled factor.0 divisor.now) }
{
    for i in 0..divisor.len() {
        register[i] ^= factor.mul(Gf(divisor[i])).0;
    }
}
