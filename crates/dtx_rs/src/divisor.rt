//! The generator of a code, by which data are divided.

ghost use Rattle.std.specs.Prelude.{◌≡◌, ◌-◌, ◌<◌, ◌++◌, replicate};
ghost use Rattle.dtx_laws.specs.Register.{generator};
ghost use Rattle.dtx_rs.specs.Generator.{multiplied};

use dtx_galois::{ALPHA, Gf};

/// The number of field elements, which is the number of values of a byte. A divisor has fewer coefficients.
pub const ELEMENTS: usize = 256;

/// The coefficients of the generator of degree m below its highest, which is 1, and then zeros.
pub fn divisor_of(m: usize) -> [u8; ELEMENTS]
    requires { m < 255 }
    ensures { result ≡ generator m ++ replicate (ELEMENTS - m) 0 }
{
    let mut divisor = [0; ELEMENTS];
    let mut root = Gf(1);
    for degree in 0..m {
        multiply(&mut divisor[..degree + 1], root);
        root = ALPHA.mul(root);
    }
    divisor
}

/// Multiplies a polynomial by x - root. Its highest coefficient, 1, is left out, and a 0 stands at the end.
fn multiply(divisor: &mut [u8], root: Gf)
    ensures { divisor.new ≡ multiplied root.0 1 divisor.old }
{
    let mut before = Gf(1);
    for i in 0..divisor.len() {
        let here = Gf(divisor[i]);
        divisor[i] = here.add(root.mul(before)).0;
        before = here;
    }
}
