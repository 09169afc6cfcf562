// The trait of what makes a command's outputs from the units of its input.
ghost use Rattle.std.specs.Prelude.{◌≡◌, ◌++◌, ◌*◌, ◌+◌, ◌%◌, ◌≤◌, ℕ, List, [], length, replicate};
ghost use Rattle.dtx_outside.specs.Counts.{Nothing};
ghost use Rattle.dtx_meaning.specs.Status.{IsOfBytes, blame_of};
ghost use Rattle.dtx_engine.specs.Made.{AreFrontsOf, Made, only};
ghost use Rattle.dtx_engine.specs.Recipe.{AreSomeGiven, AreUnitsGiven, Recipe, IsSound, IsFed};

use dtx_meaning::Outcome;

/// The units in which an input is read.
#[derive(Clone, Copy)]
pub struct Shape {
    /// The length of a unit in bytes.
    pub unit: usize,
    /// How many units are read at once, as one piece.
    pub units: usize,
    /// How many units a group has. If a unit isn't allowed, the outputs are still made from the groups before it.
    pub group: u64,
    /// How many units an input may have.
    pub limit: u64,
}

/// What makes a command's outputs from the units of its input, a piece at a time.
pub trait Engine {
    ghost use Rattle.dtx_engine.specs.declared.engine.Shape.{Shape};

    /// The units in which the input is read.
    ghost shape: { Shape };

    /// What the engine makes of the units, as a definition.
    ghost recipe: { Self → Recipe };

    /// These are the bytes that were given to the engine so far.
    ghost stands: { Self → List ℕ → Type 0 };

    /// What the last call has made, given the bytes that are now in the buffer that it was lent.
    ghost gives: { Self → List ℕ → Made };

    /// How many zero bytes the last call has made for the first output, before those of `made`.
    ghost zeros: { Self → ℕ };

    /// The units in which the input is read.
    fn sizes(&self) -> Shape
        ensures same { result ≡ shape }
        ensures sound { IsSound result };

    /// Whether the unit of this number is allowed.
    fn allows(&self, index: u64, unit: &[u8]) -> bool
        requires { length unit.now ≡ shape.unit }
        ensures { result ≡ (recipe self.now).allows index unit.now };

    /// Takes whole units. The units before them are whole groups. `first` is the number of the first unit. The engine
    /// may change the bytes, and make its output in them.
    fn feed(&mut self, first: u64, bytes: &mut [u8])
        requires given { AreSomeGiven (shape.unit * first) (stands self.old) }
        requires grouped { first % shape.group ≡ 0 }
        requires whole { length bytes.old % shape.unit ≡ 0 }
        requires room { length bytes.old ≤ shape.unit * shape.units }
        requires most { shape.unit * first + length bytes.old ≤ shape.unit * shape.limit }
        ensures kept { recipe self.new ≡ recipe self.old }
        ensures fed { (given : List ℕ) → length given ≡ shape.unit * first → stands self.old given
            → IsFed (recipe self.old) given bytes.old (stands self.new) (gives self.new bytes.new) };

    /// Takes the end of the input, and gives the answer. `loose` is the number of bytes after the last whole unit.
    fn finish(&mut self, loose: usize) -> Outcome
        requires given { AreUnitsGiven shape (stands self.old) }
        ensures kept { recipe self.new ≡ recipe self.old }
        ensures verdict { blame_of result.status ≡ Nothing }
        ensures bytes { IsOfBytes result.status }
        ensures outcome { (given : List ℕ) → stands self.old given → result ≡ (recipe self.old).answer given loose }
        ensures rest { (given : List ℕ) → stands self.old given → gives self.new [] ≡ (recipe self.old).rest given };

    /// How many zero bytes the last call has made for the first output, before those of `made`. There can be more than
    /// memory holds, so they are only counted.
    fn zeros(&self) -> u64
        ensures { result ≡ zeros self.now };

    /// What the last call has made for the first output after these zeros. `bytes` is the buffer that the call was
    /// lent.
    fn made<'a>(&'a self, bytes: &'a [u8]) -> &'a [u8]
        ensures { replicate (zeros self.now) 0 ++ result.now ≡ (gives self.now bytes.now).first };

    /// What the last call has made for the second output, a log. It is empty for an engine without a second output.
    fn log(&self) -> &[u8]
        ensures { (bytes : List ℕ) → result.now ≡ (gives self.now bytes).second };

    /// No units make nothing.
    ghost starts: { (s : Self) → (recipe s).made [] ≡ only [] };

    /// What some first units make is a prefix of what more units make.
    ghost grows: { (s : Self) (a b : List ℕ) → length a % shape.unit ≡ 0
        → AreFrontsOf ((recipe s).made a) ((recipe s).made (a ++ b)) };
}
