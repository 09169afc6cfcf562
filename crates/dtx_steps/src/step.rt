// The trait of what makes a command's outputs from its input, a step at a time.
ghost use Rattle.std.specs.Prelude.{◌≡◌, ◌*◌, ◌+◌, ◌-◌, ◌/◌, ◌%◌, ◌<◌, ◌≤◌, ◌++◌, ℕ, List, [], length, take, drop};
ghost use Rattle.dtx_outside.specs.Counts.{Nothing};
ghost use Rattle.dtx_meaning.specs.Status.{IsOfBytes, blame_of};
ghost use Rattle.dtx_engine.specs.Made.{AreFrontsOf, Made, joined, only};
ghost use Rattle.dtx_engine.specs.Recipe.{AreSomeGiven, AreUnitsGiven, IsSound, Recipe};
ghost use Rattle.dtx_steps.specs.Stepped.{IsStepped};

use dtx_engine::Shape;
use dtx_meaning::Outcome;

/// What makes a command's outputs from the units of its input, a step at a time. A step is some units of a piece, as
/// many as the value takes at once.
pub trait Step {
    ghost use Rattle.dtx_engine.specs.declared.engine.Shape.{Shape};

    /// The units in which the input is read.
    ghost shape: { Shape };

    /// What is made of the units, as a definition.
    ghost recipe: { Self → Recipe };

    /// These are the bytes that were given to the value so far.
    ghost stands: { Self → List ℕ → Type 0 };

    /// What was made since the value was last cleared.
    ghost holds: { Self → Made };

    /// So many units were given, and the value can take so many more before it is cleared again.
    ghost is_ready: { Self → ℕ → ℕ → Type 0 };

    /// The units in which the input is read.
    fn sizes(&self) -> Shape
        ensures same { result ≡ shape }
        ensures sound { IsSound result };

    /// Whether the unit of this number is allowed.
    fn allows(&self, index: u64, unit: &[u8]) -> bool
        requires { length unit.now ≡ shape.unit }
        ensures { result ≡ (recipe self.now).allows index unit.now };

    /// Lets go of what was made. The value is ready for a piece then.
    fn clear(&mut self)
        requires given { (units : ℕ) × AreSomeGiven (shape.unit * units) (stands self.old) }
        ensures kept { recipe self.new ≡ recipe self.old }
        ensures stands { (given : List ℕ) → stands self.old given → stands self.new given }
        ensures empty { holds self.new ≡ only [] }
        ensures ready { (first units : ℕ) → first % shape.group ≡ 0 → units ≤ shape.units
            → is_ready self.new first units };

    /// Takes the first of the units that are left of a piece, and returns how many it took. `first` is the number of
    /// the first one. The bytes of those that it took may be changed.
    fn step(&mut self, first: u64, bytes: &mut [u8]) -> usize
        requires given { AreSomeGiven (shape.unit * first) (stands self.old) }
        requires some { 0 < length bytes.old / shape.unit }
        requires most { first + length bytes.old / shape.unit ≤ shape.limit }
        requires ready { is_ready self.old first (length bytes.old / shape.unit) }
        ensures some { 0 < result }
        ensures within { result ≤ length bytes.old / shape.unit }
        ensures kept { recipe self.new ≡ recipe self.old }
        ensures rest { drop (shape.unit * result) bytes.new ≡ drop (shape.unit * result) bytes.old }
        ensures stepped { (given : List ℕ) (front : Made) → length given ≡ shape.unit * first → stands self.old given
            → (recipe self.old).made given ≡ joined front (holds self.old)
            → IsStepped (recipe self.old) given (take (shape.unit * result) bytes.old) (stands self.new) front
            (holds self.new) }
        ensures ready { is_ready self.new (first + result) (length bytes.old / shape.unit - result) };

    /// Takes the end of the input, and gives the answer. `loose` is the number of bytes after the last whole unit. The
    /// value was cleared before.
    fn finish(&mut self, loose: usize) -> Outcome
        requires given { AreUnitsGiven shape (stands self.old) }
        requires empty { holds self.old ≡ only [] }
        ensures kept { recipe self.new ≡ recipe self.old }
        ensures verdict { blame_of result.status ≡ Nothing }
        ensures bytes { IsOfBytes result.status }
        ensures outcome { (given : List ℕ) → stands self.old given → result ≡ (recipe self.old).answer given loose }
        ensures rest { (given : List ℕ) → stands self.old given → holds self.new ≡ (recipe self.old).rest given };

    /// What was made for the first output since the value was last cleared.
    fn made(&self) -> &[u8]
        ensures { result.now ≡ (holds self.now).first };

    /// What was made for the second output, a log. It is empty where there is no second output.
    fn log(&self) -> &[u8]
        ensures { result.now ≡ (holds self.now).second };

    /// No units make nothing.
    ghost starts: { (s : Self) → (recipe s).made [] ≡ only [] };

    /// What some first units make is a prefix of what more units make.
    ghost grows: { (s : Self) (a b : List ℕ) → length a % shape.unit ≡ 0
        → AreFrontsOf ((recipe s).made a) ((recipe s).made (a ++ b)) };
}
