//! Laws of the definitions.

ghost use Rattle.std.specs.Prelude.{◌≡◌, ℕ, List, All, Ok};
ghost use Rattle.dtx_plan.specs.declared.plan.Plan.{Plan};
ghost use Rattle.dtx_plan.specs.Plan.{plan_of};
ghost use Rattle.dtx_plan.specs.Sound.{IsSound, IsTransmitter};

/// Every plan that is read from a file is one that an adapter takes: all its numbers are in their ranges, those of its
/// transmitters too.
pub fn plans_are_sound()
    ensures sound { (bytes : List ℕ) (plan : Plan) → plan_of bytes ≡ Ok plan → IsSound plan }
    ensures transmitters { (bytes : List ℕ) (plan : Plan) → plan_of bytes ≡ Ok plan
        → All IsTransmitter plan.transmitters }
{}
