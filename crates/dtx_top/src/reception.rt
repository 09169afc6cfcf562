// The symbols of a transmitter, received with damage laid over them.
ghost use Rattle.std.specs.Prelude.{◌≡◌, [], ◌∷◌, ℕ, List, Some, IfSome, length};
ghost use Rattle.std.specs.FinMap as files;
ghost use Rattle.dtx_engine.specs.Recipe.{meaning};
ghost use Rattle.dtx_forms.specs.Damaged.{damaged_making};
ghost use Rattle.dtx_recipes.specs.Hurt as past;
ghost use Rattle.dtx_recipes.specs.Receive.{receiving};
ghost use Rattle.dtx_forms.specs.Shapes as shapes;
ghost use Rattle.dtx_meaning.specs.Meaning.{IsCarriedOut};
ghost use Rattle.dtx_meaning.specs.Status.{blame_of};
ghost use Rattle.dtx_outside.specs.Counts.{HasGone};
ghost use Rattle.dtx_outside.specs.Shelf.{Files};
ghost use Rattle.dtx_plan.specs.Sound.{AreDamages};
ghost use Rattle.dtx_words.specs.Names.{received_name, symbol_name};
ghost use Rattle.dtx_top.specs.NetAnswers.{HasCount, IsOfReplay};
ghost use Rattle.dtx_top.specs.NetMeaning.{received_past};

use dtx_engine::{Input, carry_to_one};
use dtx_forms::DamagedInput;
use dtx_jobs::Reception;
use dtx_meaning::{Outcome, Status, ended};
use dtx_outside::Shelf;
use dtx_packet_jobs::first_past;
use dtx_plan::ReceivePlan;
use dtx_receiver::Receiver;
use dtx_steps::Steps;
use dtx_words::{received_name, symbol_name};
use std::alloc::Global;

/// Receives the symbols of the receiver's transmitter, with the receiver's damage laid over them. `symbols` is their
/// number. If an entry of damage ends past them, the status has the first such entry.
pub(crate) fn receive_sent<S: Shelf>(
    alloc: Global,
    shelf: &mut S,
    receiver: &ReceivePlan,
    symbols: u64,
) -> Outcome
    requires damage { AreDamages receiver.now.damage }
    ensures carried { (held : Files) (file : List ℕ) → S.files shelf.old ≡ Some held
        → files.get held (symbol_name receiver.now.from) ≡ Some file
        → past.first_past receiver.now.damage symbols ≡ past.first_past receiver.now.damage (length file)
        → IsCarriedOut (received_past (past.first_past receiver.now.damage (length file)) receiver.now.damage file)
        (Some held)
        result (S.files shelf.new) }
    ensures network { IsOfReplay (Some receiver.now) result.status }
    ensures count { HasCount 6 result }
    ensures gone { HasGone (S.counts shelf.old) (S.counts shelf.new) (blame_of result.status) }
{
    match first_past(&receiver.damage, symbols) {
        Some(entry) => ended(Status::OutOfAir(entry)),
        None => receive(alloc, shelf, receiver),
    }
}

/// Receives them where each entry of damage ends within the symbols.
#[inline(never)]
fn receive<S: Shelf>(alloc: Global, shelf: &mut S, receiver: &ReceivePlan) -> Outcome
    requires damage { AreDamages receiver.now.damage }
    ensures carried { IfSome (S.files shelf.old) (λ held. IsCarriedOut
        (meaning shapes.segments (damaged_making receiver.now.damage receiving) 3 (received_name ∷ [])
        (files.get held (symbol_name receiver.now.from)))
        (Some held) result (S.files shelf.new)) }
    ensures network { IsOfReplay (Some receiver.now) result.status }
    ensures count { HasCount 6 result }
    ensures gone { HasGone (S.counts shelf.old) (S.counts shelf.new) (blame_of result.status) }
{
    match Reception::<Receiver>::new(alloc) {
        Ok(reception) => {
            let name = symbol_name(receiver.from);
            let input = Input {
                name: name.as_str(),
                number: 3,
            };
            let mut engine = DamagedInput::new(&receiver.damage, Steps::new(reception));
            carry_to_one(alloc, &mut engine, input, received_name(), shelf)
        }
        Err(cause) => ended(Status::from(cause)),
    }
}
