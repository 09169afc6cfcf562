// Reading the file of a plan, and a file of changes.
ghost use Rattle.std.specs.Prelude.{◌≡◌, ◌<◌, [], length, false, Ok, IfSome, IfOk, IfErr};
ghost use Rattle.std.specs.FinMap as files;
ghost use Rattle.dtx_outside.specs.Counts.{HasGone};
ghost use Rattle.dtx_meaning.specs.Status.{blame_of_answer};
ghost use Rattle.dtx_plan.specs.Sound.{IsSound, HasSoundNet, AreDamages};
ghost use Rattle.dtx_forms.specs.PlanFile.{IsChangesRead, IsPlanRead, IsPlanRefusal, IsReadAll, IsReadOn};
ghost use Rattle.dtx_forms.specs.PlanFile.{IsReadRefusal};
ghost use Rattle.dtx_forms.specs.PlanFile.{IsSmallFile};
ghost use Rattle.dtx_forms.specs.Stages.{IsForeseenWhole};

use dtx_meaning::{Status, of_plan, of_read};
use dtx_outside::{Shelf, fill};
use dtx_plan::{Damages, Plan, read_changes, read_plan};
use std::alloc::{AllocError, Global};

/// How many bytes of a plan or a file of changes are kept at most. It is one more than such a file may have, which
/// shows where a file is too long.
const SMALL: usize = 16_777_217;

/// How many bytes of it are read at once.
const PIECE: usize = 65_536;

/// Reads the plan in the input of that number. `dtx_plan::read_plan` says what its text may be (the profile's own). The
/// error is `Absent` with that number, `Plan` with the rule that is broken, `ReadFault` or `Memory`.
#[tactic(auto, using(crate::proofs::SmallFile::read_said, crate::proofs::SmallFile::plan_of_part, crate::proofs::SmallFile::read_refused))]
pub fn plan_in<S: Shelf>(
    alloc: Global,
    shelf: &mut S,
    number: u8,
    name: &str,
) -> Result<Plan, Status>
    ensures told { IfSome (S.files shelf.old) (λ held. IsPlanRead (files.get held name.now) number result) }

    // This holds also where the shelf doesn't tell its files.
    ensures sound { IfOk result IsSound }
    ensures net { IfOk result HasSoundNet }
    ensures refusal { IfErr result (IsPlanRefusal number) }
    ensures kept { S.files shelf.new ≡ S.files shelf.old }
    ensures gone { HasGone (S.counts shelf.old) (S.counts shelf.new) (blame_of_answer result) }
    ensures foreseen { IsForeseenWhole (S.foreseen.readable name.now) result }
{
    match small_file(alloc, shelf, number, name) {
        Ok(bytes) => match read_plan(alloc, &bytes) {
            Ok(plan) => Ok(plan),
            Err(fault) => Err(of_plan(fault)),
        },
        Err(status) => Err(status),
    }
}

/// Reads the damage in the file of changes that is the input of that number. `dtx_plan::read_changes` says what its
/// text may be (the profile's own). The errors are those of `plan_in`.
#[tactic(auto, using(crate::proofs::SmallFile::read_said, crate::proofs::SmallFile::changes_of_part, crate::proofs::SmallFile::read_refused))]
pub fn changes_in<S: Shelf>(
    alloc: Global,
    shelf: &mut S,
    number: u8,
    name: &str,
) -> Result<Damages, Status>
    ensures told { IfSome (S.files shelf.old) (λ held. IsChangesRead (files.get held name.now) number result) }

    // This holds also where the shelf doesn't tell its files.
    ensures sound { IfOk result AreDamages }
    ensures refusal { IfErr result (IsPlanRefusal number) }
    ensures kept { S.files shelf.new ≡ S.files shelf.old }
    ensures gone { HasGone (S.counts shelf.old) (S.counts shelf.new) (blame_of_answer result) }
    ensures foreseen { IsForeseenWhole (S.foreseen.readable name.now) result }
{
    match small_file(alloc, shelf, number, name) {
        Ok(bytes) => match read_changes(alloc, &bytes) {
            Ok(damage) => Ok(damage),
            Err(fault) => Err(of_plan(fault)),
        },
        Err(status) => Err(status),
    }
}

/// The bytes of the input of that number. Where it has more than a plan or a file of changes may have, only its first
/// bytes.
fn small_file<S: Shelf>(
    alloc: Global,
    shelf: &mut S,
    number: u8,
    name: &str,
) -> Result<Vec<u8>, Status>
    ensures told { IfSome (S.files shelf.old) (λ held. IsSmallFile (files.get held name.now) number result) }
    ensures refusal { IfErr result (IsReadRefusal number) }
    ensures kept { S.files shelf.new ≡ S.files shelf.old }
    ensures gone { HasGone (S.counts shelf.old) (S.counts shelf.new) (blame_of_answer result) }
    ensures foreseen { IsForeseenWhole (S.foreseen.readable name.now) result }
{
    let mut piece = zeroed(alloc, PIECE)?;
    let mut bytes = Vec::new(alloc);
    match read_all(shelf, number, name, &mut piece, &mut bytes) {
        Ok(()) => {
            bytes.truncate(SMALL);
            Ok(bytes)
        }
        Err(status) => Err(status),
    }
}

/// Reads the input of that number piece by piece, until it ends or has given more bytes than a plan or a file of
/// changes may have.
fn read_all<S: Shelf>(
    shelf: &mut S,
    number: u8,
    name: &str,
    piece: &mut [u8],
    bytes: &mut Vec<u8>,
) -> Result<(), Status>
    requires room { length piece.old ≡ PIECE }
    requires none { bytes.old.items ≡ [] }
    ensures told { IfSome (S.files shelf.old) (λ held.
        IsReadAll (files.get held name.now) number result bytes.new.items) }
    ensures refusal { IfErr result (IsReadRefusal number) }
    ensures kept { S.files shelf.new ≡ S.files shelf.old }
    ensures gone { HasGone (S.counts shelf.old) (S.counts shelf.new) (blame_of_answer result) }
    ensures foreseen { IsForeseenWhole (S.foreseen.readable name.now) result }
{
    loop {
        match read_on(shelf, number, name, piece, bytes) {
            Ok(ended) => {
                if ended || bytes.len() >= SMALL {
                    return Ok(());
                }
            }
            Err(status) => return Err(status),
        }
    }
}

/// Appends the next piece of the input of that number to its first bytes. Answers whether the file ends there.
fn read_on<S: Shelf>(
    shelf: &mut S,
    number: u8,
    name: &str,
    piece: &mut [u8],
    bytes: &mut Vec<u8>,
) -> Result<bool, Status>
    requires room { length piece.old ≡ PIECE }
    requires short { length bytes.old.items < SMALL }
    ensures told { IfSome (S.files shelf.old) (λ held.
        IsReadOn (files.get held name.now) number bytes.old.items result bytes.new.items) }
    ensures on { result ≡ Ok false → length bytes.old.items < length bytes.new.items }
    ensures refusal { IfErr result (IsReadRefusal number) }
    ensures kept { S.files shelf.new ≡ S.files shelf.old }
    ensures gone { HasGone (S.counts shelf.old) (S.counts shelf.new) (blame_of_answer result) }
    ensures foreseen { IsForeseenWhole (S.foreseen.readable name.now) result }
{
    match fill(shelf, name, bytes.len() as u64, piece) {
        Ok(count) => match bytes.extend_from_slice(&piece[..count]) {
            Ok(()) => Ok(count < PIECE),
            Err(_) => Err(Status::Memory),
        },
        Err(cause) => Err(of_read(number, cause)),
    }
}

/// That many bytes, each 0.
fn zeroed(alloc: Global, room: usize) -> Result<Vec<u8>, AllocError>
    ensures { IfOk result (λ bytes. length bytes.items ≡ room) }
{
    vec![in alloc; 0u8; room]
}
