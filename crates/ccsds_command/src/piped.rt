//! From a cube's raw bytes to its file, with predictors in threads of their own.

ghost use Rattle.std.specs.Prelude.{◌≡◌, ◌⊎◌, IfOk, IfErr, OnOk, Err};
ghost use Rattle.cube_core.specs.declared.fault.Fault.{Fault as Refusal};
ghost use Rattle.cube_core.specs.declared.fault.Fault.TheVariants.{WantOfMemory};
ghost use Rattle.cube_core.specs.Layout.{IsLayout};
ghost use Rattle.header_bits.specs.Lawful.{IsLawful, params_fault};
ghost use Rattle.ccsds_command.specs.Compress.{Compresses, IsCubeRefusal, HasFile, raw_limit};
ghost use Rattle.ccsds_command.specs.Piped.{EndedEarly, HasNoPlan, IsPipedFault, MayBePlanned, are_in_range, deal_of, plan_of as planned};
ghost use Rattle.command_devices.specs.Devices.{GaveWithin};
ghost use Rattle.command_devices.specs.Reading.{ToldAsRead};
ghost use Rattle.command_devices.specs.Writing.{IsWrite};

use crate::compress::read_cube;
use coder_pipe::Gate;
use coder_pipe::encode_predicted::encode_predicted;
use coder_pipe::plan::Plan;
use command_devices::sink::Sink;
use command_devices::source::Source;
use command_devices::writing::write_all;
use command_words::settings::CompressSettings;
use cube_core::fault::Fault;
use std::alloc::Global;
use std::sync::Wait;
use std::thread::Threads;

/// Reads a cube's raw bytes, codes the cube with predictors in threads of their own, and writes the file, which
/// is that of `run_compress`.
///
/// Unlawful parameters are refused before anything is read (`FieldRange`, `Disagree`), and then numbers of predictors
/// and slots that no plan may have (`FieldRange` of `Predictors` or `Slots`). Band z goes to predictor z mod their
/// number. The other refusals are those of `run_compress`, where `WantOfMemory` is also that of the plan;
/// `SpawnRefused` if a thread wasn't started; and `Stopped` if the gate stopped a predictor. After any refusal but
/// `Write` nothing was written.
#[tactic(auto, unfolding(crate::specs::Compress::Compresses, crate::specs::Piped::IsPipedFault))]
pub fn run_piped<R: Threads + Wait + Sync, S: Source, K: Sink, G: Gate + Sync>(
    rt: &R,
    alloc: Global,
    source: &mut S,
    sink: &mut K,
    settings: &CompressSettings,
    gate: &G,
) -> Result<(), Fault>
    requires { IsLayout settings.now.layout }
    ensures checked { (fault : Refusal) → params_fault settings.now.params ≡ Err fault → (result ≡ Err fault) × (source.new ≡ source.old)
        × (sink.new ≡ sink.old) }
    ensures planned_first { (fault : Refusal) → IsLawful settings.now.params → HasNoPlan settings.now fault → (result ≡ Err fault)
        × (source.new ≡ source.old) × (sink.new ≡ sink.old) }
    ensures compressed { OnOk result (Compresses settings.now (S.left source.old) (K.taken sink.old) (K.taken sink.new)) }
    ensures may { OnOk result (MayBePlanned settings.now) }
    ensures refused { IfErr result (IsPipedFault G.may_stop gate.now settings.now (S.left source.old) (S.failures source.old) (S.failures source.new)
        (K.taken sink.old) (K.taken sink.new) (K.failures sink.old) (K.failures sink.new) (K.stalls sink.old) (K.stalls sink.new)) }
    ensures worked { OnOk result ((S.failures source.new ≡ S.failures source.old) × (K.failures sink.new ≡ K.failures sink.old)
        × (K.stalls sink.new ≡ K.stalls sink.old)) }
    ensures told { IfErr result (ToldAsRead (S.failures source.old) (S.failures source.new)) }
    ensures unwritten { IfErr result (λ e. IsWrite e ⊎ (sink.new ≡ sink.old)) }
    ensures bounded { GaveWithin (λ _. raw_limit settings.now) (S.left source.old) (S.left source.new) }
{
    settings.params.check()?;
    let plan = plan_of(alloc, settings)?;
    let file = piped_file(rt, alloc, source, settings, &plan, gate)?;
    write_all(sink, &file)
}

/// Returns the plan of the settings. Its first fault comes before want of memory.
fn plan_of(alloc: Global, settings: &CompressSettings) -> Result<Plan, Fault>
    requires { IsLawful settings.now.params }
    ensures plan { IfOk result (λ plan. plan ≡ planned settings.now) }
    ensures may { OnOk result (MayBePlanned settings.now) }
    ensures refused { IfErr result (λ e. (e ≡ WantOfMemory) ⊎ HasNoPlan settings.now e) }
    ensures first { (fault : Refusal) → HasNoPlan settings.now fault → result ≡ Err fault }
{
    let deal = dealt(alloc, settings)?;
    Plan::new(
        alloc,
        &settings.params,
        settings.predictors,
        &deal,
        settings.slots,
    )
}

/// Returns the predictor of each band, where the numbers of predictors and slots are in range; otherwise an empty list.
fn dealt(alloc: Global, settings: &CompressSettings) -> Result<Vec<u8>, Fault>
    ensures deal { IfOk result (λ deal. deal.items ≡ deal_of settings.now) }
    ensures refused { IfErr result (λ e. (e ≡ WantOfMemory) × MayBePlanned settings.now) }
{
    let predictors = settings.predictors;
    let slots = settings.slots;
    if predictors < 1 || predictors > 64 || slots < 1 || slots > 65_536 {
        return Ok(Vec::new(alloc));
    }
    let mut deal = Vec::new(alloc);
    for z in 0..settings.params.shape.bands() {
        let owner = (z % predictors) as u8;
        deal.push(owner)?;
    }
    Ok(deal)
}

/// Returns the file of the cube whose raw bytes the source has.
fn piped_file<R: Threads + Wait + Sync, S: Source, G: Gate + Sync>(
    rt: &R,
    alloc: Global,
    source: &mut S,
    settings: &CompressSettings,
    plan: &Plan,
    gate: &G,
) -> Result<Vec<u8>, Fault>
    requires layout { IsLayout settings.now.layout }
    requires plan { plan.now ≡ planned settings.now }
    ensures file { IfOk result (λ file. HasFile settings.now (S.left source.old) file.items) }
    ensures refused { IfErr result (λ e. IsCubeRefusal settings.now (S.left source.old) (S.failures source.old) (S.failures source.new) e
        ⊎ EndedEarly G.may_stop gate.now settings.now (S.left source.old) e) }
    ensures worked { OnOk result (S.failures source.new ≡ S.failures source.old) }
    ensures told { IfErr result (ToldAsRead (S.failures source.old) (S.failures source.new)) }
    ensures bounded { GaveWithin (λ _. raw_limit settings.now) (S.left source.old) (S.left source.new) }
{
    let cube = read_cube(alloc, source, settings)?;
    let piped = encode_predicted(rt, alloc, &cube, plan, gate)?;
    Ok(piped.file)
}
