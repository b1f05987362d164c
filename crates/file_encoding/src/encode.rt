//! Encoding on one thread.

ghost use Rattle.std.specs.Prelude.{◌≡◌, [], IsTrue, IfOk, IfErr, OnOk};
ghost use Rattle.cube_core.specs.Image.{Image, IsCube};
ghost use Rattle.cube_core.specs.Order.{upto};
ghost use Rattle.cube_core.specs.declared.fault.Fault.TheVariants.{WantOfMemory};
ghost use Rattle.cube_core.specs.declared.order.Order.TheVariants.{Bsq};
ghost use Rattle.header_bits.specs.Lawful.{IsLawful};
ghost use Rattle.file_encoding.specs.ByLines.{IsInterleaved};
ghost use Rattle.file_encoding.specs.Ends.{CodesAll, MayCodeAll};
ghost use Rattle.file_encoding.specs.InPlace.{AreTurned};
ghost use Rattle.file_encoding.specs.Own.{own_residuals};
ghost use Rattle.file_encoding.specs.Walks.{IsSeen, AreAt, AreFresh, bands_of};
ghost use Rattle.file_format.specs.File.{file_of};

use crate::copied::send_copied_lines;
use crate::file_encoder::FileEncoder;
use crate::in_place::turn_cube;
use crate::offsets::send_offsets;
use crate::pieces::GROUP;
use crate::walk::{most_planes, planes_room, send_own};
use cube_core::cube::Cube;
use cube_core::fault::Fault;
use cube_core::order::Order;
use header_bits::params::Params;
use predict_core::band::Band;
use predict_core::bands::all_bands;
use std::alloc::Global;

/// The fewest rows of an image of which each is copied before it is predicted: the two that are kept are a thirty-second of it at most.
const FEWEST_ROWS: u32 = 64;

/// Returns the file of a cube, for lawful parameters of its shape and kind, with the coder that they name.
///
/// Returns `WantOfMemory` if the output, the rows that are kept, or the state of the predictors or of the coder can't be allocated.
pub fn encode_one(alloc: Global, cube: &Cube, params: &Params) -> Result<Vec<u8>, Fault>
    requires lawful { IsLawful params.now }
    requires shape { cube.now.shape ≡ params.now.shape }
    requires kind { cube.now.kind ≡ params.now.kind }
    ensures file { IfOk result (λ bytes. bytes.items ≡ file_of cube.now params.now) }
    ensures refused { IfErr result (λ e. e ≡ WantOfMemory) }
{
    cube.prove_is_cube();
    let mut bands = all_bands(alloc, params)?;
    let mut end = FileEncoder::new(alloc, params)?;
    send_all(alloc, cube, params, &mut bands, &mut end)?;
    end.finish()
}

/// Sends the residuals of all bands, in encoding order, to the encoder of the file. `bands` are their predictors, each at its first
/// place.
///
/// Returns `WantOfMemory` if the rows that are kept, or the output, can't be allocated.
fn send_all(
    alloc: Global,
    cube: &Cube,
    params: &Params,
    bands: &mut [Band],
    end: &mut FileEncoder,
) -> Result<(), Fault>
    requires lawful { IsLawful params.now }
    requires image { IsSeen params.now cube.now }
    requires bands { AreFresh params.now 0 [] cube.now bands.old }
    requires may { MayCodeAll end.old (own_residuals params.now cube.now 0 [] params.now.order) }
    ensures sent { OnOk result (CodesAll end.old end.new (own_residuals params.now cube.now 0 [] params.now.order)) }
    ensures refused { IfErr result (λ e. e ≡ WantOfMemory) }
{
    if copies_rows(params) {
        return send_copied(alloc, cube, params, bands, end);
    }
    let mut room = planes_room(alloc, params);
    if !send_own(cube, params, 0, &[], bands, &mut room, end) {
        return Err(Fault::WantOfMemory);
    }
    Ok(())
}

/// Returns whether bands are interleaved, and an image has so many rows that two of them are little beside it.
fn copies_rows(params: &Params) -> bool
    ensures { IsTrue result → IsInterleaved params.now.order }
{
    match params.order {
        Order::Bsq => false,
        Order::Bi(_) => params.shape.rows() >= FEWEST_ROWS,
    }
}

/// Does the same where bands are interleaved, by rows that are copied.
fn send_copied(
    alloc: Global,
    cube: &Cube,
    params: &Params,
    bands: &mut [Band],
    end: &mut FileEncoder,
) -> Result<(), Fault>
    requires lawful { IsLawful params.now }
    requires order { IsInterleaved params.now.order }
    requires image { IsSeen params.now cube.now }
    requires bands { AreFresh params.now 0 [] cube.now bands.old }
    requires may { MayCodeAll end.old (own_residuals params.now cube.now 0 [] params.now.order) }
    ensures sent { OnOk result (CodesAll end.old end.new (own_residuals params.now cube.now 0 [] params.now.order)) }
    ensures refused { IfErr result (λ e. e ≡ WantOfMemory) }
{
    let Order::Bi(depth) = params.order else {
        unreachable!()
    };
    let size = params.shape.bands() as usize * params.shape.columns() as usize;
    let mut present = vec![in alloc; 0u16; size]?;
    let mut above = vec![in alloc; 0u16; size]?;
    if !send_copied_lines(cube, params, depth, bands, &mut present, &mut above, end) {
        return Err(Fault::WantOfMemory);
    }
    Ok(())
}

/// Returns the file of a cube, as `encode_one` does, and takes the cube.
///
/// In band-sequential order the residuals take the place of the samples, where that needs less room than planes of residuals do.
/// Returns `WantOfMemory` if the output, the rows that are kept, or the state of the predictors or of the coder can't be allocated.
pub fn encode_owned(alloc: Global, cube: Cube, params: &Params) -> Result<Vec<u8>, Fault>
    requires lawful { IsLawful params.now }
    requires shape { cube.shape ≡ params.now.shape }
    requires kind { cube.kind ≡ params.now.kind }
    ensures file { IfOk result (λ bytes. bytes.items ≡ file_of cube params.now) }
    ensures refused { IfErr result (λ e. e ≡ WantOfMemory) }
{
    if needs_less_in_place(params) {
        encode_in_place(alloc, cube, params)
    } else {
        encode_one(alloc, &cube, params)
    }
}

/// Returns whether the order is by band, and the rows that `turn` keeps are fewer samples than the planes of residuals that
/// `encode_one` keeps.
fn needs_less_in_place(params: &Params) -> bool
    ensures { IsTrue result → params.now.order ≡ Bsq }
{
    let shape = params.shape;
    let bands = u64::from(shape.bands());
    let lines = 2 * bands + GROUP as u64;
    let planes = u64::from(most_planes(shape));
    match params.order {
        Order::Bsq => lines < planes * u64::from(shape.rows()),
        Order::Bi(_) => false,
    }
}

/// `encode_owned` in band-sequential order, in place.
fn encode_in_place(alloc: Global, cube: Cube, params: &Params) -> Result<Vec<u8>, Fault>
    requires lawful { IsLawful params.now }
    requires order { params.now.order ≡ Bsq }
    requires shape { cube.shape ≡ params.now.shape }
    requires kind { cube.kind ≡ params.now.kind }
    ensures file { IfOk result (λ bytes. bytes.items ≡ file_of cube params.now) }
    ensures refused { IfErr result (λ e. e ≡ WantOfMemory) }
{
    cube.prove_is_cube();
    let mut cube = cube;
    let mut bands = all_bands(alloc, params)?;
    let mut end = FileEncoder::new(alloc, params)?;
    turn(alloc, &mut cube, params, &mut bands)?;
    if !send_offsets(&cube, &mut end) {
        return Err(Fault::WantOfMemory);
    }
    end.finish()
}

/// Replaces each sample of a cube by its mapped residual, as an offset from the least sample.
///
/// Returns `WantOfMemory` if the rows that are kept can't be allocated.
fn turn(alloc: Global, cube: &mut Cube, params: &Params, bands: &mut [Band]) -> Result<(), Fault>
    requires lawful { IsLawful params.now }
    requires order { params.now.order ≡ Bsq }
    requires cube { IsCube cube.old }
    requires image { IsSeen params.now cube.old }
    requires own { bands_of bands.old ≡ upto params.now.shape.bands }
    requires fresh { (c : Image) → AreAt params.now c 0 bands.old }
    ensures turned { OnOk result (AreTurned params.now cube.old cube.new params.now.shape.rows) }
    ensures refused { IfErr result (λ e. e ≡ WantOfMemory) }
{
    let columns = params.shape.columns() as usize;
    let size = params.shape.bands() as usize * columns;
    let mut present = vec![in alloc; 0u16; size]?;
    let mut above = vec![in alloc; 0u16; size]?;
    let mut room = vec![in alloc; 0u16; GROUP * columns]?;
    turn_cube(cube, params, bands, &mut present, &mut above, &mut room);
    Ok(())
}
