//! Decoding: from a file's bytes to its parameters and its cube.

ghost use Rattle.std.specs.Prelude.{◌≡◌, ◌⊎◌, ◌+◌, ◌*◌, ◌^◌, ◌<◌, ◌≤◌, true, Err, IfOk, IfErr, OnOk, length};
ghost use Rattle.cube_core.specs.declared.fault.Fault.{Fault as Refusal};
ghost use Rattle.cube_core.specs.declared.fault.Fault.TheVariants.{WantOfMemory};
ghost use Rattle.cube_core.specs.Shape.{InRange};
ghost use Rattle.cube_core.specs.Image.{Image};
ghost use Rattle.header_bits.specs.declared.params.Params.{Params as Parameters};
ghost use Rattle.header_bits.specs.Bits.{bits_of_bytes};
ghost use Rattle.header_bits.specs.Lawful.{IsLawful};
ghost use Rattle.header_bits.specs.Header.{header_at, BeginsWithTable};
ghost use Rattle.file_format.specs.Files.{IsFile, after_body, fill_test, head_at, file_test};
ghost use Rattle.cube_core.specs.Order.{IsPlaceOf, goes_along_rows};
ghost use Rattle.file_decoding.specs.Decoding.{TakesCube, TakesResiduals, AnswersOr, IsNoFile, ReadsFile};

use crate::decoder::EntropyDecoder;
use crate::minimum_length::test_length;
use crate::tile::{COLUMNS, Tile, most_bands};
use cube_core::cube::Cube;
use cube_core::cursor::Places;
use cube_core::fault::Fault;
use cube_core::order::Place;
use header_bits::bit_reader::BitReader;
use header_bits::header::take_header;
use header_bits::params::Params;
use predict_core::bands::all_bands;
use std::alloc::Global;
use wave_inversion::inversion::invert;

/// Returns the parameters and the cube of a file of at most 2^60 bytes.
///
/// The refusals, in this order: those of the header, however little memory there is; `WantOfMemory` if the header's
/// tables can't be allocated; `Truncated` if fewer bits follow the header than `minimum_length`; `WantOfMemory`;
/// the first fault of the body in bit order, which is `Truncated`, `BadCode`, `BadOption` or `RunPastSegment`;
/// `TooLong` if the bits of an output word or more follow the body; `BadFill` if one of the fill bits is a one. So
/// nothing is allocated before the first `Truncated` where the header has no table. `Truncated` has the number of the
/// file's bits.
pub fn decode(alloc: Global, bytes: &[u8]) -> Result<(Params, Cube), Fault>
    requires { length bytes.now ≤ 2 ^ 60 }
    ensures lawful { IfOk result (λ found. IsLawful found.0) }
    ensures file { IfOk result (λ found. IsFile bytes.now found.0 found.1) }
    ensures only { (p : Parameters) (c : Image) → IsFile bytes.now p c → AnswersOr result p c }
    ensures header { (e : Refusal) → header_at (bits_of_bytes bytes.now) ≡ Err e → result ≡ Err e }
    ensures head { (e : Refusal) → head_at (bits_of_bytes bytes.now) ≡ Err e
        → (result ≡ Err e) ⊎ ((result ≡ Err WantOfMemory) × BeginsWithTable (bits_of_bytes bytes.now)) }
    ensures fault { IfErr result (λ e. (e ≡ WantOfMemory) ⊎ (file_test (bits_of_bytes bytes.now) ≡ Err e)) }
    ensures none { IfErr result (λ e. (e ≡ WantOfMemory) ⊎ IsNoFile bytes.now) }
{
    read_file(alloc, bytes)
}

/// Reads header, body and fill, one after another. The cube is allocated once the file is long enough to hold one.
fn read_file(alloc: Global, bytes: &[u8]) -> Result<(Params, Cube), Fault>
    requires { length bytes.now ≤ 2 ^ 60 }
    ensures { ReadsFile bytes.now result }
{
    let mut reader = BitReader::new(bytes);
    let params = take_header(alloc, &mut reader)?;
    test_length(&params, &reader)?;
    let cube = take_cube(alloc, &params, &mut reader)?;
    test_fill(params.word, &reader)?;
    Ok((params, cube))
}

/// Returns t: how many places of the same band come before this one.
fn time_of(params: &Params, place: Place) -> u64
    requires { IsPlaceOf params.now.shape place }
    ensures { result ≡ place.y * params.now.shape.columns + place.x }
{
    u64::from(place.y) * u64::from(params.shape.columns()) + u64::from(place.x)
}

/// Reads a body, and returns its cube.
///
/// No entropy coder needs samples, so the cube holds the residuals first. Once all of them are read, they are inverted in place.
fn take_cube(alloc: Global, params: &Params, reader: &mut BitReader) -> Result<Cube, Fault>
    requires { IsLawful params.now }
    ensures taken { IfOk result (λ cube. TakesCube params.now cube reader.old.left reader.new.left) }
    ensures refused { IfErr result (λ e. (e ≡ WantOfMemory) ⊎ (after_body reader.old.count params.now reader.old.left ≡ Err e)) }
    ensures count { reader.new.count ≡ reader.old.count }
{
    let mut cube = Cube::new(alloc, params.shape, params.kind)?;
    let mut predictors = all_bands(alloc, params)?;
    take_residuals(alloc, params, reader, &mut cube)?;
    invert(&mut predictors, &mut cube);
    Ok(cube)
}

/// Reads the residuals of a body, and stores each at its place, as an offset from the least sample.
///
/// The refusals are `WantOfMemory`, and the first fault of the body; what is in the cube is then unspecified.
fn take_residuals(
    alloc: Global,
    params: &Params,
    reader: &mut BitReader,
    cube: &mut Cube,
) -> Result<(), Fault>
    requires lawful { IsLawful params.now }
    requires alike { (cube.old.shape ≡ params.now.shape) × (cube.old.kind ≡ params.now.kind) }
    ensures taken { OnOk result (TakesResiduals params.now cube.new reader.old.left reader.new.left) }
    ensures refused { IfErr result (λ e. (e ≡ WantOfMemory) ⊎ (after_body reader.old.count params.now reader.old.left ≡ Err e)) }
    ensures count { reader.new.count ≡ reader.old.count }
{
    let mut decoder = EntropyDecoder::new(alloc, params)?;
    // Borrowed as a slice, whose length stays.
    let mut residuals = vec![in alloc; 0u16; COLUMNS * most_bands(params.order) as usize]?;
    let room = &mut residuals[..];
    let count = params.shape.sample_count();
    let mut places = Places::new(params.shape, params.order);
    while let Some(place) = places.peek() {
        let tile = Tile::at(params, place);
        let deltas = &mut room[..tile.count()];
        let index = count - places.left();
        tile.read(&mut decoder, time_of(params, place), index, reader, deltas)?;
        tile.store(cube, deltas);
        places.go_by(tile.count() as u64);
    }
    Ok(())
}

/// Tests the fill bits after the body: they are zeros, and fewer than an output word of `word` bytes has.
#[tactic(auto, using(file_format::proofs::FileLaws::ones_fail, file_format::proofs::FileLaws::zeros_pass))]
fn test_fill(word: u32, reader: &BitReader) -> Result<(), Fault>
    requires { InRange 1 8 word }
    ensures { result ≡ fill_test word reader.now.left }
{
    let bits = reader.left();
    if bits >= u64::from(8 * word) {
        return Err(Fault::TooLong { bits });
    }
    // Counting zeros up to a one fails exactly where all bits are zeros.
    match reader.fork().count_zeros(u64::MAX) {
        Ok(_) => Err(Fault::BadFill),
        Err(_) => Ok(()),
    }
}
